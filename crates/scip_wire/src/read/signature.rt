//! Signatures.

ghost use Rattle.scip_records.specs.Details.{no_signature};
ghost use Rattle.scip_wire.specs.Reading.{signature_step};
ghost use Rattle.scip_wire.specs.Blamed.{text_fault};

use crate::read::field::{Field, Payload};
use crate::read::message::Decode;
use crate::read::text::take_text;
use crate::wire_fault::WireFault;
use scip_records::Signature;
use std::alloc::Global;

/// A document (`scip.proto`, `SymbolInformation.signature_documentation`), of which the language and the text are read.
impl Decode for Signature {
    ghost none = { no_signature };

    ghost step = { signature_step };

    ghost step_fault = { text_fault };

    fn empty(alloc: Global) -> Signature {
        Signature::none(alloc)
    }

    #[tactic(auto, unfolding(crate::specs::Reading::signature_step, crate::specs::Reading::parted, crate::specs::Reading::both, crate::specs::Reading::column))]
    fn merge_field(
        &mut self,
        alloc: Global,
        field: Field<'_>,
        start: usize,
        _end: usize,
    ) -> Result<(), WireFault> {
        match (field.number, field.payload) {
            (4, Payload::Delimited(bytes)) => take_text(alloc, &mut self.language, bytes, start),
            (5, Payload::Delimited(bytes)) => take_text(alloc, &mut self.text, bytes, start),
            _ => Ok(()),
        }
    }
}
