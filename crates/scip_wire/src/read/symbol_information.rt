//! Symbol information.

ghost use Rattle.std.specs.Prelude.{◌≡◌, OnOk};
ghost use Rattle.scip_wire.specs.Reading.{no_info, info_step, signature_after, enclosing_symbol_after};
ghost use Rattle.scip_wire.specs.Blamed.{text_fault};

use crate::read::field::{Field, Payload};
use crate::read::message::{Decode, read_message};
use crate::read::text::{add_text, number_of, take_text, text_of};
use crate::wire_fault::WireFault;
use basics::{OwnedText, Sequence};
use scip_records::{BoxedDetails, SymbolInformation};
use std::alloc::{AllocError, Global};

/// Puts the signature that the bytes hold in the place of an earlier one, if it can be read.
#[tactic(auto, unfolding(crate::specs::Reading::signature_at))]
fn take_signature(alloc: Global, details: &mut BoxedDetails, bytes: &[u8]) -> Result<(), AllocError>
    ensures { OnOk result (details.new ≡ signature_after details.old bytes.now) }
{
    match read_message(alloc, bytes, bytes.len()) {
        Ok(signature) => details.set_signature(alloc, signature),
        Err(WireFault::Memory) => Err(AllocError),
        Err(_) => Ok(()),
    }
}

/// Puts the enclosing symbol of a field in the place of an earlier one, if it can be read.
fn take_enclosing_symbol(
    alloc: Global,
    details: &mut BoxedDetails,
    bytes: &[u8],
) -> Result<(), AllocError>
    ensures { OnOk result (details.new ≡ enclosing_symbol_after details.old bytes.now) }
{
    match text_of(alloc, bytes, 0) {
        Ok(symbol) => details.set_enclosing_symbol(alloc, symbol),
        Err(WireFault::Memory) => Err(AllocError),
        Err(_) => Ok(()),
    }
}

impl Decode for SymbolInformation {
    ghost none = { no_info };

    ghost step = { info_step };

    ghost step_fault = { text_fault };

    fn empty(alloc: Global) -> SymbolInformation {
        SymbolInformation {
            symbol: OwnedText::new(alloc),
            documentation: Sequence::new(alloc),
            display_name: OwnedText::new(alloc),
            details: BoxedDetails::none(),
        }
    }

    #[tactic(auto, unfolding(crate::specs::Reading::info_step, crate::specs::Reading::parted, crate::specs::Reading::both, crate::specs::Reading::column, crate::specs::Reading::more_after))]
    fn merge_field(
        &mut self,
        alloc: Global,
        field: Field<'_>,
        start: usize,
        _end: usize,
    ) -> Result<(), WireFault> {
        match (field.number, field.payload) {
            (1, Payload::Delimited(bytes)) => take_text(alloc, &mut self.symbol, bytes, start),
            (3, Payload::Delimited(bytes)) => add_text(
                alloc,
                &mut self.documentation,
                bytes,
                start,
            ),
            (5, Payload::Varint(value)) => Ok(self.details.set_kind(alloc, number_of(value))?),
            (6, Payload::Delimited(bytes)) => take_text(
                alloc,
                &mut self.display_name,
                bytes,
                start,
            ),
            (7, Payload::Delimited(bytes)) => Ok(take_signature(alloc, &mut self.details, bytes)?),
            (8, Payload::Delimited(bytes)) => Ok(take_enclosing_symbol(
                alloc,
                &mut self.details,
                bytes,
            )?),
            _ => Ok(()),
        }
    }
}
