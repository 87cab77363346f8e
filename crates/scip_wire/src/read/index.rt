//! Indexes.

ghost use Rattle.scip_wire.specs.Reading.{no_index, index_step};
ghost use Rattle.scip_wire.specs.Blamed.{index_step_fault};

use crate::read::document::add_document;
use crate::read::field::{Field, Payload};
use crate::read::message::{Decode, add_message, take_only};
use crate::wire_fault::WireFault;
use basics::Sequence;
use scip_records::Index;
use std::alloc::Global;

impl Decode for Index {
    ghost none = { no_index };

    ghost step = { index_step };

    ghost step_fault = { index_step_fault };

    fn empty(alloc: Global) -> Index {
        Index {
            metadata: None,
            documents: Sequence::new(alloc),
            external_symbols: Sequence::new(alloc),
        }
    }

    #[tactic(auto, unfolding(crate::specs::Blamed::index_step_fault, crate::specs::Blamed::metadata_fault, crate::specs::Blamed::document_fault, crate::specs::Blamed::info_fault, crate::specs::Reading::index_step, crate::specs::Reading::metadata_at, crate::specs::Reading::document_at, crate::specs::Reading::info_at, crate::specs::Reading::parted, crate::specs::Reading::both, crate::specs::Reading::column, crate::specs::Reading::more_after))]
    fn merge_field(
        &mut self,
        alloc: Global,
        field: Field<'_>,
        start: usize,
        end: usize,
    ) -> Result<(), WireFault> {
        match (field.number, field.payload) {
            (1, Payload::Delimited(bytes)) => take_only(
                alloc,
                &mut self.metadata,
                bytes,
                start,
                end,
            ),
            (2, Payload::Delimited(bytes)) => add_document(alloc, &mut self.documents, bytes, end),
            (3, Payload::Delimited(bytes)) => add_message(
                alloc,
                &mut self.external_symbols,
                bytes,
                end,
            ),
            _ => Ok(()),
        }
    }
}
