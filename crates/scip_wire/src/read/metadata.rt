//! Metadata.

ghost use Rattle.scip_wire.specs.Reading.{no_metadata, metadata_step};
ghost use Rattle.scip_wire.specs.Blamed.{metadata_step_fault};

use crate::read::field::{Field, Payload};
use crate::read::message::{Decode, take_only};
use crate::read::text::{number_of, take_text};
use crate::wire_fault::WireFault;
use basics::OwnedText;
use scip_records::Metadata;
use std::alloc::Global;

impl Decode for Metadata {
    ghost none = { no_metadata };

    ghost step = { metadata_step };

    ghost step_fault = { metadata_step_fault };

    fn empty(alloc: Global) -> Metadata {
        Metadata {
            version: 0,
            tool_info: None,
            project_root: OwnedText::new(alloc),
            text_document_encoding: 0,
        }
    }

    #[tactic(auto, unfolding(crate::specs::Blamed::metadata_step_fault, crate::specs::Blamed::tool_info_fault, crate::specs::Reading::metadata_step, crate::specs::Reading::tool_info_at, crate::specs::Reading::parted, crate::specs::Reading::both, crate::specs::Reading::column))]
    fn merge_field(
        &mut self,
        alloc: Global,
        field: Field<'_>,
        start: usize,
        end: usize,
    ) -> Result<(), WireFault> {
        match (field.number, field.payload) {
            (1, Payload::Varint(value)) => {
                self.version = number_of(value);
                Ok(())
            }
            (2, Payload::Delimited(bytes)) => take_only(
                alloc,
                &mut self.tool_info,
                bytes,
                start,
                end,
            ),
            (3, Payload::Delimited(bytes)) => take_text(
                alloc,
                &mut self.project_root,
                bytes,
                start,
            ),
            (4, Payload::Varint(value)) => {
                self.text_document_encoding = number_of(value);
                Ok(())
            }
            _ => Ok(()),
        }
    }
}
