//! Tool information.

ghost use Rattle.scip_wire.specs.Reading.{no_tool_info, tool_info_step};
ghost use Rattle.scip_wire.specs.Blamed.{text_fault};

use crate::read::field::{Field, Payload};
use crate::read::message::Decode;
use crate::read::text::{add_text, take_text};
use crate::wire_fault::WireFault;
use basics::{OwnedText, Sequence};
use scip_records::ToolInfo;
use std::alloc::Global;

impl Decode for ToolInfo {
    ghost none = { no_tool_info };

    ghost step = { tool_info_step };

    ghost step_fault = { text_fault };

    fn empty(alloc: Global) -> ToolInfo {
        ToolInfo {
            name: OwnedText::new(alloc),
            version: OwnedText::new(alloc),
            arguments: Sequence::new(alloc),
        }
    }

    #[tactic(auto, unfolding(crate::specs::Reading::tool_info_step, crate::specs::Reading::parted, crate::specs::Reading::both, crate::specs::Reading::column, crate::specs::Reading::more_after))]
    fn merge_field(
        &mut self,
        alloc: Global,
        field: Field<'_>,
        start: usize,
        _end: usize,
    ) -> Result<(), WireFault> {
        match (field.number, field.payload) {
            (1, Payload::Delimited(bytes)) => take_text(alloc, &mut self.name, bytes, start),
            (2, Payload::Delimited(bytes)) => take_text(alloc, &mut self.version, bytes, start),
            (3, Payload::Delimited(bytes)) => add_text(alloc, &mut self.arguments, bytes, start),
            _ => Ok(()),
        }
    }
}
