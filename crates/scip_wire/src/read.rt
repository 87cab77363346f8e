//! Reading an index from bytes.

ghost use Rattle.std.specs.Prelude.{◌≡◌, ◌⊎◌, IfErr, IfOk, MatchResult};
ghost use Rattle.scip_records.specs.declared.records.Index.{Index};
ghost use Rattle.scip_wire.specs.Decodes.{Decodes};
ghost use Rattle.scip_wire.specs.Gives.{Blames, Gives};
ghost use Rattle.scip_wire.specs.Reading.{index_at};
ghost use Rattle.scip_wire.specs.Blamed.{index_fault};
ghost use Rattle.scip_wire.specs.Refused.{NoIndex};

mod document;
mod field;
mod index;
mod message;
mod metadata;
mod numbers;
mod occurrence;
mod range;
mod signature;
mod symbol_information;
mod text;
mod tool_info;
mod varint;

use crate::read::message::read_message;
use crate::wire_fault::WireFault;
use scip_records::Index;
use std::alloc::Global;

/// The index that bytes decode to (Protocol Buffers encoding, with the field numbers of `scip.proto`).
///
/// Fields come in any order, unknown ones are skipped, and varints may be longer than needed. The last of a singular
/// number or text wins. Absent numbers are 0 and absent texts empty. An occurrence without range numbers is left out.
/// A detail (a signature, an enclosing symbol, an enclosing range) that can't be read is as if it weren't there.
/// Symbols aren't checked against the grammar of symbols. The time is linear in the bytes, and no size is taken from
/// a length that the bytes only claim.
///
/// Each `WireFault` but `Memory` is that of the first record, in order of bytes, at which no reading goes on. Bytes
/// that decode to an index have none (`no_fault_where_bytes_decode`), and others have one (`one_fault_of_bytes`,
/// `bytes_decode_or_have_a_fault`).
pub fn read_index(alloc: Global, bytes: &[u8]) -> Result<Index, WireFault>
    ensures found { IfOk result (λ index. Decodes bytes.now index) }
    ensures only { (index : Index) → Decodes bytes.now index → MatchResult result (λ i. i ≡ index)
        (λ e. e ≡ WireFault.Memory) }
    ensures fault { IfErr result (λ e. (e ≡ WireFault.Memory) ⊎ NoIndex bytes.now e) }
{
    read_whole(alloc, bytes)
}

/// The index whose record is all the bytes.
#[tactic(auto, unfolding(crate::specs::Reading::index_at, crate::specs::Blamed::index_fault))]
fn read_whole(alloc: Global, bytes: &[u8]) -> Result<Index, WireFault>
    ensures reads { Gives (λ i. i) result (index_at bytes.now) }
    ensures fault { Blames result (index_fault bytes.now) }
{
    read_message(alloc, bytes, bytes.len())
}
