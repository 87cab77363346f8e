//! Writing an index.

ghost use Rattle.std.specs.Prelude.{◌≡◌, ◌<◌, ◌≤◌, ◌↔◌, length, None, IfSome, IfOk, IfErr, OnOk, OkIff, Ok, Err};
ghost use Rattle.streams.specs.Writers.{IsWritten, IsCutOff, writer};
ghost use Rattle.scip_wire.specs.Spelling.{spelling_of, max_index_len};
ghost use Rattle.scip_wire.specs.WellFormed.{IsWellFormed};
ghost use Rattle.scip_wire.specs.Writing.{Leaves};

use crate::spell::{Buffer, Encode};
use crate::write_fault::{TooLarge, WriteFault};
use scip_records::Index;
use std::alloc::{AllocError, Global};
use streams::{CutOff, Sink};

/// The most bytes that an index may have: the Protocol Buffers libraries' own limit.
pub const MAX_INDEX_LEN: u32 = 2147483647;

/// How many bytes the spelling of an index has. `TooLarge` if they are more than `MAX_INDEX_LEN`. Takes no memory.
pub fn encoded_len(index: &Index) -> Result<u32, TooLarge>
    ensures len { OkIff result (length (spelling_of index.now) ≤ max_index_len) (length (spelling_of index.now)) }
    ensures known { IsWellFormed index.now }
{
    let len = index.encoded_len();
    if len > u64::from(MAX_INDEX_LEN) {
        return Err(TooLarge);
    }
    Ok(len as u32)
}

/// The spelling of an index, whole in memory; `None` if it is longer than `MAX_INDEX_LEN` bytes, and that is found
/// before memory is taken. An error means that memory was refused.
pub fn spell_index(alloc: Global, index: &Index) -> Result<Option<Vec<u8>>, AllocError>
    ensures bytes { IfOk result (λ spelled. IfSome spelled (λ bytes. bytes.items ≡ spelling_of index.now)) }
    ensures too_large { (result ≡ Ok None) ↔ (max_index_len < length (spelling_of index.now)) }
    ensures known { IsWellFormed index.now }
{
    let len = match encoded_len(index) {
        Ok(len) => len,
        Err(TooLarge) => return Ok(None),
    };
    let mut bytes = Vec::with_capacity(alloc, len as usize)?;
    index.encode(&mut bytes, &mut ());
    Ok(Some(bytes))
}

/// Writes the spelling of an index that isn't too long.
fn write_spelling<W: Sink>(index: &Index, sink: &mut W) -> Result<(), CutOff>
    requires { length (spelling_of index.now) ≤ max_index_len }
    ensures ok { OnOk result (IsWritten (writer W.Sink sink) (spelling_of index.now)) }
    ensures err { IfErr result (λ e. IsCutOff (writer W.Sink sink) (spelling_of index.now) e.written) }
{
    let mut out = Buffer::new();
    index.encode(&mut out, sink);
    out.finish(sink)
}

/// Writes the spelling of an index, as it comes: at most 64 KiB of it on the stack at a time. Takes no memory.
///
/// - `TooLarge`: the spelling is longer than `MAX_INDEX_LEN` bytes. Nothing was written.
/// - `Write(n)`: the first n bytes of the spelling were written, which aren't all, and then a write failed.
pub fn write_index<W: Sink>(index: &Index, sink: &mut W) -> Result<(), WriteFault>
    ensures ok { OnOk result (IsWritten (writer W.Sink sink) (spelling_of index.now)) }
    ensures too_large { (result ≡ Err WriteFault.TooLarge) ↔ (max_index_len < length (spelling_of index.now)) }
    ensures refused { IfErr result (Leaves (writer W.Sink sink) (spelling_of index.now)) }
    ensures known { IsWellFormed index.now }
{
    encoded_len(index)?;
    write_spelling(index, sink)?;
    Ok(())
}
