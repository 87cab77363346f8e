//! An index with a text of 100,000 bytes, which no call may refuse for its size, and whose spelling
//! asks for no more memory than it needs.

use crate::calls::{decoded, is_spelled, see};
use crate::writers::written;
use scip_records::Index;
use std::alloc::{AllocError, Global};
use std::process::Abort;
use std::test::Fail;

/// How many bytes the text has.
const TEXT: usize = 100_000;

/// The heads of the document's record and of the text's, each a tag of one byte and a length of three.
const HEADS: &[u8; 8] = b"\x12\xA4\x8D\x06\x0A\xA0\x8D\x06";

/// The bytes of the index.
fn bytes_of_index(alloc: Global) -> Result<Vec<u8>, AllocError> {
    let mut bytes = Vec::with_capacity(alloc, HEADS.len() + TEXT)?;
    bytes.extend_from_slice(HEADS)?;
    for _ in 0..TEXT {
        bytes.push(b'x')?;
    }
    Ok(bytes)
}

/// Sees that a writer gets the heads and then the text at once, and that the index is spelled in place.
fn see_index(rt: &impl Abort, alloc: Global, index: &Index, bytes: &mut [u8]) {
    see(rt, is_spelled(alloc, index, bytes), "spelled");
    let size = bytes.len();
    let found = written(index, bytes);
    see(rt, found.answer == Ok(()) && found.count == size, "written");
    see(rt, found.calls == 2, "two writes");
}

/// Sees that bytes are read, and what is read is written as they.
fn see_large(rt: &impl Abort, alloc: Global, bytes: &mut [u8]) {
    match decoded(alloc, bytes) {
        Ok(index) => see_index(rt, alloc, &index, bytes),
        Err(_) => see(rt, false, "read"),
    }
}

#[test]
fn a_long_text_is_read_and_written_at_once(rt: HostRuntime) -> Result<(), Fail> {
    let mut bytes = bytes_of_index(rt.alloc())?;
    see_large(&rt, rt.alloc(), bytes.as_mut_slice());
    Ok(())
}
