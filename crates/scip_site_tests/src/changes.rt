//! Each change of one byte of an index: it is read, and then written and read again as it was, or
//! refused by name.

use crate::calls::{decoded, is_spelled, see, spelled};
use crate::wire_indexes::MESSAGE;
use scip_records::Index;
use scip_wire::WireFault;
use std::alloc::Global;
use std::process::Abort;

/// Whether bytes are read, and what is read is spelled as they.
fn stay_so(alloc: Global, bytes: &[u8]) -> bool {
    match decoded(alloc, bytes) {
        Ok(index) => is_spelled(alloc, &index, bytes),
        Err(_) => false,
    }
}

/// Whether an index is the same once it was written and read again.
fn stays(alloc: Global, index: &Index) -> bool {
    match spelled(alloc, index) {
        Ok(Some(bytes)) => stay_so(alloc, &bytes),
        _ => false,
    }
}

/// What becomes of bytes.
#[derive(Clone, Copy)]
enum Fate {
    /// They are read, and what is read is the same once it was written and read again.
    Read,
    /// They are refused by name.
    Refused,
    /// Neither.
    Lost,
}

/// What becomes of bytes that are read as this index.
fn fate_of_index(alloc: Global, index: &Index) -> Fate {
    if stays(alloc, index) {
        Fate::Read
    } else {
        Fate::Lost
    }
}

/// What becomes of bytes.
fn fate_of_bytes(alloc: Global, bytes: &[u8]) -> Fate {
    match decoded(alloc, bytes) {
        Ok(index) => fate_of_index(alloc, &index),
        Err(WireFault::Memory) => Fate::Lost,
        Err(_) => Fate::Refused,
    }
}

/// Changes the byte at a place; the same change puts it back.
fn flip(bytes: &mut [u8], at: usize, change: u8) {
    if let Some(byte) = bytes.get_mut(at) {
        *byte ^= change;
    }
}

/// How many of the changes of one byte at a place are read.
pub fn read_changes(rt: &impl Abort, alloc: Global, bytes: &mut [u8], at: usize) -> u32 {
    let mut read = 0u32;
    for change in 1..=255u8 {
        flip(bytes, at, change);
        match fate_of_bytes(alloc, bytes) {
            Fate::Read => read = read.wrapping_add(1),
            Fate::Refused => {}
            Fate::Lost => see(rt, false, "read again, or refused"),
        }
        flip(bytes, at, change);
    }
    read
}

#[test]
fn each_change_of_one_byte(rt: HostRuntime) {
    let mut bytes = *MESSAGE;
    let mut read = 0u32;
    for at in 0..200usize {
        read = read.wrapping_add(read_changes(&rt, rt.alloc(), &mut bytes, at));
    }
    see(&rt, 0 < read && read < 51000, "some are read");
    see(&rt, bytes == *MESSAGE, "put back");
}
