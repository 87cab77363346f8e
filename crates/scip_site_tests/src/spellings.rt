//! Indexes that are read, and spelled and written byte for byte. The bytes are worked out by hand from
//! the Protocol Buffers encoding and `scip.proto`.

use crate::calls::{decoded, is_long, is_spelled, see};
use crate::wire_indexes::{EVERYTHING, MESSAGE, NO_DOCUMENT, UNPACKED};
use crate::writers::see_written;
use scip_records::Index;
use std::alloc::Global;
use std::process::Abort;

/// Bytes that what they decode to is spelled as.
static SAME: [&[u8]; 7] = [
    b"",
    NO_DOCUMENT,
    MESSAGE,
    EVERYTHING,
    b"\x12\x0C\x12\x0A\x0A\x03\x01\x08\x09\x12\x01x\x18\x01",
    b"\x12\x0D\x12\x0B\x0A\x04\x01\x07\x02\x09\x12\x01s\x18\x02",
    // A range that ends before it starts.
    b"\x12\x0D\x0A\x01a\x12\x08\x0A\x03\x01\x09\x08\x12\x01x",
];

/// Bytes that are read, and those that what they decode to is spelled as. The first row: `UNPACKED` has 23 bytes; the
/// same index is spelled in 17, of which 15 are one document, its path `a` and in 10 bytes one occurrence: its range in
/// three bytes, its symbol `x`, its role 1.
static OTHERS: [(&[u8], &[u8]); 3] = [
    (
        UNPACKED,
        b"\x12\x0F\x0A\x01a\x12\x0A\x0A\x03\x01\x08\x09\x12\x01x\x18\x01",
    ),
    // An occurrence without a range is left out.
    (b"\x12\x02\x12\x00", b"\x12\x00"),
    // A tag that is longer than needed, and metadata that holds nothing.
    (b"\x8A\x00\x00", b"\x0A\x00"),
];

/// Sees that an index is as long as these bytes, and spelled and written as them.
fn see_index(rt: &impl Abort, alloc: Global, index: &Index, want: &[u8]) {
    see_written(rt, index, want);
    let is_so = is_long(index, want.len()) && is_spelled(alloc, index, want);
    see(rt, is_so, "written");
}

/// Sees that bytes are read, and what they decode to is written as these.
pub fn see_row(rt: &impl Abort, alloc: Global, read: &[u8], spelled: &[u8]) {
    match decoded(alloc, read) {
        Ok(index) => see_index(rt, alloc, &index, spelled),
        Err(_) => see(rt, false, "read"),
    }
}

#[test]
fn each_index_is_read_spelled_and_written(rt: HostRuntime) {
    for bytes in &SAME {
        see_row(&rt, rt.alloc(), bytes, bytes);
    }
    for (read, spelled) in &OTHERS {
        see_row(&rt, rt.alloc(), *read, *spelled);
    }
}
