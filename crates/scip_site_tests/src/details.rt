//! Kinds, signatures, enclosing symbols and enclosing ranges, in each form that some producer may write. The bytes are
//! worked out by hand from the Protocol Buffers encoding and `scip.proto`.

use crate::calls::{decoded, record, see, see_all};
use crate::changes::read_changes;
use crate::pieces::see_pieces;
use crate::refusals::{Refusal, first_other};
use crate::spellings::see_row;
use crate::wire_indexes::DETAILED;
use scip_records::{Index, records_of};
use scip_wire::WireFault;
use std::alloc::{AllocError, Global};
use std::process::Abort;
use std::test::Fail;

/// Bytes that what they decode to is spelled as.
static SAME: [&[u8]; 3] = [
    DETAILED,
    // The kind -1 has ten bytes.
    b"\x1A\x0B\x28\xFF\xFF\xFF\xFF\xFF\xFF\xFF\xFF\xFF\x01",
    // An enclosing range on one line has three numbers.
    b"\x12\x0F\x12\x0D\x0A\x03\x01\x08\x09\x12\x01x\x3A\x03\x01\x00\x0C",
];

/// Bytes that are read, and those that what they decode to is spelled as.
static OTHERS: [(&[u8], &[u8]); 11] = [
    // The last of two kinds, of two signatures and of two enclosing symbols wins. The second signature has no text, and
    // nothing is left of the first.
    (
        b"\x1A\x16\x42\x01a\x28\x07\x3A\x05\x2A\x03old\x28\x0B\x3A\x03\x22\x01P\x42\x01e",
        b"\x1A\x0A\x28\x0B\x3A\x03\x22\x01P\x42\x01e",
    ),
    // A signature that holds nothing is none, a last one too.
    (b"\x1A\x02\x3A\x00", b"\x1A\x00"),
    (b"\x1A\x07\x3A\x03\x2A\x01t\x3A\x00", b"\x1A\x00"),
    // A signature's other fields are skipped whole: a path that isn't UTF-8, an occurrence that can't be read.
    (
        b"\x1A\x0E\x3A\x0C\x0A\x01\xFF\x12\x02\x0B\x00\x2A\x01t\x30\x01",
        b"\x1A\x05\x3A\x03\x2A\x01t",
    ),
    // A kind of another wire type is skipped; of one above 2^32 the low 32 bits count.
    (b"\x1A\x05\x2A\x03abc", b"\x1A\x00"),
    (b"\x1A\x06\x28\x85\x80\x80\x80\x10", b"\x1A\x02\x28\x05"),
    // A kind 0 and an empty enclosing symbol aren't there.
    (b"\x1A\x04\x28\x00\x42\x00", b"\x1A\x00"),
    // An enclosing range whose numbers aren't packed, and one of which a part is.
    (
        b"\x12\x0F\x12\x0D\x0A\x03\x01\x08\x09\x38\x00\x38\x00\x38\x02\x38\x01",
        b"\x12\x0D\x12\x0B\x0A\x03\x01\x08\x09\x3A\x04\x00\x00\x02\x01",
    ),
    (
        b"\x12\x0D\x12\x0B\x0A\x03\x01\x08\x09\x3A\x02\x01\x00\x38\x0C",
        b"\x12\x0C\x12\x0A\x0A\x03\x01\x08\x09\x3A\x03\x01\x00\x0C",
    ),
    // One without numbers is none.
    (
        b"\x12\x09\x12\x07\x0A\x03\x01\x08\x09\x3A\x00",
        b"\x12\x07\x12\x05\x0A\x03\x01\x08\x09",
    ),
    // An occurrence without a range is left out, whatever its enclosing range is.
    (b"\x12\x04\x12\x02\x38\x01", b"\x12\x00"),
];

/// The same of bytes with details that can't be read: they are as if they weren't there, and what is beside them stays.
static UNREADABLE: [(&[u8], &[u8]); 17] = [
    // Enclosing ranges of two and of five numbers, and with a negative one.
    (
        b"\x12\x0B\x12\x09\x0A\x03\x01\x08\x09\x3A\x02\x01\x02",
        b"\x12\x07\x12\x05\x0A\x03\x01\x08\x09",
    ),
    (
        b"\x12\x0E\x12\x0C\x0A\x03\x01\x08\x09\x3A\x05\x01\x02\x03\x04\x05",
        b"\x12\x07\x12\x05\x0A\x03\x01\x08\x09",
    ),
    (
        b"\x12\x15\x12\x13\x0A\x03\x01\x08\x09\x3A\x0C\x01\x08\xFF\xFF\xFF\xFF\xFF\xFF\xFF\xFF\xFF\x01",
        b"\x12\x07\x12\x05\x0A\x03\x01\x08\x09",
    ),
    // A number of one that is cut off, and one that is too large.
    (
        b"\x12\x0B\x12\x09\x0A\x03\x01\x08\x09\x3A\x02\x01\x80",
        b"\x12\x07\x12\x05\x0A\x03\x01\x08\x09",
    ),
    (
        b"\x12\x13\x12\x11\x0A\x03\x01\x08\x09\x3A\x0A\xFF\xFF\xFF\xFF\xFF\xFF\xFF\xFF\xFF\x02",
        b"\x12\x07\x12\x05\x0A\x03\x01\x08\x09",
    ),
    // A record of one that can't be read, beside one that can.
    (
        b"\x12\x13\x12\x11\x0A\x03\x01\x08\x09\x12\x01x\x3A\x02\x01\x80\x3A\x03\x01\x00\x0C",
        b"\x12\x0F\x12\x0D\x0A\x03\x01\x08\x09\x12\x01x\x3A\x03\x01\x00\x0C",
    ),
    // Texts that aren't UTF-8: an enclosing symbol, a signature's language and its text.
    (b"\x1A\x03\x42\x01\xFF", b"\x1A\x00"),
    (b"\x12\x05\x1A\x03\x42\x01\xFF", b"\x12\x02\x1A\x00"),
    (b"\x1A\x05\x3A\x03\x22\x01\xFF", b"\x1A\x00"),
    (b"\x1A\x05\x3A\x03\x2A\x01\xFF", b"\x1A\x00"),
    (b"\x12\x07\x1A\x05\x3A\x03\x2A\x01\xFF", b"\x12\x02\x1A\x00"),
    // An enclosing symbol and a signature stay where a later one can't be read.
    (
        b"\x1A\x0E\x0A\x01a\x28\x07\x42\x01\xFF\x42\x01e\x42\x01\xFF",
        b"\x1A\x08\x0A\x01a\x28\x07\x42\x01e",
    ),
    (
        b"\x1A\x0A\x3A\x03\x2A\x01t\x3A\x03\x2A\x01\xFF",
        b"\x1A\x05\x3A\x03\x2A\x01t",
    ),
    // A later one counts.
    (
        b"\x1A\x0A\x3A\x03\x2A\x01\xFF\x3A\x03\x2A\x01t",
        b"\x1A\x05\x3A\x03\x2A\x01t",
    ),
    // Signatures that are no documents: a record is cut off, or is a group.
    (b"\x1A\x04\x3A\x02\x2A\x05", b"\x1A\x00"),
    (b"\x1A\x03\x3A\x01\x0B", b"\x1A\x00"),
    // The next entry stays.
    (
        b"\x1A\x03\x42\x01\xFF\x1A\x03\x0A\x01b",
        b"\x1A\x00\x1A\x03\x0A\x01b",
    ),
];

static REFUSALS: [Refusal<'static>; 6] = [
    // Details that are cut off: a kind, a signature, an enclosing symbol, an enclosing range.
    (b"\x1A\x02\x28\x80", WireFault::Truncated(2)),
    (b"\x1A\x02\x3A\x05", WireFault::Truncated(2)),
    (b"\x1A\x03\x42\x05a", WireFault::Truncated(2)),
    (
        b"\x12\x09\x12\x07\x0A\x03\x01\x08\x09\x3A\x05",
        WireFault::Truncated(9),
    ),
    // A group beside a signature, and a text beside one.
    (b"\x1A\x03\x3A\x00\x0B", WireFault::Group(4)),
    (
        b"\x1A\x08\x3A\x03\x2A\x01\xFF\x32\x01\xFF",
        WireFault::Utf8(7),
    ),
];

#[test]
fn each_detail_is_read_spelled_and_written(rt: HostRuntime) {
    for bytes in &SAME {
        see_row(&rt, rt.alloc(), bytes, bytes);
    }
    for (read, spelled) in &OTHERS {
        see_row(&rt, rt.alloc(), *read, *spelled);
    }
}

#[test]
fn details_that_cannot_be_read_are_left_out(rt: HostRuntime) {
    for (read, spelled) in &UNREADABLE {
        see_row(&rt, rt.alloc(), *read, *spelled);
    }
}

#[test]
fn the_first_fault_of_details(rt: HostRuntime) {
    see_all(&rt, first_other(rt.alloc(), &REFUSALS));
}

#[test]
fn each_change_of_one_byte_of_details(rt: HostRuntime) {
    let mut bytes = *DETAILED;
    let mut read = 0u32;
    for at in 0..43usize {
        read = read.wrapping_add(read_changes(&rt, rt.alloc(), &mut bytes, at));
    }
    see(&rt, 0 < read && read < 10965, "some are read");
    see(&rt, bytes == *DETAILED, "put back");
}

/// Sees that a copy of each document of an index, which has one, is written as its bytes.
fn see_copies(rt: &impl Abort, alloc: Global, index: &Index) -> Result<(), AllocError> {
    for document in index.documents.as_slice() {
        let mut copy = records_of(alloc, document)?;
        let records = Vec::from_array(alloc, [record(alloc, &mut copy)?])?;
        see_pieces(rt, index, records.as_slice(), DETAILED);
    }
    Ok(())
}

#[test]
fn copies_have_all_details(rt: HostRuntime) -> Result<(), Fail> {
    match decoded(rt.alloc(), DETAILED) {
        Ok(index) => see_copies(&rt, rt.alloc(), &index)?,
        Err(_) => see(&rt, false, "read"),
    }
    Ok(())
}
