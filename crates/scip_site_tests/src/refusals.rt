//! Bytes that are refused, with the fault that comes first, worked out by hand from the Protocol
//! Buffers encoding and `scip.proto`.

use crate::calls::{decoded, see, see_all};
use crate::wire_indexes::{MESSAGE, UNPACKED};
use scip_wire::{TooLarge, WireFault, WriteFault};
use std::alloc::Global;
use std::test::Fail;

/// Bytes, and the fault that they are refused with.
pub type Refusal<'a> = (&'a [u8], WireFault);

/// Whether a fault is printed as a sentence that ends with its offset, where there is memory for the texts.
fn is_printed(alloc: Global, fault: WireFault) -> bool {
    let due = format!(in alloc; ", at byte {}", fault.offset().unwrap_or(0));
    match (format!(in alloc; "{fault}"), due) {
        (Ok(text), Ok(due)) => text.as_str().ends_with(due.as_str()),
        _ => true,
    }
}

/// Whether bytes are refused with this fault.
fn is_refused(alloc: Global, bytes: &[u8], want: WireFault) -> bool {
    match decoded(alloc, bytes) {
        Ok(_) => false,
        Err(fault) => fault == want && is_printed(alloc, fault),
    }
}

/// The first row that isn't refused with its fault.
pub fn first_other(alloc: Global, refusals: &[Refusal<'_>]) -> Option<usize> {
    for (row, (bytes, want)) in refusals.iter().enumerate() {
        if !is_refused(alloc, bytes, *want) {
            return Some(row);
        }
    }
    None
}

/// The first length, above `from`, of a beginning of the bytes that isn't refused with this fault.
fn first_other_cut(alloc: Global, bytes: &[u8], from: usize, want: WireFault) -> Option<usize> {
    for (end, _) in bytes.iter().enumerate() {
        if from < end && !is_refused(alloc, &bytes[..end], want) {
            return Some(end);
        }
    }
    None
}

#[test]
fn cut_bytes_are_refused(rt: HostRuntime) {
    let first = WireFault::Truncated(0);
    see_all(&rt, first_other_cut(rt.alloc(), UNPACKED, 0, first));
    let bytes = MESSAGE.as_slice();
    let (metadata, _) = bytes.split_at(30);
    see_all(&rt, first_other_cut(rt.alloc(), metadata, 0, first));
    let second = WireFault::Truncated(30);
    see_all(&rt, first_other_cut(rt.alloc(), bytes, 30, second));
}

// The first row: a byte 0x0B is the tag of field 1 with the start of a group, which is refused at byte 0.
static REFUSALS: [Refusal<'static>; 44] = [
    // Of tags.
    (b"\x0B", WireFault::Group(0)),
    (b"\x0C", WireFault::Group(0)),
    (b"\x00", WireFault::FieldZero(0)),
    (b"\x03", WireFault::FieldZero(0)),
    (b"\x0E", WireFault::WireType(0)),
    (b"\x0F", WireFault::WireType(0)),
    (b"\x0A", WireFault::Truncated(0)),
    (b"\x80\x80\x80\x80\x10", WireFault::Varint(0)),
    (b"\x80\x80\x80\x80\x13", WireFault::Varint(0)),
    (
        b"\x08\xFF\xFF\xFF\xFF\xFF\xFF\xFF\xFF\xFF\x02",
        WireFault::Varint(0),
    ),
    // A varint of eleven bytes.
    (
        b"\x08\x80\x80\x80\x80\x80\x80\x80\x80\x80\x80\x80",
        WireFault::Varint(0),
    ),
    // The same in a document.
    (b"\x12\x01\x0B\x00", WireFault::Group(2)),
    (b"\x12\x02\x00\x00", WireFault::FieldZero(2)),
    (b"\x12\x01\x0E", WireFault::WireType(2)),
    (b"\x12\x05\x80\x80\x80\x80\x10", WireFault::Varint(2)),
    // Of messages.
    (b"\x0A\x00\x0A\x00", WireFault::Repeated(2)),
    (b"\x0A\x04\x12\x00\x12\x00", WireFault::Repeated(4)),
    (b"\x12\x06\x12\x04\x0A\x02\x01\x08", WireFault::BadRange(2)),
    (
        b"\x12\x09\x12\x07\x0A\x05\x01\x02\x03\x04\x05",
        WireFault::BadRange(2),
    ),
    (
        b"\x12\x10\x12\x0E\x0A\x0C\x01\x08\xFF\xFF\xFF\xFF\xFF\xFF\xFF\xFF\xFF\x01",
        WireFault::BadRange(2),
    ),
    // Each text of each message.
    (b"\x0A\x03\x1A\x01\xFF", WireFault::Utf8(2)),
    (b"\x0A\x05\x12\x03\x0A\x01\xFF", WireFault::Utf8(4)),
    (b"\x0A\x05\x12\x03\x12\x01\xFF", WireFault::Utf8(4)),
    (b"\x0A\x05\x12\x03\x1A\x01\xFF", WireFault::Utf8(4)),
    (b"\x12\x03\x0A\x01\xFF", WireFault::Utf8(2)),
    (b"\x12\x03\x22\x01\xFF", WireFault::Utf8(2)),
    (b"\x12\x05\x12\x03\x12\x01\xFF", WireFault::Utf8(4)),
    (b"\x12\x05\x1A\x03\x0A\x01\xFF", WireFault::Utf8(4)),
    (b"\x12\x05\x1A\x03\x1A\x01\xFF", WireFault::Utf8(4)),
    (b"\x12\x05\x1A\x03\x32\x01\xFF", WireFault::Utf8(4)),
    (b"\x1A\x03\x0A\x01\xFF", WireFault::Utf8(2)),
    (b"\x1A\x03\x1A\x01\xFF", WireFault::Utf8(2)),
    (b"\x1A\x03\x32\x01\xFF", WireFault::Utf8(2)),
    // Lengths that bytes only claim.
    (b"\x12\xFF\xFF\xFF\xFF\x07", WireFault::Truncated(0)),
    (
        b"\x12\xFF\xFF\xFF\xFF\xFF\xFF\xFF\xFF\xFF\x01",
        WireFault::Truncated(0),
    ),
    (b"\x12\x04\x12\x02\x0A\x05", WireFault::Truncated(4)),
    (b"\x12\x05\x12\x03\x0A\x01\x80", WireFault::Truncated(4)),
    (b"\x12\x06\x12\x04\x0A\x02\x01\x80", WireFault::Truncated(4)),
    // The first of two.
    // A second metadata's own length is checked first, its content not at all.
    (b"\x0A\x00\x0A\x05\x00", WireFault::Truncated(2)),
    (b"\x0A\x00\x0A\x02\x0B\x00", WireFault::Repeated(2)),
    // One of another wire type doesn't count.
    (b"\x08\x01\x0A\x00\x08\x01\x0A\x00", WireFault::Repeated(6)),
    // A range is judged once the occurrence's other records were read.
    (
        b"\x12\x08\x12\x06\x0A\x01\x01\x12\x05x",
        WireFault::Truncated(7),
    ),
    (
        b"\x12\x08\x12\x06\x0A\x01\x01\x12\x01\xFF",
        WireFault::Utf8(7),
    ),
    // A text that a later one replaces has to be UTF-8 too.
    (b"\x12\x06\x0A\x01\xFF\x0A\x01a", WireFault::Utf8(2)),
];

#[test]
fn the_first_fault_of_bytes(rt: HostRuntime) {
    see_all(&rt, first_other(rt.alloc(), &REFUSALS));
}

#[test]
fn faults_are_printed_as_sentences(rt: HostRuntime) -> Result<(), Fail> {
    let (large, cut) = (WriteFault::TooLarge, WriteFault::Write(9));
    let text = format!(in rt.alloc(); "{large} {cut}")?;
    let is_printed = text.as_str()
        == "an index has at most 2147483647 bytes a write that failed, after 9 bytes";
    see(&rt, is_printed, "writing");
    let (length, unread) = (TooLarge, WireFault::Truncated(12));
    let text = format!(in rt.alloc(); "{length} {unread}")?;
    let is_printed = text.as_str()
        == "an index has at most 2147483647 bytes a record that is cut off, at byte 12";
    see(&rt, is_printed, "a length and a record");
    Ok(())
}
