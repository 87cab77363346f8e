//! Indexes that are written in pieces. The bytes are those of the whole.

use crate::calls::{decoded, record, see};
use crate::wire_indexes::{EVERYTHING, MESSAGE, NO_DOCUMENT, PREFIXED};
use crate::writers::pieces_written;
use scip_records::{Document, Index};
use scip_wire::DocumentRecord;
use std::alloc::{AllocError, Global};
use std::process::Abort;
use std::test::Fail;

/// The bytes of the wholes, at most 200 of each.
static WHOLES: [&[u8]; 4] = [NO_DOCUMENT, MESSAGE, EVERYTHING, PREFIXED];

/// The records of documents.
fn records_of(alloc: Global, documents: Vec<Document>) -> Result<Vec<DocumentRecord>, AllocError> {
    let mut records = Vec::new(alloc);
    for document in documents {
        let mut document = document;
        records.push(record(alloc, &mut document)?)?;
    }
    Ok(records)
}

/// Sees that a writer with room for these bytes alone gets them.
pub fn see_pieces(rt: &impl Abort, index: &Index, records: &[DocumentRecord], bytes: &[u8]) {
    let mut room = [0u8; 200];
    let (room, _) = room.split_at_mut(bytes.len().min(200));
    let found = pieces_written(index, records, room);
    see(rt, found.count == bytes.len() && *room == *bytes, "bytes");
    see(rt, found.answer == Ok(()) && found.calls == 1, "answer");
}

/// Sees that an index is written in pieces as these bytes, if these are its documents.
fn see_index(
    rt: &impl Abort,
    alloc: Global,
    index: &Index,
    documents: Vec<Document>,
    bytes: &[u8],
) -> Result<(), AllocError> {
    let records = records_of(alloc, documents)?;
    see_pieces(rt, index, records.as_slice(), bytes);
    Ok(())
}

/// Sees that the index with these bytes, which is read twice, is written in pieces as them.
fn see_row(rt: &impl Abort, alloc: Global, bytes: &[u8]) -> Result<(), AllocError> {
    match (decoded(alloc, bytes), decoded(alloc, bytes)) {
        (Ok(index), Ok(same)) => see_index(rt, alloc, &index, same.documents.into_vec(), bytes),
        _ => {
            see(rt, false, "read");
            Ok(())
        }
    }
}

#[test]
fn pieces_are_written_as_the_whole(rt: HostRuntime) -> Result<(), Fail> {
    for bytes in &WHOLES {
        see_row(&rt, rt.alloc(), bytes)?;
    }
    Ok(())
}
