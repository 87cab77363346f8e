//! Calls of the encoding that are made again after want of memory, where the second answer counts.

use scip_records::{DocumentParts, Index};
use scip_wire::{DocumentRecord, WireFault, encoded_len, read_index, spell_document, spell_index};
use std::alloc::{AllocError, Global};
use std::process::Abort;

/// Sees that what a case says holds. (A formatted assertion is proved once, here.)
pub fn see(rt: &impl Abort, holds: bool, case: &str) {
    assert!(rt; holds, "{case}");
}

/// Sees that no row of a table went wrong; else it names the first that did, from 0.
pub fn see_all(rt: &impl Abort, wrong: Option<usize>) {
    assert!(rt; wrong.is_none(), "row {wrong:?}");
}

/// The index that the bytes decode to. They are read again after `Memory`.
pub fn decoded(alloc: Global, bytes: &[u8]) -> Result<Index, WireFault> {
    match read_index(alloc, bytes) {
        Err(WireFault::Memory) => read_index(alloc, bytes),
        answer => answer,
    }
}

/// The bytes of the index, if they aren't too many. They are spelled again after want of memory.
pub fn spelled(alloc: Global, index: &Index) -> Result<Option<Vec<u8>>, AllocError> {
    match spell_index(alloc, index) {
        Err(AllocError) => spell_index(alloc, index),
        answer => answer,
    }
}

/// The record of a document. It is spelled again after want of memory.
pub fn record<D: DocumentParts>(
    alloc: Global,
    document: &mut D,
) -> Result<DocumentRecord, AllocError> {
    match spell_document(alloc, document) {
        Err(AllocError) => spell_document(alloc, document),
        answer => answer,
    }
}

/// Whether an index is spelled as these bytes, without more memory than it needs.
pub fn is_spelled(alloc: Global, index: &Index, want: &[u8]) -> bool {
    match spelled(alloc, index) {
        Ok(Some(bytes)) => *bytes == *want && bytes.capacity() <= want.len().saturating_mul(2),
        _ => false,
    }
}

/// Whether an index has so many bytes.
pub fn is_long(index: &Index, size: usize) -> bool {
    match encoded_len(index) {
        Ok(length) => length as usize == size,
        Err(_) => false,
    }
}
