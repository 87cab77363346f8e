//! The documents of an index as its bytes have them.

use scip_build::{DocumentForm, PlacedDocument};
use scip_wire::{DocumentRecord, spell_document};
use std::alloc::{AllocError, Global};

/// For each document, its record in the bytes of the index is kept.
#[derive(Clone, Copy, Debug)]
pub(crate) struct AsBytes;

impl DocumentForm for AsBytes {
    ghost use Rattle.protoscip.specs.Writing.{IsRecordOf};

    type Kept = DocumentRecord;

    ghost is_kept = { IsRecordOf };

    fn keep(
        &self,
        alloc: Global,
        mut document: PlacedDocument<'_, '_>,
    ) -> Result<DocumentRecord, AllocError> {
        spell_document(alloc, &mut document)
    }
}
