//! In which form the documents of an index are kept.

ghost use Rattle.std.specs.Prelude.{IfOk};
ghost use Rattle.scip_records.specs.declared.records.Document.{Document};

use crate::placed_document::PlacedDocument;
use scip_records::{Document, records_of};
use std::alloc::{AllocError, Global};

/// What is kept of the documents of an index. A document is handed over as soon as it is made, on the
/// thread that made it.
pub trait DocumentForm {
    /// What is kept of one.
    type Kept: Send + Drop;

    // This is kept of a document.
    ghost is_kept: { Document → Self.Kept → Type 0 };

    /// What is kept of a document, which isn't needed further.
    fn keep(
        &self,
        alloc: Global,
        document: PlacedDocument<'_, '_>,
    ) -> Result<Self::Kept, AllocError>
        ensures { IfOk result (is_kept document.entry) };
}

/// The documents themselves are kept.
#[derive(Clone, Copy, Debug)]
pub struct AsRecords;

impl DocumentForm for AsRecords {
    ghost use Rattle.std.specs.Prelude.{◌≡◌};

    type Kept = Document;

    ghost is_kept = { λ document kept. kept ≡ document };

    fn keep(
        &self,
        alloc: Global,
        document: PlacedDocument<'_, '_>,
    ) -> Result<Document, AllocError> {
        records_of(alloc, &document)
    }
}
