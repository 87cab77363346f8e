//! Why a document has no snapshot.

use std::alloc::AllocError;
use thiserror::Error;

/// Why a document has no snapshot. If more than one is so, the first of these in this order is given, but `Memory` at
/// any time.
#[derive(Clone, Copy, Debug, Drop, PartialEq, Eq, Error)]
pub enum SnapshotFault {
    /// The index has no document with the number.
    #[error("no document has this number")]
    NoDocument,
    /// The document doesn't say what its columns count: its position encoding is none of 1, 2 and 3.
    #[error("a document that doesn't say what its columns count")]
    NoUnit,
    /// A range isn't one of the source: it begins or ends on a line that the source hasn't, or at a
    /// column that the line hasn't or that is inside a character, or it ends before it begins. The
    /// number is that of the first such occurrence, from 0, among the document's.
    #[error("a range that isn't one of the source, of occurrence {0}")]
    Misfit(usize),
    /// Memory ran out.
    #[error("memory ran out")]
    Memory,
}

impl From<AllocError> for SnapshotFault {
    ghost use Rattle.std.specs.Prelude.{◌≡◌};
    ghost use Rattle.scip_pages.specs.declared.snapshot_fault.SnapshotFault.TheVariants.{Memory};

    ghost from_gives = { λ _ fault. fault ≡ Memory };

    fn from(_refused: AllocError) -> SnapshotFault {
        SnapshotFault::Memory
    }
}
