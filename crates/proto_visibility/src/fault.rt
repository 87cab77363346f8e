//! Why files can't be linked.

use crate::files::FilePlace;
use std::alloc::AllocError;
use thiserror::Error;

/// Why files can't be linked, or why a use of a type names none. If several of the first three hold, the first of
/// them is answered.
#[derive(Clone, Copy, Debug, Drop, PartialEq, Eq, Error)]
pub enum LinkFault {
    /// The least number of a file without facts, among the sources and the included files that some source reaches.
    #[error("file {0} has no facts")]
    Broken(usize),
    /// The places of two declarations, or of a declaration and a component of a package statement, that give one full
    /// name, in these files: among these pairs, that with the least second place, and then the least first. Places
    /// are ordered by file number, then start.
    #[error("one full name is given twice, {0} and {1}")]
    Duplicate(FilePlace, FilePlace),
    /// The first import, by its literal's place, of a path that no file has: any import of a source
    /// counts, and the public ones of an included file that some source reaches.
    #[error("an import of a file that isn't there, {0}")]
    MissingImport(FilePlace),
    /// A use that names no type, by the place of the whole use: from its leading dot, or its first component if it
    /// has none, to its last one. `proto_link` and the crates above answer it.
    #[error("a use that names no type, {0}")]
    Unresolved(FilePlace),
    /// A use of a type that several of the files declare which are seen, by the place of the whole use. It never comes
    /// if no two files may give one name. `proto_link` and the crates above answer it.
    #[error("a use that names several types, {0}")]
    Ambiguous(FilePlace),
    /// Memory was refused.
    #[error("memory ran out")]
    Memory,
}

impl From<AllocError> for LinkFault {
    ghost use Rattle.std.specs.Prelude.{◌≡◌};
    ghost use Rattle.proto_visibility.specs.declared.fault.LinkFault.TheVariants.{Memory};

    ghost from_gives = { λ _ e. e ≡ Memory };

    fn from(_refused: AllocError) -> LinkFault {
        LinkFault::Memory
    }
}
