//! Why the files below roots make no tree.

ghost use Rattle.std.specs.Prelude.{◌≡◌};
ghost use Rattle.source_files.specs.LoadFaults.{name_of};

use std::alloc::AllocError;
use thiserror::Error;

/// Why there is no tree of the sources below a root and the files below included roots.
#[derive(Debug, Drop, Error)]
pub enum LoadFault {
    /// A root that can't be listed, and this is the root as it was given; or a file below one that
    /// can't be read, and this is its path below its root. The first of them, root by root.
    #[error("{0} can't be read")]
    Unreadable(String),
    /// There are more files than a tree has.
    #[error("there are more files than a tree has")]
    TooMany,
    /// The path of the first file whose path isn't a good one.
    #[error("{0} isn't a good path")]
    BadPath(String),
    /// The path of two sources: the first of such paths.
    #[error("two sources have the path {0}")]
    SamePath(String),
    /// Memory ran out.
    #[error("memory ran out")]
    Memory,
}

impl From<AllocError> for LoadFault {
    ghost use Rattle.source_files.specs.declared.load_fault.LoadFault.TheVariants.{Memory};

    ghost from_gives = { λ _ e. e ≡ Memory };

    fn from(_refused: AllocError) -> LoadFault {
        LoadFault::Memory
    }
}

impl LoadFault {
    /// The name in its line: the variant's.
    pub fn name(&self) -> &'static str
        ensures { result.now ≡ name_of self.now }
    {
        match self {
            LoadFault::Unreadable(_) => "Unreadable",
            LoadFault::TooMany => "TooMany",
            LoadFault::BadPath(_) => "BadPath",
            LoadFault::SamePath(_) => "SamePath",
            LoadFault::Memory => "Memory",
        }
    }
}
