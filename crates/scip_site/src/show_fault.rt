//! Why not all documents of an index are shown.

ghost use Rattle.std.specs.Prelude.{◌≡◌};
ghost use Rattle.scip_site.specs.ShowFaults.{name_of};

use std::alloc::AllocError;
use thiserror::Error;

/// Why not all documents of an index are shown.
#[derive(Clone, Copy, Debug, Drop, PartialEq, Eq, Error)]
pub enum ShowFault {
    /// A write failed, or a file couldn't be made.
    #[error("a write that failed, or a file that can't be made")]
    Write,
    /// Memory ran out.
    #[error("memory ran out")]
    Memory,
}

impl From<AllocError> for ShowFault {
    ghost use Rattle.scip_site.specs.declared.show_fault.ShowFault.TheVariants.{Memory};

    ghost from_gives = { λ _ fault. fault ≡ Memory };

    fn from(_refused: AllocError) -> ShowFault {
        ShowFault::Memory
    }
}

impl ShowFault {
    /// The name in its line: the variant's.
    pub fn name(&self) -> &'static str
        ensures { result.now ≡ name_of self.now }
    {
        match self {
            ShowFault::Write => "Write",
            ShowFault::Memory => "Memory",
        }
    }
}
