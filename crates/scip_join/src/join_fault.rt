//! Why indexes have no join.

ghost use Rattle.std.specs.Prelude.{◌≡◌};
ghost use Rattle.scip_join.specs.JoinFaults.{name_of};

use basics::OwnedText;
use std::alloc::AllocError;
use thiserror::Error;

/// Two documents with one path: the last that has it, and the last before.
#[derive(Debug, Drop)]
pub struct TwoDocuments {
    /// Their path.
    pub path: OwnedText,
    /// The number of the index that the earlier one is in, from 0.
    pub earlier: usize,
    /// The number of the index that the later one is in, from 0.
    pub later: usize,
}

/// Why indexes have no join.
#[derive(Debug, Drop, Error)]
pub enum JoinFault {
    /// No project root is asked for, and an index has another one than the first.
    #[error("an index has another project root than the first one")]
    OtherRoot,
    /// An index says another text encoding than the first.
    #[error("an index has another text encoding than the first one")]
    OtherEncoding,
    /// Two documents have one path, and none is to be replaced. It is the least path, by its bytes, that is there
    /// twice.
    #[error("two documents have one path")]
    Twice(TwoDocuments),
    /// Memory ran out.
    #[error("memory ran out")]
    Memory,
}

impl JoinFault {
    /// The variant's name.
    pub fn name(&self) -> &'static str
        ensures { result.now ≡ name_of self.now }
    {
        match self {
            JoinFault::OtherRoot => "OtherRoot",
            JoinFault::OtherEncoding => "OtherEncoding",
            JoinFault::Twice(_) => "Twice",
            JoinFault::Memory => "Memory",
        }
    }
}

impl From<AllocError> for JoinFault {
    ghost use Rattle.std.specs.Prelude.{◌≡◌};
    ghost use Rattle.scip_join.specs.declared.join_fault.JoinFault.TheVariants.{Memory};

    ghost from_gives = { λ _ e. e ≡ Memory };

    fn from(_refused: AllocError) -> JoinFault {
        JoinFault::Memory
    }
}
