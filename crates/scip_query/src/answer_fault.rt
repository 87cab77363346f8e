//! Why a command isn't answered.

ghost use Rattle.std.specs.Prelude.{◌≡◌};
ghost use Rattle.scip_query.specs.AnswerFaults.{name_of};

use std::alloc::AllocError;
use thiserror::Error;

/// Why commands aren't answered. The answers before stay.
#[derive(Clone, Copy, Debug, Drop, PartialEq, Eq, Error)]
pub enum AnswerFault {
    /// A read failed, or `MAX_READS` reads gave no end. The lines that had ended are answered.
    #[error("commands that can't be read to their end")]
    Read,
    /// A write failed after so many bytes of the call's answers, counted from the first. (The count stops at the last
    /// `u64`.)
    #[error("a write that failed, after {0} bytes")]
    Write(u64),
    /// Memory ran out. Nothing of that command's answer was written.
    #[error("memory ran out")]
    Memory,
}

impl AnswerFault {
    /// The variant's name.
    pub fn name(&self) -> &'static str
        ensures { result.now ≡ name_of self.now }
    {
        match self {
            AnswerFault::Read => "Read",
            AnswerFault::Write(_) => "Write",
            AnswerFault::Memory => "Memory",
        }
    }
}

impl From<AllocError> for AnswerFault {
    ghost use Rattle.std.specs.Prelude.{◌≡◌};
    ghost use Rattle.scip_query.specs.declared.answer_fault.AnswerFault.TheVariants.{Memory};

    ghost from_gives = { λ _ fault. fault ≡ Memory };

    fn from(_refused: AllocError) -> AnswerFault {
        AnswerFault::Memory
    }
}
