//! Why a phase is refused.

use crate::lanes::LaneOwner;
use std::alloc::AllocError;
use std::fmt::Display;
use thiserror::Error;

/// Why a phase is refused. If several hold, the first of these is answered.
#[derive(Clone, Copy, Debug, Drop, PartialEq, Eq, Error)]
#[error_bound(F: Display)]
pub enum PoolFault<F> {
    /// A thread could not be started. Those that were have ended.
    #[error("a thread could not be started")]
    Spawn,
    /// Room for the lanes or for results was refused.
    #[error("memory ran out")]
    Memory,
    /// The least faulty input, with its fault. Every lesser input has an answer.
    #[error("input {0} is faulty: {1}")]
    Job(usize, F),
}

/// Why no results are gathered: room for the lanes was refused, before any start; a start was, and
/// with it comes the calling thread's own lane, which was emptied, so that no thief gets more of it; or,
/// once all threads were started, room for results was.
#[derive(Drop)]
pub(crate) enum Stop {
    Lanes,
    Spawn(LaneOwner),
    Memory,
}

impl From<AllocError> for Stop {
    ghost use Rattle.std.specs.Prelude.{◌≡◌};
    ghost use Rattle.index_pool.specs.declared.phase.fault.Stop.TheVariants.{Memory};

    ghost from_gives = { λ _ e. e ≡ Memory };

    fn from(_refused: AllocError) -> Stop {
        Stop::Memory
    }
}
