//! The two ends of a lane.

ghost use Rattle.std.specs.Prelude.{◌≡◌, true};
ghost use Rattle.crossbeam_deque.specs.Handles.{
  view,
  IsPassOf,
  stealer_deque,
  stealer_flavor,
  worker_flavor,
  worker_view,
};

use super::rule::{LaneRule, LaneView};
use crossbeam_deque::{Pass, Stealer, Worker};
use std::alloc::Global;

pub(crate) type LaneWorker = Worker<usize, Global, LaneView, LaneRule>;

pub(crate) type LaneStealer = Stealer<usize, Global, LaneView, LaneRule>;

/// How many steals in a row may ask for a further try.
pub(crate) const MAX_TRIES: usize = 64;

/// The owner's end of a lane, from which its worker pops. It remembers whether the last pop found the
/// queue empty.
#[derive(Drop)]
pub struct LaneOwner {
    pub(crate) worker: Worker<usize, Global, LaneView, LaneRule>,
    pub(super) found_empty: bool,
    ghost fifo: { worker_flavor worker ≡ 0 },
    ghost owns: { (worker_view worker).owns ≡ true },
}

/// The thief's end of a lane, from which the worker steals whose neighbour the owner is. It remembers
/// how many tries are left to it: 64 at first and after each number, one fewer after a steal that asks
/// for a further try, and none once the queue was found empty.
#[derive(Drop)]
pub struct LaneThief {
    pub(crate) stealer: Stealer<usize, Global, LaneView, LaneRule>,
    pub(crate) pass: Pass<usize, LaneView>,
    pub(super) tries: usize,
    ghost fifo: { stealer_flavor stealer ≡ 0 },
    ghost seated: { IsPassOf (stealer_deque stealer) pass },
    ghost steals: { (view pass).steals ≡ true },
}
