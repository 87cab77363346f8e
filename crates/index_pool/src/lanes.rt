//! Lanes: the deque of one worker, from which its owner pops and its neighbour steals.

ghost use Rattle.std.specs.Prelude.{
  ℕ,
  List,
  ◌≡◌,
  ◌+◌,
  ◌<◌,
  ◌≤◌,
  ◌%◌,
  ◌/◌,
  ◌⊎◌,
  true,
  false,
  [],
  ◌∷◌,
  ◌++◌,
  Contains,
  IfOk,
  IfSome,
  IfNone,
  length,
};
ghost use Rattle.std.specs.List.Sorted.{IsPermutation};
ghost use Rattle.index_pool.specs.Lane.{
  lane_numbers,
  lane_view,
  more_given,
  more_popped,
  more_stolen,
  OwnerFinds,
  ThiefFinds,
};
ghost use Rattle.crossbeam_deque.specs.Handles.{worker_capacity, worker_flavor, worker_index, worker_view, SameWorker};
ghost use Rattle.index_pool.specs.StolenCases.{IfGot, IfEmpty, IfRetry, IfNotGot};
ghost use Rattle.index_pool.specs.Ticket.{number_of};
ghost use Rattle.index_pool.specs.LaneEnds.{
  owner_view,
  owner_deque,
  found_empty,
  thief_view,
  thief_deque,
  known_gone,
  tries_left,
  tries_after,
};

mod ends;
mod rule;
mod stolen;
mod ticket;

use crate::workers::{MAX_INPUTS, Workers};
use crossbeam_deque::Steal;
use ends::{LaneWorker, MAX_TRIES};
pub use ends::{LaneOwner, LaneThief};
use rule::{Ends, Pops, Pushes, Steals};
use std::alloc::{AllocError, Global};
pub use stolen::Stolen;
pub use ticket::Ticket;

/// The lane of one worker, with its inputs pushed: of the numbers below `inputs` those that leave
/// the worker's number when they are divided by the number of workers, in rising order.
///
/// `inputs` has to be at most `MAX_INPUTS`, and `worker`, counted from 0, below the number of workers. An error means
/// that memory was refused.
///
/// The owner pops, and the thief steals, from any two threads. With one worker both are its own.
pub fn lane(
    alloc: Global,
    inputs: usize,
    workers: Workers,
    worker: usize,
) -> Result<(LaneOwner, LaneThief), AllocError>
    requires { (inputs ≤ MAX_INPUTS) × (worker < workers) }
    ensures owner { IfOk result (λ ends. owner_view ends.0 ≡ lane_view true false (lane_numbers inputs workers worker)
        [] []) }
    ensures thief { IfOk result (λ ends. thief_view ends.1 ≡ lane_view false true (lane_numbers inputs workers worker)
        [] []) }
    ensures deque { IfOk result (λ ends. thief_deque ends.1 ≡ owner_deque ends.0) }
    ensures tries { IfOk result (λ ends. tries_left ends.1 ≡ 64) }
    ensures unfound { IfOk result (λ ends. found_empty ends.0 ≡ false) }
{
    let mut deque = filled(alloc, inputs, workers, worker)?;
    let stealer = deque.stealer()?;
    let pass = deque.another::<Ends>();
    let owner = LaneOwner {
        worker: deque,
        found_empty: false,
    };
    let thief = LaneThief {
        stealer,
        pass,
        tries: MAX_TRIES,
    };
    Ok((owner, thief))
}

/// A deque with the lane's numbers, and room for them all from the start.
fn filled(
    alloc: Global,
    inputs: usize,
    workers: Workers,
    worker: usize,
) -> Result<LaneWorker, AllocError>
    requires { (inputs ≤ MAX_INPUTS) × (worker < workers) }
    ensures fifo { IfOk result (λ w. worker_flavor w ≡ 0) }
    ensures view { IfOk result (λ w. worker_view w ≡ lane_view true true (lane_numbers inputs workers worker) [] []) }
{
    let count = workers.count();
    let mut deque = LaneWorker::fifo_as(alloc, inputs / count + 1)?;
    for number in 0..inputs {
        if number % count == worker {
            give(&mut deque, number);
        }
    }
    Ok(deque)
}

/// Pushes a number if there is room.
fn give(deque: &mut LaneWorker, number: usize)
    requires both { ((worker_view deque.old).owns ≡ true) × ((worker_view deque.old).steals ≡ true) }
    requires room { worker_index deque.old < worker_capacity deque.old }
    ensures same { SameWorker deque.old deque.new × (worker_index deque.new ≡ worker_index deque.old + 1) }
    ensures view { worker_view deque.new ≡ more_given (worker_view deque.old) (number ∷ []) }
{
    match deque.push_as::<Pushes>(number) {
        Ok(()) => {}
        Err(_) => unreachable!(),
    }
}

impl LaneOwner {
    /// The ticket for the first number of the lane's queue, or None where the queue was empty at one moment.
    ///
    /// Once the thief's end was taken in, None tells that each of the lane's numbers was popped or
    /// stolen, once.
    pub fn pop(&mut self) -> Option<Ticket>
        ensures some { IfSome result (λ t. owner_view self.new ≡ more_popped (owner_view self.old) (number_of t ∷ [])) }
        ensures first { IfSome result (λ t. (rest : List ℕ) × OwnerFinds (owner_view self.old) (number_of t ∷ rest)) }
        ensures empty { IfNone result (OwnerFinds (owner_view self.old) []) }
        ensures one_given { IfSome result (λ t. Contains (owner_view self.old).given (number_of t)
            × (length (owner_view self.old).popped < length (owner_view self.old).given)) }
        ensures none { IfNone result (owner_view self.new ≡ owner_view self.old) }
        ensures whole { IfNone result ((owner_view self.old).steals ≡ true → IsPermutation (owner_view self.old).given
            ((owner_view self.old).popped ++ (owner_view self.old).stolen)) }
        ensures found { IfNone result (found_empty self.new ≡ true) }
        ensures unfound { IfSome result (λ _. found_empty self.new ≡ false) }
        ensures same { owner_deque self.new ≡ owner_deque self.old }
    {
        match self.worker.pop_as::<Pops>() {
            Some(number) => {
                self.found_empty = false;
                Some(Ticket { number })
            }
            None => {
                self.found_empty = true;
                None
            }
        }
    }

    /// Takes in the thief of the same lane, with what it stole.
    pub fn rejoin(&mut self, thief: LaneThief)
        requires { thief_deque thief ≡ owner_deque self.old }
        ensures view { owner_view self.new ≡ lane_view true true (owner_view self.old).given
            (owner_view self.old).popped (thief_view thief).stolen }
        ensures found { found_empty self.new ≡ found_empty self.old }
        ensures same { owner_deque self.new ≡ owner_deque self.old }
    {
        let LaneThief { stealer, pass, .. } = thief;
        drop(stealer);
        self.worker.absorb::<Ends>(pass);
    }
}

impl LaneThief {
    /// Tries to take the first number of the lane's queue.
    ///
    /// `Empty` comes only of an empty queue. `Retry` comes only if a number left the queue since the
    /// thief last looked, or if it was empty.
    pub fn steal(&mut self) -> Stolen
        ensures got { IfGot result (λ t. thief_view self.new ≡ more_stolen (thief_view self.old) (number_of t ∷ [])) }
        ensures first { IfGot result (λ t. (rest : List ℕ) × ThiefFinds (thief_view self.old) (number_of t ∷ rest)) }
        ensures one_given { IfGot result (λ t. Contains (thief_view self.old).given (number_of t)
            × (length (thief_view self.old).stolen < length (thief_view self.old).given)) }
        ensures none { IfNotGot result (thief_view self.new ≡ thief_view self.old) }
        ensures empty { IfEmpty result (ThiefFinds (thief_view self.old) []) }
        ensures retry { IfRetry result ((known_gone self.old < known_gone self.new)
            ⊎ ThiefFinds (thief_view self.old) []) }
        ensures tries { tries_left self.new ≡ tries_after result (tries_left self.old) }
        ensures same { thief_deque self.new ≡ thief_deque self.old }
    {
        match self.stealer.steal_as::<Steals>(&mut self.pass) {
            Steal::Success(number) => {
                self.tries = MAX_TRIES;
                Stolen::Got(Ticket { number })
            }
            Steal::Empty => {
                self.tries = 0;
                Stolen::Empty
            }
            Steal::Retry => {
                self.tries = self.tries.saturating_sub(1);
                Stolen::Retry
            }
        }
    }

    /// How many tries are left.
    pub(crate) fn tries(&self) -> usize
        ensures { result ≡ tries_left self.now }
    {
        self.tries
    }
}
