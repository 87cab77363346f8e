//! The core machine: the queues and the takings of workers, changed by events one at a time.

ghost use Rattle.std.specs.Prelude.{
  ◌≡◌,
  ◌<◌,
  ◌≤◌,
  ◌↔◌,
  [],
  IfOk,
  IfSome,
  IfNone,
  IsTrue,
  MatchResult,
  length,
  slice_index,
};
ghost use Rattle.index_pool.specs.declared.workers.TheConstants.{MAX_INPUTS};
ghost use Rattle.index_pool.specs.CoreMachine.{
  core_start,
  CoreStep,
  MayHappen,
  IsReady,
  HasNoted,
  queue_of,
  neighbour,
  after_take,
};
ghost use Rattle.index_pool.specs.declared.core_machine.Event.TheVariants.{
  Seed,
  Pop,
  PopEmpty,
  Steal,
  StealEmpty,
  StealRetry,
};

mod worker;

use crate::workers::{MAX_INPUTS, Workers};
use std::alloc::{AllocError, Global};
use std::marker::Model;
use thiserror::Error;
use worker::CoreWorker;

/// One event of the core machine.
///
/// All but `Seed` are possible only once every number is seeded, and only at a worker that there is.
/// The neighbour of the last worker is the first, and that of any other is the next.
#[derive(Clone, Copy, Debug, PartialEq, Eq)]
pub enum Event {
    /// The next number that isn't seeded, below the number of inputs, joins a queue, at its end. The numbers go round
    /// the queues.
    Seed(usize),
    /// A worker takes the first number of its queue, which isn't empty.
    Pop(usize),
    /// A worker finds its queue empty, and notes it.
    PopEmpty(usize),
    /// A worker that has noted it takes the first number of its neighbour's queue, which isn't empty.
    Steal(usize),
    /// A worker that has noted it finds its neighbour's queue empty.
    StealEmpty(usize),
    /// A worker that has noted it is to try its neighbour's queue again.
    StealRetry(usize),
}

/// The event isn't possible. Nothing has changed.
#[derive(Clone, Copy, Debug, Drop, PartialEq, Eq, Error)]
#[error("the event is not possible in this state")]
pub struct NotPossible;

/// The state of the core machine.
#[derive(Drop)]
pub struct Core {
    inputs: usize,
    seeded: usize,
    workers: Vec<CoreWorker>,
}

impl Model for Core {
    ghost use Rattle.index_pool.specs.CoreMachine.{CoreState};
    ghost use Rattle.index_pool.specs.CoreFields.{core_state, IsCoreInvariant};

    ghost Value = { CoreState };

    ghost view = { λ c. core_state c.inputs c.seeded c.workers.items };

    ghost invariant = { λ c. IsCoreInvariant c.inputs c.seeded c.workers.items };
}

impl Core {
    /// The machine for the numbers below `inputs`, which has to be at most `MAX_INPUTS`, with none of them seeded.
    ///
    /// All the memory that its steps need is taken here. An error means that it was refused.
    pub fn new(alloc: Global, inputs: usize, workers: Workers) -> Result<Core, AllocError>
        requires { inputs ≤ MAX_INPUTS }
        ensures { IfOk result (λ core. core ≡ core_start inputs workers) }
    {
        let mut all = Vec::new(alloc);
        for _ in 0..workers.count() {
            all.push(CoreWorker::new(alloc, inputs)?)?;
        }
        Ok(Core {
            inputs,
            seeded: 0,
            workers: all,
        })
    }

    /// Lets one event happen, and answers the number that a worker took by it: `None` for all but `Pop` and `Steal`.
    /// Takes no memory.
    ///
    /// `NotPossible`: the event isn't possible in this state, by what [`Event`] says of it. Then nothing has changed.
    pub fn step(&mut self, event: Event) -> Result<Option<usize>, NotPossible>
        ensures { MatchResult result (λ answer. CoreStep self.old event answer self.new)
            (λ _. (¬ MayHappen self.old event) × (self.new ≡ self.old)) }
    {
        match event {
            Event::Seed(number) => self.seed(number),
            Event::Pop(worker) => self.pop(worker),
            Event::PopEmpty(worker) => self.note_empty(worker),
            Event::Steal(worker) => self.steal(worker),
            Event::StealEmpty(worker) => self.find_neighbour_empty(worker),
            Event::StealRetry(worker) => self.retry(worker),
        }
    }

    /// Gives the next input to its worker.
    fn seed(&mut self, number: usize) -> Result<Option<usize>, NotPossible>
        ensures { MatchResult result (λ answer. CoreStep self.old (Seed number) answer self.new)
            (λ _. (¬ MayHappen self.old (Seed number)) × (self.new ≡ self.old)) }
    {
        if number != self.seeded || number >= self.inputs {
            return Err(NotPossible);
        }
        let worker = number % self.workers.len();
        self.workers[worker].queue_up(number);
        self.seeded += 1;
        Ok(None)
    }

    /// A worker takes the first of its own queue.
    fn pop(&mut self, worker: usize) -> Result<Option<usize>, NotPossible>
        ensures { MatchResult result (λ answer. CoreStep self.old (Pop worker) answer self.new)
            (λ _. (¬ MayHappen self.old (Pop worker)) × (self.new ≡ self.old)) }
    {
        if !self.is_ready(worker) {
            return Err(NotPossible);
        }
        match self.take(worker, worker) {
            Some(number) => Ok(Some(number)),
            None => Err(NotPossible),
        }
    }

    /// A worker notes that its own queue is empty.
    fn note_empty(&mut self, worker: usize) -> Result<Option<usize>, NotPossible>
        ensures { MatchResult result (λ answer. CoreStep self.old (PopEmpty worker) answer self.new)
            (λ _. (¬ MayHappen self.old (PopEmpty worker)) × (self.new ≡ self.old)) }
    {
        if !self.is_ready(worker) || !self.is_queue_empty(worker) {
            return Err(NotPossible);
        }
        self.workers[worker].note_empty();
        Ok(None)
    }

    /// A worker takes the first of its neighbour's queue.
    fn steal(&mut self, worker: usize) -> Result<Option<usize>, NotPossible>
        ensures { MatchResult result (λ answer. CoreStep self.old (Steal worker) answer self.new)
            (λ _. (¬ MayHappen self.old (Steal worker)) × (self.new ≡ self.old)) }
    {
        if !self.has_noted(worker) {
            return Err(NotPossible);
        }
        match self.take(self.neighbour(worker), worker) {
            Some(number) => Ok(Some(number)),
            None => Err(NotPossible),
        }
    }

    /// A worker finds its neighbour's queue empty.
    fn find_neighbour_empty(&self, worker: usize) -> Result<Option<usize>, NotPossible>
        ensures { MatchResult result (λ answer. CoreStep self.now (StealEmpty worker) answer self.now)
            (λ _. ¬ MayHappen self.now (StealEmpty worker)) }
    {
        if self.has_noted(worker) && self.is_queue_empty(self.neighbour(worker)) {
            Ok(None)
        } else {
            Err(NotPossible)
        }
    }

    /// A worker tries in vain to steal.
    fn retry(&self, worker: usize) -> Result<Option<usize>, NotPossible>
        ensures { MatchResult result (λ answer. CoreStep self.now (StealRetry worker) answer self.now)
            (λ _. ¬ MayHappen self.now (StealRetry worker)) }
    {
        if self.has_noted(worker) {
            Ok(None)
        } else {
            Err(NotPossible)
        }
    }
}

impl Core {
    /// Every number is seeded, and there is such a worker.
    fn is_ready(&self, worker: usize) -> bool
        ensures { IsTrue result ↔ IsReady self.now worker }
    {
        self.seeded == self.inputs && worker < self.workers.len()
    }

    /// The same, and the worker has noted that its queue is empty.
    fn has_noted(&self, worker: usize) -> bool
        ensures { IsTrue result ↔ HasNoted self.now worker }
    {
        self.is_ready(worker) && self.workers[worker].has_noted()
    }

    /// Whether a worker's queue is empty.
    fn is_queue_empty(&self, worker: usize) -> bool
        requires { IsReady self.now worker }
        ensures { IsTrue result ↔ (queue_of self.now worker ≡ []) }
    {
        self.workers[worker].is_queue_empty()
    }

    /// From whom a worker steals.
    fn neighbour(&self, worker: usize) -> usize
        requires { IsReady self.now worker }
        ensures value { result ≡ neighbour self.now worker }
        ensures ready { IsReady self.now result }
    {
        let count = self.workers.len();
        (worker + 1) % count
    }

    /// Moves the first number of one worker's queue to the end of another's takings.
    fn take(&mut self, from: usize, to: usize) -> Option<usize>
        requires { IsReady self.old from × IsReady self.old to }
        ensures none { IfNone result ((queue_of self.old from ≡ []) × (self.new ≡ self.old)) }
        ensures some { IfSome result (λ x. (0 < length (queue_of self.old from))
            × (x ≡ slice_index (queue_of self.old from) 0) × (self.new ≡ after_take self.old from to)) }
    {
        let number = self.workers[from].pop()?;
        self.workers[to].keep(number);
        Some(number)
    }
}
