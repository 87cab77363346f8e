//! One worker of the core machine.

ghost use Rattle.std.specs.Prelude.{◌≡◌, ◌<◌, ◌↔◌, [], IfOk, IfSome, IfNone, IsTrue, length, slice_index};

use std::alloc::{AllocError, Global};
use std::collections::VecDeque;

/// The queue, front first; the numbers that the worker took, in order; and whether it has noted that
/// its queue is empty.
#[derive(Drop)]
pub(crate) struct CoreWorker {
    queue: VecDeque<usize>,
    takings: Vec<usize>,
    found_empty: bool,
}

impl CoreWorker {
    ghost use Rattle.index_pool.specs.CoreMachine.{idle, queued, unqueued, taken, noted};
    ghost use Rattle.index_pool.specs.CoreFields.{worker_state, rooms, HasRoom};

    /// A worker with nothing yet, and room for this many numbers in each of its lists.
    pub(crate) fn new(alloc: Global, room: usize) -> Result<CoreWorker, AllocError>
        ensures { IfOk result (λ w. (worker_state w ≡ idle) × HasRoom room w) }
    {
        Ok(CoreWorker {
            queue: VecDeque::with_capacity(alloc, room)?,
            takings: Vec::with_capacity(alloc, room)?,
            found_empty: false,
        })
    }

    /// Whether its queue is empty.
    pub(crate) fn is_queue_empty(&self) -> bool
        ensures { IsTrue result ↔ ((worker_state self.now).queue ≡ []) }
    {
        self.queue.is_empty()
    }

    /// Whether it has noted so.
    pub(crate) fn has_noted(&self) -> bool
        ensures { result ≡ (worker_state self.now).found_empty }
    {
        self.found_empty
    }

    /// Puts a number at the end of the queue.
    pub(crate) fn queue_up(&mut self, number: usize)
        requires { length (worker_state self.old).queue < (rooms self.old).0 }
        ensures state { worker_state self.new ≡ queued (worker_state self.old) number }
        ensures rooms { rooms self.new ≡ rooms self.old }
    {
        self.queue.push_back_reserved(number);
    }

    /// Takes the first number off the queue.
    pub(crate) fn pop(&mut self) -> Option<usize>
        ensures none { IfNone result (((worker_state self.old).queue ≡ [])
            × (worker_state self.new ≡ worker_state self.old)) }
        ensures some { IfSome result (λ x. (0 < length (worker_state self.old).queue)
            × (x ≡ slice_index (worker_state self.old).queue 0) × (worker_state self.new
            ≡ unqueued (worker_state self.old))) }
        ensures rooms { rooms self.new ≡ rooms self.old }
    {
        self.queue.pop_front()
    }

    /// Puts a number at the end of the takings.
    pub(crate) fn keep(&mut self, number: usize)
        requires { length (worker_state self.old).takings < (rooms self.old).1 }
        ensures state { worker_state self.new ≡ taken (worker_state self.old) number }
        ensures rooms { rooms self.new ≡ rooms self.old }
    {
        self.takings.push_reserved(number);
    }

    /// Notes that its queue is empty.
    pub(crate) fn note_empty(&mut self)
        ensures state { worker_state self.new ≡ noted (worker_state self.old) }
        ensures rooms { rooms self.new ≡ rooms self.old }
    {
        self.found_empty = true;
    }
}
