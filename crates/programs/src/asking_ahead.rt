//! Memory that workers ask for ahead.

use index_pool::Gate;
use std::alloc::{AllocError, Global};

/// How many bytes are asked for at once.
const ROOM: usize = 1_048_576;

/// A worker asks before each file whose number this divides. It is prime, because the numbers of one worker's files
/// leave one remainder when they are divided by the number of workers.
const FILES: usize = 17;

/// A gate at which a worker asks for much memory now and then, and gives it back at once.
///
/// The C library keeps memory apart for each thread. It enlarges it by no more than what is asked for, mostly by a
/// page, in a call of the system for which all threads wait. After a large request there is room for the small ones
/// of the next files. Nothing depends on the answer.
#[derive(Drop)]
pub(crate) struct AskingAhead {
    alloc: Global,
}

impl AskingAhead {
    /// Asks here.
    pub(crate) fn new(alloc: Global) -> AskingAhead {
        AskingAhead { alloc }
    }
}

impl Gate for AskingAhead {
    type Entry = ();

    /// Asks, if it is the turn of this file.
    fn before(&self, number: usize) {
        if number % FILES == 0 {
            let _room: Result<Vec<u8>, AllocError> = Vec::with_capacity(self.alloc, ROOM);
        }
    }

    fn after(&self, _number: usize, _entry: ()) {}
}
