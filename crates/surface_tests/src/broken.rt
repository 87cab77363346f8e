//! A writer and reader that always fails.

use scip_model::{Failed, Feed, Sink};

/// Fails at each call, and counts.
#[derive(Drop)]
pub(crate) struct Broken {
    pub(crate) failures: u64,
    pub(crate) reads: u64,
}

impl Broken {
    /// One that hasn't been called yet.
    pub(crate) fn new() -> Broken {
        Broken {
            failures: 0,
            reads: 0,
        }
    }
}

impl Sink for Broken {
    ghost use Rattle.std.specs.Prelude.{None};

    ghost contents = { λ _. None };

    ghost failures = { λ broken. broken.failures };

    fn write(&mut self, _bytes: &[u8]) -> Result<usize, Failed> {
        self.failures = self.failures.saturating_add(1);
        Err(Failed)
    }
}

impl Feed for Broken {
    ghost use Rattle.std.specs.Prelude.{None};

    ghost remaining = { λ _. None };

    ghost failures = { λ broken. broken.failures };

    ghost reads = { λ broken. broken.reads };

    ghost ends = { λ _. 0 };

    fn read(&mut self, room: &mut [u8]) -> Result<usize, Failed> {
        if !room.is_empty() {
            self.reads = self.reads.saturating_add(1);
        }
        self.failures = self.failures.saturating_add(1);
        Err(Failed)
    }
}
