//! How many workers and inputs a phase has.

ghost use Rattle.std.specs.Prelude.{◌≡◌, ◌<◌, ◌≤◌, SomeIff};
ghost use Rattle.index_pool.specs.Workers.{most_workers};

use std::marker::Model;

/// The most workers of a phase.
pub const MAX_WORKERS: usize = 16;

/// The most inputs of a phase.
pub const MAX_INPUTS: usize = 65536;

/// A number of workers, from 1 to `MAX_WORKERS`. Contracts see the number.
#[derive(Clone, Copy, Debug, PartialEq, Eq)]
pub struct Workers {
    count: usize,
}

impl Model for Workers {
    ghost use Rattle.std.specs.Prelude.{ℕ, ◌<◌, ◌≤◌};
    ghost use Rattle.index_pool.specs.Workers.{most_workers};

    ghost Value = { ℕ };

    ghost view = { λ w. w.count };

    ghost invariant = { λ w. (0 < w.count) × (w.count ≤ most_workers) };

    ghost inverse = { λ n. record { count = n } };
}

impl Workers {
    /// This many workers, if they are 1 to `MAX_WORKERS`.
    pub fn new(count: usize) -> Option<Workers>
        ensures { SomeIff result ((0 < count) × (count ≤ most_workers)) count }
    {
        if 0 < count && count <= MAX_WORKERS {
            Some(Workers { count })
        } else {
            None
        }
    }

    /// How many they are: 1 to `MAX_WORKERS`.
    pub fn count(self) -> usize
        ensures value { result ≡ self }
        ensures range { (0 < result) × (result ≤ most_workers) }
    {
        self.count
    }
}
