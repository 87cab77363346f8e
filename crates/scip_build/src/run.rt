//! What a build runs on.

use index_pool::Workers;
use std::alloc::Global;

/// What a build runs on: threads of a runtime, so many workers, and a gate whose calls
/// come round each file.
#[derive(Drop)]
pub struct Run<'a, R, G> {
    /// The runtime whose threads work.
    pub rt: &'a R,
    /// Where memory is taken.
    pub alloc: Global,
    /// How many threads work, at most.
    pub workers: Workers,
    /// What is called before and after each file.
    pub gate: &'a G,
}
