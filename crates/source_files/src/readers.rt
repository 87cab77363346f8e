//! What files are read on.

use index_pool::Workers;
use std::alloc::Global;

/// What files are read on: threads of a runtime, so many workers, a gate whose calls come round each folder and each
/// file, and the system of files; and whether what it can't read is left out.
#[derive(Drop)]
pub struct Readers<'a, R, G, F> {
    /// The runtime whose threads read.
    pub rt: &'a R,
    /// Where memory is taken.
    pub alloc: Global,
    /// How many threads read, at most.
    pub workers: Workers,
    /// What is called before and after each folder and each file.
    pub gate: &'a G,
    /// The system of files.
    pub files: &'a F,
    /// Whether what can't be read below a root is left out; else it is a fault.
    pub leaves_out: bool,
}
