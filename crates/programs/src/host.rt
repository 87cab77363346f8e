//! What a program runs over.

use scip_query::Manner;
use std::alloc::Global;

/// What a program runs over besides its streams: threads, memory and files.
#[derive(Drop)]
pub struct Host<'a, R, F> {
    /// The runtime whose threads work.
    pub rt: &'a R,
    /// Where memory is taken.
    pub alloc: Global,
    /// The system of files.
    pub files: &'a F,
    /// Whether standard error is a terminal, which may show how far a run is.
    pub is_watched: bool,
    /// How commands are taken and answered.
    pub manner: Manner,
}
