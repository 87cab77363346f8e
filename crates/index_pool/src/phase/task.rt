//! What the workers of a phase share.

use std::alloc::Global;

/// What the workers of a phase share: the job whose inputs they run, the gate whose calls come round
/// each run, and where their memory comes from.
#[derive(Drop)]
pub struct Task<'t, J, G> {
    /// Where memory is taken.
    pub alloc: Global,
    /// Whose inputs are run.
    pub job: &'t J,
    /// What is called before and after each run.
    pub gate: &'t G,
}
