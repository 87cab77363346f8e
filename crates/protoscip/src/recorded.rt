//! What is known of an index beside its bytes.

use basics::Sequence;
use scip_build::Omission;
use scip_model::Choices;

/// What the index of a tree was made by, and what has no part in it.
#[derive(Debug, Drop)]
pub struct Recorded {
    /// For each file that is kept, by its number among these, the choice for each of its declarations.
    pub choices: Choices,
    /// What was left out, what has no target, each by the fault for which it would be refused, and which uses may have
    /// another target, in order of file and place; nothing if faults are refused. File numbers are those of the tree.
    pub told: Sequence<Omission>,
}
