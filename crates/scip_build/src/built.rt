//! What is built from a tree.

use crate::omission::Omission;
use basics::Sequence;
use scip_model::Choices;
use scip_records::Index;

/// The index of a tree, and what was chosen for each declaration of its files.
#[derive(Debug, Drop)]
pub struct Built {
    /// The index: a document for each source that is kept, in order of path.
    pub index: Index,
    /// For each file that is kept, by its number among these, the choice for each of its declarations.
    pub choices: Choices,
    /// What was left out, what has no target, and which uses may have another one, in order of file and place; nothing
    /// if faults are refused. File numbers are those of the tree.
    pub told: Sequence<Omission>,
}
