//! What is asked for of a join.

use basics::OwnedText;

/// What is asked for of a join.
#[derive(Debug, Drop)]
pub struct JoinChoices {
    /// The project root of the join. If there is none, it is that of the first index, and each other index has to have
    /// the same.
    pub project_root: Option<OwnedText>,
    /// Whether a document takes the place of an earlier one with its path. If not, each path may come once.
    pub replace: bool,
}
