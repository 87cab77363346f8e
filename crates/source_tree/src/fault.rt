//! Why files make no tree.

use crate::tree::MAX_FILES;
use thiserror::Error;

/// Why files make no tree. If several hold, the first of them is answered; Memory may come after TooMany and BadPath,
/// and before SamePath.
#[derive(Clone, Copy, Debug, Drop, PartialEq, Eq, Error)]
pub enum TreeFault {
    /// There are more than [`MAX_FILES`](crate::MAX_FILES) files, the sources and the included ones
    /// together.
    #[error("more than {max} files", max = MAX_FILES)]
    TooMany,
    /// The least number, through the sources and then the included files as they were handed in,
    /// of a file whose path isn't a good one. [`Source`](crate::Source) says which are.
    #[error("the path of file {0} isn't a good one")]
    BadPath(usize),
    /// The least number, in the list of the sources sorted by path, of a source with the path of
    /// the one before it.
    #[error("source {0}, in the order of paths, has the path of the one before it")]
    SamePath(usize),
    /// Memory was refused.
    #[error("memory ran out")]
    Memory,
}
