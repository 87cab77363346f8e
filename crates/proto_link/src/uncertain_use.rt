//! A use that may name another type once a file can be read.

use proto_visibility::FilePlace;

/// A use that may name another type once a file can be read.
#[derive(Clone, Copy, Debug, Drop, PartialEq, Eq)]
pub struct UncertainUse {
    /// The place of the whole use.
    pub place: FilePlace,
    /// The number of that file: the first of those that the use's file sees and that have no facts.
    pub behind: usize,
}
