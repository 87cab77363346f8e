//! Why a query finds nothing.

/// Why a query finds nothing.
#[derive(Clone, Copy, Debug, PartialEq, Eq)]
pub enum Miss {
    /// No document has the path.
    NoDocument,
    /// No occurrence is at the position.
    NothingThere,
}
