//! The exit statuses that a program stops with, besides those of a run's faults. If all goes well, it is 0.

/// The command line is refused.
pub(crate) const COMMAND_LINE_STATUS: u8 = 2;

/// Nothing is found.
pub(crate) const NOTHING_STATUS: u8 = 1;

/// A file holds no index.
pub(crate) const INDEX_STATUS: u8 = 5;
