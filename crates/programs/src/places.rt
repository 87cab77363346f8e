//! The places that a program's files go to.

/// The places that a program's files go to.
#[derive(Drop)]
pub struct Places<O, Q> {
    /// That of an index, which also makes the files of snapshots and of pages.
    pub file: O,
    /// That of a report.
    pub report: Q,
}
