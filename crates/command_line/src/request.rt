//! What a command line asks for.

use crate::options::{
    AskOptions, DumpOptions, IndexRequest, JoinOptions, PagesOptions, QueryOptions, ShellRequest,
    SnapshotOptions,
};

/// What a command line asks for.
#[derive(Debug, Drop)]
pub enum Request {
    /// The program `dump`.
    Dump(DumpOptions),
    /// The program `query`, about the index that a file holds.
    Query(QueryOptions),
    /// What is asked in one line about the index that files hold.
    Ask(AskOptions),
    /// The program `snapshot`.
    Snapshot(SnapshotOptions),
    /// The program `pages`.
    Pages(PagesOptions),
    /// The program `join`.
    Join(JoinOptions),
    /// The program `index`.
    Index(IndexRequest),
    /// The program `shell`, about the index of the tree that the options tell.
    Shell(ShellRequest),
    /// A text for standard output: help or the version.
    Print(String),
    /// A text for standard error: what is wrong with the command line.
    Refuse(String),
}
