//! The command line of the program `protoscip`: what it asks for, by the rules of `clap`.
#![tactic(auto)]

// What a command line asks for.
mod reading;
mod request;
mod verb;

// The programs, and the names and words that they take.
mod names;
mod program;

// Their arguments and options.
mod options;
mod values;

// How arguments and options of each kind are made.
mod arguments;

pub use options::{
    AskOptions, DumpOptions, IndexOptions, IndexRequest, JoinOptions, Limits, Links, PackageFolder,
    PagesOptions, QueryOptions, ReportOptions, STANDARD_INPUT, ShellRequest, SnapshotOptions,
    SourceList,
};
pub use reading::{request_of, request_of_process};
pub use request::Request;
pub use verb::Verb;
