//! The traits of what bytes are written to and read from, and what whole reads and writes leave of it.
#![tactic(auto)]

// What bytes are written to, and read from.
mod failed;
mod feed;
mod sink;

// The standard library's as such; a call that a signal interrupts is made again.
mod interrupted;
mod std_streams;

// Writing the whole of a text.
mod whole_writes;

pub use failed::Failed;
pub use feed::{Feed, MAX_READS};
pub use interrupted::{read_again, write_again};
pub use sink::Sink;
pub use std_streams::Std;
pub use whole_writes::{CutOff, write_all};
