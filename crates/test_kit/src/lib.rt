//! What the crates of tests share: texts in the making, trees of files as texts, and calls that are made again after
//! want of memory.
//!
//! No program uses it. A test's assertions aren't here, since no library may end a process.
#![tactic(auto)]

mod again;
mod drafts;
mod trees;

pub use again::{text_of, tokens_of};
pub use drafts::{Draft, Made};
pub use trees::{FileText, file_text, sources_of, tree_of};
