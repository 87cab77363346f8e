//! Patterns for the names and paths of files, with `?`, `*` and `**`.
#![tactic(auto)]

// A pattern: its pieces, and how they are spelled.
mod piece;
mod spelling;

// What it matches, and what is excluded.
mod exclusion;
mod rows;

pub use exclusion::is_excluded;
