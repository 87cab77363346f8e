//! What all crates may stand on: lists and texts that contracts see as lists of items, and the program's name.
//!
//! Two equal `Vec`s or `String`s may differ in capacity and address, so "the only value" couldn't be said by an
//! equation.
#![tactic(auto)]

// Lists and texts that own their memory.
mod owned_text;
mod sequence;

// Texts that something else may own.
mod kept_text;
mod place;
mod text_ref;

// The program's name and version.
pub mod tool;

pub use kept_text::KeptText;
pub use owned_text::OwnedText;
pub use sequence::Sequence;
pub use text_ref::TextRef;
