//! One index of several.
#![tactic(auto)]

// What is asked for, and why there is no join.
mod choices;
mod join_fault;

// What is kept of the indexes, and the join of them.
mod gathered;
mod joined;
mod piece;

// Documents by path and entries by symbol, of which each stands once.
mod documents;
mod externals;
mod names;

// The laws.
mod laws;

pub use choices::JoinChoices;
pub use gathered::IndexJoin;
pub use join_fault::{JoinFault, TwoDocuments};
pub use joined::JoinedIndex;
pub use laws::{
    answers_are_by_document, join_answers_the_union, joined_is_well_formed, one_join,
    shards_make_the_whole,
};
