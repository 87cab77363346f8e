//! The grammar of sources as data, and the functions that read by it.
//!
//! A production is a value of `Step` (`specs/Step.antt`): it says how tokens are read, what derives, and what is
//! refused with which fault. That these three fit together is proved for all steps at once.
#![tactic(auto)]

// What is read by the grammar.
mod enums;
mod files;
mod fitting;
mod headings;
mod messages;
mod parts;
mod passed;
mod services;
mod statement;
mod syntax;

// The laws.
mod laws;

pub use files::file;
pub use laws::{
    derives_or_refused, files_among_all, first_fault, fronts_go_on, one_reading,
    statements_among_all,
};
pub use messages::MAX_MESSAGE_DEPTH;
pub use services::service;
pub use statement::{FileStatement, MessageStatement, Version, Within};
