//! What an index has and lacks: how much, record by record, and what is wrong with it.
#![tactic(auto)]

// How much.
mod counts;

// Record by record.
mod record_lines;
mod record_values;
mod records;

// What is wrong.
mod flaw_forms;
mod flaws;

// The name nearest to a text.
mod near;

pub use counts::{Counts, counts_of, counts_text};
pub use flaw_forms::flaws_text;
pub use flaws::{Flaw, Flawed, flaws_of};
pub use near::nearest_name;
pub use records::{document_text, index_text};
