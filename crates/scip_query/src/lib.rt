//! Queries over a SCIP index of any producer.
#![tactic(auto)]

// Queries over an index, and why one isn't answered.
mod miss;
mod queries;
mod query_fault;

// The tables.
mod groups;
mod innermost;
mod listed;
mod place;
mod run;
mod search;
mod site;
mod tables;

// What is asked: at a position, or about a symbol.
mod lookups;
mod nearness;
mod position;

// What else is asked: outlines, and definitions by their names.
mod entries;
mod finding;
mod named;
mod names;
mod outline;

// Commands and their answers.
mod answer;
mod answer_fault;
mod answers;
mod asked;
mod command;
mod conversation;
mod json_answer;
mod kinds;
mod manner;
mod more_answer;
mod more_command;

// The laws.
mod laws;

pub use answer::push_line;
pub use answer_fault::AnswerFault;
pub use answers::Answer;
pub use asked::asked_about;
pub use command::{Command, MAX_COMMAND_LENGTH, Question};
pub use entries::{kind_in, signature_in};
pub use finding::{Found, MAX_FOUND};
pub use json_answer::{
    entry_value, json_line_of, json_of, owned_values, push_json_line, range_value,
};
pub use kinds::kind_text;
pub use laws::{
    answers_have_their_text, commands_follow_the_grammar, more_commands_follow_the_grammar,
};
pub use lookups::{defines_listed, texts_of};
pub use manner::Manner;
pub use miss::Miss;
pub use more_command::MoreCommand;
pub use outline::Outlined;
pub use place::Place;
pub use position::{Position, compare_positions, end_of, start_of};
pub use queries::Queries;
pub use query_fault::QueryFault;
pub use site::Site;
