//! The options of a source: what each is an option of, and the names in it, which the linker looks up.
//!
//! A tree has no options. Where they are asked for, the tokens are read a second time.
//! Each file that derives has its options: what is no part of a message of the text format is read past in braces.
#![tactic(auto)]

// What an option is, and what it is an option of.
mod elements;
mod names;
mod options;
mod scope;

// What fields are of, and their types.
mod fields;
// What messages say beside their fields.
mod escapes;
mod messages;

// What is read token by token.
mod cursor;
mod passing;

// What is inside options.
mod aggregates;
mod field_names;
mod odd;
mod settings;

// Where options are in a file.
mod reading;
mod statements;
mod walk;

// The laws.
mod laws;

pub use aggregates::MAX_AGGREGATE_DEPTH;
pub use elements::Element;
pub use fields::{FieldFact, FieldKind, fields_of};
pub use laws::{each_file_has_options, fields_stand_in_order, one_list_of_options};
pub use messages::{MessageClause, MessageFact, messages_of};
pub use names::{OptionName, OptionRole, Setting};
pub use options::FileOption;
pub use reading::options_of;
pub use scope::OptionScope;
