//! What the names in options name, in files that are linked.
//!
//! Options and what fields are of come from `proto_options`; what uses of types name from `proto_link`.
#![tactic(auto)]

// What is linked, and what is found.
mod facts;
mod place;
mod target;

// Declarations by their full names and their paths, and names in scopes.
mod lookup;
mod marks;
mod outer;
mod owner;
mod packages;
mod paths;
mod present;
mod sought;
mod table;

// What fields are of, and their types.
mod fields;
mod known_fields;
mod often;
mod often_used;
mod searches;
mod types;

// What names in options are looked up in, and what they name there.
mod contexts;
mod doubts;
mod extensions;
mod fronts;
mod giving;
mod items;
mod members;
mod messages;
mod naming;
mod parts;
mod said;
mod values;
mod words;

// The options of a file.
mod linker;

// The laws.
mod laws;

pub use facts::{FilesBeside, OptionFacts, fields_are_in_order};
pub use laws::{
    certain_option_names_alike, each_field_is_named, each_source_has_its_options_message,
    one_context_a_name, one_gap_an_option, one_target_a_name, one_uncertain_name_an_option,
    parts_name_alike, targets_are_reachable,
};
pub use linker::OptionLinker;
pub use place::DeclaredPlace;
pub use target::{OptionTarget, OptionTargets, UncertainName};
