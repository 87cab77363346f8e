//! The syntax tree of a source: which tokens have one, and which.
#![tactic(auto)]

// From the tokens of a text to its tree.
mod parsing;

// The laws.
mod laws;

pub use laws::{
    derives_or_has_a_fault, names_have_components, no_fault_where_it_derives, one_syntax_fault,
    one_tree, proto3_among_all, proto3_without_extend_among_all, skipped_options_are_no_fault,
    spans_in_order, spans_of_tokens,
};
pub use parsing::{parse, parse_with};
pub use proto_grammar::{
    Block, CustomOptions, Dialect, Enum, Field, FieldType, File, FileItem, Group, Head, Heading,
    Import, ImportKind, Item, Label, Leaf, MapField, Method, Service, Syntax, SyntaxFault,
    TypeName,
};
pub use proto_steps::MAX_MESSAGE_DEPTH;
