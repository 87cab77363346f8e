//! The syntax tree of a source, and the parts of its grammar that are below declarations: names, types, options,
//! reserved statements, fields, and what is before a group's `{`.
//!
//! A [`Parser`] is a place among the tokens of a text. Each of its methods reads one part: it moves past the part, or
//! gives the fault that it meets.
#![tactic(auto)]

// The tree, and why there is none.
mod fault;
mod tree;

// The parser's place among the tokens.
mod kept;
mod parser;

// What is inside statements.
mod fields;
mod names;
mod options;
mod reserved;

// Which sources are accepted, and the grammar of one file.
mod dialect;

pub use dialect::{CustomOptions, Dialect, Syntax};
pub use fault::SyntaxFault;
pub use kept::keep;
pub use parser::{Lexeme, Parser};
pub use tree::{
    Block, Enum, Field, FieldType, File, FileItem, Group, Head, Heading, Import, ImportKind, Item,
    Label, Leaf, MapField, Method, Service, TypeName,
};
