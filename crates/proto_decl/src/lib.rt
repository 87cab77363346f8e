//! What the syntax tree of a source declares and uses, and the comments that document it.
#![tactic(auto)]

// From tokens and their tree to a file's facts.
mod declaring;
mod detail;
mod facts;
mod form;
mod walk;

// What a file declares, and what a callback sees of it.
mod declaration;
mod outlines;
mod view;

// Its names: simple ones, full ones, its package's, and those of scopes.
mod full_name;
mod names;
mod package;
mod scopes;

// Where declarations are.
mod surrounding;

// What it imports, and which types it uses.
mod imports;
mod uses;

// Which comments document a declaration.
mod comments;
mod layout;

// The laws.
mod laws;

pub use declaration::{Declaration, DeclarationKind, DeclarationPath, DeclarationStep};
pub use declaring::{declare, declare_in, declare_with};
pub use detail::{Detail, details_of};
pub use facts::FileFacts;
pub use form::FactForm;
pub use full_name::FullName;
pub use imports::Imported;
pub use laws::{
    declarations_stand_in_declarations, facts_are_filled, facts_in_order, facts_stand_apart,
    facts_stand_in_text, names_are_identifiers, names_are_spelled, one_comment_text,
    one_list_of_details, one_list_of_facts, prefixes_are_entities, scopes_are_known, scopes_nest,
};
pub use scopes::{ScopeName, scope_around};
pub use uses::{Component, Use};
pub use view::{DeclView, NamedDeclaration};
