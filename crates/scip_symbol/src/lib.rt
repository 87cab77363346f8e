//! Symbols: their grammar (the comment of `scip.proto`'s `Symbol`), printed and read.
#![tactic(auto)]

// Symbols, and what they name.
mod entity;
mod package;
mod symbol;

// Symbols as text, and out of it.
mod entity_text;
mod fault;
mod printer;
mod reader;

// The laws.
mod laws;

pub use entity::{SCHEME, file_symbol, package_symbol, symbol_of};
pub use entity_text::{
    print_below, print_declaration, print_declaration_in_file, print_file, print_package,
    print_package_named,
};
pub use fault::SymbolFault;
pub use laws::{
    files_are_without_clash, symbols_have_spellings, symbols_name_one_entity,
    text_spells_one_symbol,
};
pub use package::{BadPart, PackageId};
pub use printer::print;
pub use reader::read;
pub use symbol::{Descriptor, GlobalSymbol, Suffix, Symbol, SymbolParts};
