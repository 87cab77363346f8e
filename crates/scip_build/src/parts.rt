//! The parts of an index.

use crate::omission::Omission;
use crate::parsed_file::ParsedFile;
use basics::Sequence;
use scip_model::Choices;
use scip_records::{Metadata, SymbolInformation};

/// The parts of an index, of whose documents something is kept: one of each, in their order.
#[derive(Drop)]
pub struct Parts<T> {
    /// What the index says about itself.
    pub metadata: Option<Metadata>,
    /// What is kept of each document, in order of path.
    pub documents: Sequence<T>,
    /// What is known of symbols of included files, in order of symbol.
    pub external_symbols: Sequence<SymbolInformation>,
}

/// The parts of the index of a tree, what was chosen for each declaration of its files, and what was left
/// out.
#[derive(Drop)]
pub struct BuiltParts<'a, T> {
    /// The parts.
    pub parts: Parts<T>,
    /// For each file that is kept, by its number among these, the choice for each of its declarations.
    pub choices: Choices,
    /// What is known of the files that are kept. It is of no further use, but letting it go takes time, which
    /// a program that ends can save.
    pub parsed: Vec<ParsedFile<'a>>,
    /// What was left out, what has no target, and which uses may have another one, as `Built` has it.
    pub told: Sequence<Omission>,
}
