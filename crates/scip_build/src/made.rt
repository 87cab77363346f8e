//! What is made of files that were linked.

use crate::parts::Parts;
use basics::Sequence;
use proto_lex::Span;
use proto_link::{FilePlace, LinkFault, UncertainUse};
use scip_model::{Choices, UncertainPlace};

/// What is kept of a source's document, the places of its uses that name no type, in order, and those of the gaps and
/// of the uncertain names of its options.
#[derive(Drop)]
pub(crate) struct MadeDocument<T> {
    pub(crate) kept: T,
    pub(crate) unresolved: Sequence<Span>,
    pub(crate) option_gaps: Sequence<Span>,
    pub(crate) uncertain_names: Sequence<UncertainPlace>,
}

/// What is made of linked sources: the parts of an index, and what is told of them, as `Made` has it.
#[derive(Drop)]
pub(crate) struct MadeParts<T> {
    pub(crate) parts: Parts<T>,
    pub(crate) unresolved_uses: Sequence<FilePlace>,
    pub(crate) option_gaps: Sequence<FilePlace>,
    pub(crate) uncertain_names: Sequence<UncertainUse>,
}

/// What is made of files that were linked.
#[derive(Drop)]
pub(crate) struct Made<T> {
    pub(crate) parts: Parts<T>,
    /// For each file, by its number, the choice for each of its declarations.
    pub(crate) choices: Choices,
    /// The places of the uses of sources that name no type; none if such are refused.
    pub(crate) unresolved_uses: Sequence<FilePlace>,
    /// The places of the gaps of options of sources: none if such are refused, or if names in options aren't linked.
    pub(crate) option_gaps: Sequence<FilePlace>,
    /// The names in options of sources that may name another field once a file can be read; none if names in options
    /// aren't linked.
    pub(crate) uncertain_names: Sequence<UncertainUse>,
}

/// What is made of the files that are kept of a tree, and what of them is told.
#[derive(Drop)]
pub(crate) struct KeptParts<T> {
    pub(crate) made: Made<T>,
    /// The imports that name no file.
    pub(crate) missing: Vec<FilePlace>,
    /// Why uses name nothing.
    pub(crate) faults: Vec<LinkFault>,
    /// The uses that may name another type once a file can be read, and the names in options that may name another
    /// field.
    pub(crate) uncertain: Vec<UncertainUse>,
}
