//! What is told of the options of a source.

ghost use Rattle.std.specs.Prelude.{◌≡◌, []};

use proto_lex::Span;
use std::alloc::Global;

/// Where a name in an option stands that may name another field once a file can be read.
#[derive(Clone, Copy, Debug, Drop, PartialEq, Eq)]
pub struct UncertainPlace {
    /// The place of the whole name.
    pub span: Span,
    /// The number of that file: the first of those that the source sees and that have no facts.
    pub behind: usize,
}

/// The places of the gaps of options, and of their uncertain names.
#[derive(Drop)]
pub(crate) struct ToldOfOptions {
    pub(crate) gaps: Vec<Span>,
    pub(crate) uncertain: Vec<UncertainPlace>,
}

impl ToldOfOptions {
    /// None.
    pub(crate) fn new(alloc: Global) -> ToldOfOptions
        ensures gaps { result.gaps.items ≡ [] }
        ensures uncertain { result.uncertain.items ≡ [] }
    {
        ToldOfOptions {
            gaps: Vec::new(alloc),
            uncertain: Vec::new(alloc),
        }
    }
}
