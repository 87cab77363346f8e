//! Why a token list has no syntax tree.

ghost use Rattle.std.specs.Prelude.{◌≡◌};
ghost use Rattle.proto_grammar.specs.FaultNames.{syntax_name, syntax_offset};

use std::alloc::{AllocError, AllocFailed};
use thiserror::Error;

/// Why the tokens of a text derive no tree of the grammar.
///
/// Offsets are byte offsets from the text's start, of the token that can't be at its place, or the text's length if
/// tokens are missing. As a rule it is at the first token with which what is in front of it can't be finished to a
/// file. It is proved that a fault comes only if there is no tree, and that it is the one that the tokens have.
#[derive(Clone, Copy, Debug, Drop, PartialEq, Eq, Error)]
pub enum SyntaxFault {
    /// The first token is not the word `syntax` (its offset), or the syntax statement's literals do not spell `proto3`
    /// (the first literal's offset). If all sources are accepted: the first token is the word `edition`, or the
    /// literals spell neither `proto2` nor `proto3`.
    #[error("a syntax statement that is missing or isn't accepted, at byte {0}")]
    NotProto3(usize),
    /// A `(` where a component of an option's name is expected. Never if custom options are read past.
    #[error("an option's name with parentheses, at byte {0}")]
    CustomOption(usize),
    /// A `{` where an option's value is expected. Never if custom options are read past.
    #[error("an option's value in braces, at byte {0}")]
    Aggregate(usize),
    /// The word `extend` first in a statement of the file or of a message. Never if custom options are read past.
    #[error("the word `extend`, at byte {0}")]
    Extend(usize),
    /// The word `package` of a second package statement.
    #[error("a second package statement, at byte {0}")]
    TwoPackages(usize),
    /// A literal of an import's path that holds a `\`.
    #[error("an import's path with a backslash, at byte {0}")]
    ImportEscape(usize),
    /// A message or a group is inside 64 others: its word `message`, or the group's first token.
    #[error("a message or a group inside 64 others, at byte {0}")]
    TooDeep(usize),
    /// Another token that can't be at its place.
    #[error("the grammar wants something else, at byte {0}")]
    Grammar(usize),
    /// Memory ran out.
    #[error("memory ran out")]
    Memory,
}

impl SyntaxFault {
    /// The variant's name.
    pub fn name(&self) -> &'static str
        ensures { result.now ≡ syntax_name self.now }
    {
        match self {
            SyntaxFault::NotProto3(_) => "NotProto3",
            SyntaxFault::CustomOption(_) => "CustomOption",
            SyntaxFault::Aggregate(_) => "Aggregate",
            SyntaxFault::Extend(_) => "Extend",
            SyntaxFault::TwoPackages(_) => "TwoPackages",
            SyntaxFault::ImportEscape(_) => "ImportEscape",
            SyntaxFault::TooDeep(_) => "TooDeep",
            SyntaxFault::Grammar(_) => "Grammar",
            SyntaxFault::Memory => "Memory",
        }
    }

    /// Where it is in the text.
    pub fn offset(&self) -> Option<usize>
        ensures { result ≡ syntax_offset self.now }
    {
        match *self {
            SyntaxFault::NotProto3(offset)
            | SyntaxFault::CustomOption(offset)
            | SyntaxFault::Aggregate(offset)
            | SyntaxFault::Extend(offset)
            | SyntaxFault::TwoPackages(offset)
            | SyntaxFault::ImportEscape(offset)
            | SyntaxFault::TooDeep(offset)
            | SyntaxFault::Grammar(offset) => Some(offset),
            SyntaxFault::Memory => None,
        }
    }
}

impl From<AllocError> for SyntaxFault {
    ghost use Rattle.std.specs.Prelude.{◌≡◌};
    ghost use Rattle.proto_grammar.specs.declared.fault.SyntaxFault.TheVariants.{Memory};

    ghost from_gives = { λ _ e. e ≡ Memory };

    fn from(_refused: AllocError) -> SyntaxFault {
        SyntaxFault::Memory
    }
}

impl<T: Drop> From<AllocFailed<T>> for SyntaxFault {
    ghost use Rattle.std.specs.Prelude.{◌≡◌};
    ghost use Rattle.proto_grammar.specs.declared.fault.SyntaxFault.TheVariants.{Memory};

    ghost from_gives = { λ _ e. e ≡ Memory };

    fn from(_refused: AllocFailed<T>) -> SyntaxFault {
        SyntaxFault::Memory
    }
}
