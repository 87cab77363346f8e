//! Why a text is refused.

ghost use Rattle.std.specs.Prelude.{◌≡◌};
ghost use Rattle.proto_lex.specs.FaultNames.{lex_name, lex_offset};

use crate::text::MAX_TEXT_LENGTH;
use std::alloc::{AllocError, AllocFailed};
use thiserror::Error;

/// Why bytes are no text, or a text has no lexing.
///
/// Offsets are byte offsets from the text's start.
#[derive(Clone, Copy, Debug, Drop, PartialEq, Eq, Error)]
pub enum LexFault {
    /// The bytes are more than `MAX_TEXT_LENGTH`.
    #[error("more than {max} bytes", max = MAX_TEXT_LENGTH)]
    TooLong,
    /// The bytes are not UTF-8: the first byte of the first sequence that is ill-formed.
    #[error("bytes that aren't UTF-8, at byte {0}")]
    NotUtf8(usize),
    /// A character that no token, blank or comment has at its place, or a NUL inside a string.
    #[error("a character that can't be here, at byte {0}")]
    BadByte(usize),
    /// A string that a `\n` or the text's end cuts off: its opening quote.
    #[error("a string without an end on its line, at byte {0}")]
    OpenString(usize),
    /// A block comment without its `*/`: its `/*`.
    #[error("a comment without its `*/`, at byte {0}")]
    OpenComment(usize),
    /// A `\` in a string that begins no escape.
    #[error("a backslash that begins no escape, at byte {0}")]
    BadEscape(usize),
    /// A number's run that has none of the forms of numbers: its start.
    #[error("letters and digits that are no number, at byte {0}")]
    BadNumber(usize),
    /// Memory ran out.
    #[error("memory ran out")]
    Memory,
}

impl LexFault {
    /// The variant's name.
    pub fn name(&self) -> &'static str
        ensures { result.now ≡ lex_name self.now }
    {
        match self {
            LexFault::TooLong => "TooLong",
            LexFault::NotUtf8(_) => "NotUtf8",
            LexFault::BadByte(_) => "BadByte",
            LexFault::OpenString(_) => "OpenString",
            LexFault::OpenComment(_) => "OpenComment",
            LexFault::BadEscape(_) => "BadEscape",
            LexFault::BadNumber(_) => "BadNumber",
            LexFault::Memory => "Memory",
        }
    }

    /// Where it is in the bytes. If there are too many bytes, it is at the first one past the limit.
    pub fn offset(&self) -> Option<usize>
        ensures { result ≡ lex_offset self.now }
    {
        match *self {
            LexFault::TooLong => Some(MAX_TEXT_LENGTH),
            LexFault::NotUtf8(offset)
            | LexFault::BadByte(offset)
            | LexFault::OpenString(offset)
            | LexFault::OpenComment(offset)
            | LexFault::BadEscape(offset)
            | LexFault::BadNumber(offset) => Some(offset),
            LexFault::Memory => None,
        }
    }
}

impl From<AllocError> for LexFault {
    ghost use Rattle.std.specs.Prelude.{◌≡◌};
    ghost use Rattle.proto_lex.specs.declared.fault.LexFault.TheVariants.{Memory};

    ghost from_gives = { λ _ e. e ≡ Memory };

    fn from(_refused: AllocError) -> LexFault {
        LexFault::Memory
    }
}

impl<T: Drop> From<AllocFailed<T>> for LexFault {
    ghost use Rattle.std.specs.Prelude.{◌≡◌};
    ghost use Rattle.proto_lex.specs.declared.fault.LexFault.TheVariants.{Memory};

    ghost from_gives = { λ _ e. e ≡ Memory };

    fn from(_refused: AllocFailed<T>) -> LexFault {
        LexFault::Memory
    }
}
