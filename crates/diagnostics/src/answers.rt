//! What the lexer and the parser answer about the bytes of a source.

ghost use Rattle.std.specs.Prelude.{◌≡◌, IfOk, Some};
ghost use Rattle.proto_lex.specs.FaultNames.{lex_offset};
ghost use Rattle.proto_lex.specs.Text.{IsText};
ghost use Rattle.proto_parse.specs.FaultNames.{syntax_offset};
ghost use Rattle.diagnostics.specs.Answers.{IsAnswer};

use proto_lex::{LexFault, Text, lex_with};
use proto_parse::{Dialect, SyntaxFault, parse_with};
use std::alloc::{AllocError, Global};

/// Where a fault of the lexer is. Lack of memory has no place.
fn lex_place(fault: LexFault) -> Result<usize, AllocError>
    ensures { IfOk result (λ at. lex_offset fault ≡ Some at) }
{
    match fault.offset() {
        Some(at) => Ok(at),
        None => Err(AllocError),
    }
}

/// Where a fault of the parser is. Lack of memory has no place.
fn syntax_place(fault: SyntaxFault) -> Result<usize, AllocError>
    ensures { IfOk result (λ at. syntax_offset fault ≡ Some at) }
{
    match fault.offset() {
        Some(at) => Ok(at),
        None => Err(AllocError),
    }
}

/// The place of the fault that a text has; none if it has a tree.
fn answer_about(
    alloc: Global,
    text: &Text<'_>,
    dialect: Dialect,
) -> Result<Option<usize>, AllocError>
    requires { IsText text.now }
    ensures { IfOk result (IsAnswer dialect text.now) }
{
    let lexed = match lex_with(alloc, text, dialect.hashes()) {
        Ok(lexed) => lexed,
        Err(fault) => return Ok(Some(lex_place(fault)?)),
    };
    match parse_with(alloc, &lexed, dialect) {
        Ok(_tree) => Ok(None),
        Err(fault) => Ok(Some(syntax_place(fault)?)),
    }
}

/// The place of the fault that bytes have; none if they have a tree.
pub(crate) fn answer(
    alloc: Global,
    bytes: &[u8],
    dialect: Dialect,
) -> Result<Option<usize>, AllocError>
    ensures { IfOk result (IsAnswer dialect bytes.now) }
{
    match Text::new(alloc, bytes) {
        Ok(text) => answer_about(alloc, &text, dialect),
        Err(fault) => Ok(Some(lex_place(fault)?)),
    }
}
