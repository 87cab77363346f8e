//! Comments that a `#` begins.

ghost use Rattle.std.specs.Prelude.{◌≡◌, ℕ, ◌+◌, ◌-◌, ◌^◌, ◌<◌, ◌≤◌, List, reverse, length};
ghost use Rattle.proto_lex.specs.declared.token.Token.{Token};
ghost use Rattle.proto_lex.specs.Bytes.{starts};
ghost use Rattle.proto_lex.specs.Hashes.{Commented, behind, closed_before, closes, end_with_equals, is_in_value, opened, opens};
ghost use Rattle.proto_lex.specs.Lexes.{is_odd, is_odd_in};
ghost use Rattle.proto_lex.specs.Reading.{comment_ends, kept_kind, opened_by, piece_in};
ghost use Rattle.proto_lex.specs.Text.{max_text_length};

use crate::fault::LexFault;
use crate::hashes::Hashes;
use crate::lexer::bytes::{is_digit, is_letter, is_quote};
use crate::lexer::piece::{Piece, PieceKind, piece_at, sign_kind};
use crate::token::{Token, TokenKind};

/// Whether it is a `{`.
fn opens(kind: TokenKind) -> bool
    ensures { result ≡ opens kind }
{
    matches!(kind, TokenKind::OpenBrace)
}

/// Whether it is a `}`.
fn closes(kind: TokenKind) -> bool
    ensures { result ≡ closes kind }
{
    matches!(kind, TokenKind::CloseBrace)
}

/// Whether the tokens end with a `=`.
fn end_with_equals(tokens: &[Token]) -> bool
    ensures { result ≡ end_with_equals (reverse tokens.now) }
{
    match tokens {
        [.., last] => matches!(last.kind, TokenKind::Equals),
        [] => false,
    }
}

/// Of how many `{` before a token a `}` comes later, if it is so many behind it.
fn closed_before(closed: usize, kind: TokenKind) -> usize
    requires { closed < 2 ^ 64 - 1 }
    ensures { result ≡ closed_before closed kind }
{
    if opens(kind) {
        return closed.saturating_sub(1);
    }
    if closes(kind) {
        return closed + 1;
    }
    closed
}

/// Whether the innermost brace that is open behind the tokens is that of a value.
fn is_in_value(tokens: &[Token]) -> bool
    ensures { result ≡ is_in_value 0 (reverse tokens.now) }
{
    let mut closed: usize = 0;
    let mut count = tokens.len();
    'tokens: while count > 0 {
        count -= 1;
        let kind = tokens[count].kind;
        if opens(kind) && closed == 0 {
            return end_with_equals(tokens.split_at(count).0);
        }
        closed = closed_before(closed, kind);
    }
    false
}

/// Whether these bytes, behind these tokens, begin with the `#` of a comment.
#[cold]
#[inline(never)]
pub(crate) fn begins_comment(hashes: Hashes, tokens: &[Token], bytes: &[u8]) -> bool
    ensures { result ≡ starts (is_odd_in (behind hashes tokens.now)) bytes.now }
{
    match (hashes, bytes) {
        (Hashes::InValues, [b'#', ..]) => is_in_value(tokens),
        _ => false,
    }
}

/// Whether it is a character that begins no token.
fn is_odd(b: u8) -> bool
    ensures { result ≡ is_odd b }
{
    matches!(b, b'!'..=b'\x7f')
        && !(is_letter(b) || is_digit(b) || is_quote(b) || sign_kind(b).is_some())
}

/// What these bytes begin with, which are in a comment of a `#`.
#[tactic(auto, unfolding(crate::specs::Reading::piece_in))]
pub(crate) fn commented_at(bytes: &[u8], at: usize) -> Result<Piece, LexFault>
    requires { at + length bytes.now ≤ max_text_length }
    ensures { (tokens : List Token) (depth : ℕ) → result ≡ piece_in (Commented tokens depth) at bytes.now }
{
    match bytes {
        [first, ..] if is_odd(*first) => Ok(Piece {
            kind: PieceKind::Odd,
            len: 1,
        }),
        _ => piece_at(bytes, at),
    }
}

/// Whether a comment of a `#`, in which so many braces are open, ends before these bytes.
pub(crate) fn comment_ends(depth: usize, bytes: &[u8]) -> bool
    ensures { result ≡ comment_ends depth bytes.now }
{
    match bytes {
        [first, ..] => depth == 0 && *first == b'}',
        [] => true,
    }
}

/// What is listed of a piece that is in a comment of a `#`: comments alone.
pub(crate) fn kept_kind(kind: PieceKind) -> PieceKind
    ensures { result ≡ kept_kind kind }
{
    match kind {
        PieceKind::Comment(kind) => PieceKind::Comment(kind),
        PieceKind::Blank | PieceKind::Odd | PieceKind::Token(_) => PieceKind::Blank,
    }
}

/// How many braces are open behind a token, if so many are open before it.
fn opened(depth: usize, kind: TokenKind) -> usize
    requires { depth < max_text_length }
    ensures { result ≡ opened depth kind }
{
    if opens(kind) {
        return depth + 1;
    }
    if closes(kind) {
        return depth.saturating_sub(1);
    }
    depth
}

/// The same, behind a piece in a comment of a `#`.
pub(crate) fn opened_by(depth: usize, kind: PieceKind) -> usize
    requires { depth < max_text_length }
    ensures { result ≡ opened_by depth kind }
{
    match kind {
        PieceKind::Token(kind) => opened(depth, kind),
        PieceKind::Blank | PieceKind::Odd | PieceKind::Comment(_) => depth,
    }
}
