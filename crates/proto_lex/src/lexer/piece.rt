//! What is at a place of a text: a blank, a comment or a token.

ghost use Rattle.std.specs.Prelude.{◌≡◌, ℕ, ◌+◌, ◌<◌, ◌≤◌, length, IfOk, IfSome};
ghost use Rattle.proto_lex.specs.Lexes.{sign_kind};
ghost use Rattle.proto_lex.specs.Reading.{token, block_at, slash_at, piece_at};
ghost use Rattle.proto_lex.specs.Text.{max_text_length};

use crate::fault::LexFault;
use crate::lexer::bytes::{is_blank, is_letter, is_quote, line_len, word_len};
use crate::lexer::literal::literal_at;
use crate::lexer::number::{begins_number, number_at};
use crate::token::{CommentKind, TokenKind};
use memchr::memmem;

/// What is at a place.
#[derive(Clone, Copy, Debug, PartialEq, Eq)]
pub(crate) enum PieceKind {
    Blank,
    /// A `#` that begins a comment, or another sign in one that begins no token.
    Odd,
    Comment(CommentKind),
    Token(TokenKind),
}

/// What is at a place, and how many bytes it takes.
#[derive(Clone, Copy, Debug, PartialEq, Eq)]
pub(crate) struct Piece {
    pub kind: PieceKind,
    pub len: usize,
}

/// How many bytes a block comment takes, if these come after its `/*`.
fn block_len(others: &[u8]) -> Option<usize>
    requires { length others.now ≤ max_text_length }
    ensures value { result ≡ block_at 2 others.now }
    ensures within { IfSome result (λ len. len ≤ length others.now + 2) }
{
    match memmem::find(others, b"*/") {
        Some(inside) => Some(inside + 4),
        None => None,
    }
}

/// The kind of the sign that is this one character.
#[inline(always)]
pub(crate) fn sign_kind(b: u8) -> Option<TokenKind>
    ensures { result ≡ sign_kind b }
{
    match b {
        b';' => Some(TokenKind::Semicolon),
        b'=' => Some(TokenKind::Equals),
        b'{' => Some(TokenKind::OpenBrace),
        b'}' => Some(TokenKind::CloseBrace),
        b'[' => Some(TokenKind::OpenBracket),
        b']' => Some(TokenKind::CloseBracket),
        b'(' => Some(TokenKind::OpenParenthesis),
        b')' => Some(TokenKind::CloseParenthesis),
        b'<' => Some(TokenKind::Less),
        b'>' => Some(TokenKind::Greater),
        b',' => Some(TokenKind::Comma),
        b'.' => Some(TokenKind::Dot),
        b':' => Some(TokenKind::Colon),
        b'+' => Some(TokenKind::Plus),
        b'-' => Some(TokenKind::Minus),
        b'/' => Some(TokenKind::Slash),
        _ => None,
    }
}

/// A token of this kind, which takes this many bytes.
fn token(kind: TokenKind, len: usize) -> Piece
    ensures { result ≡ token kind len }
{
    Piece {
        kind: PieceKind::Token(kind),
        len,
    }
}

/// The comment or the sign that a `/` begins at `at`, before `others`.
fn slash_at(others: &[u8], at: usize) -> Result<Piece, LexFault>
    requires { length others.now ≤ max_text_length }
    ensures { result ≡ slash_at at others.now }
{
    match others {
        [b'/', ..] => Ok(Piece {
            kind: PieceKind::Comment(CommentKind::Line),
            len: 1 + line_len(others),
        }),
        [b'*', inside @ ..] => match block_len(inside) {
            Some(len) => Ok(Piece {
                kind: PieceKind::Comment(CommentKind::Block),
                len,
            }),
            None => Err(LexFault::OpenComment(at)),
        },
        _ => Ok(token(TokenKind::Slash, 1)),
    }
}

/// What these bytes begin with, which are at `at`.
#[tactic(auto, unfolding(crate::specs::Reading::piece_at))]
#[inline(always)]
pub(crate) fn piece_at(bytes: &[u8], at: usize) -> Result<Piece, LexFault>
    requires { at + length bytes.now ≤ max_text_length }
    ensures { result ≡ piece_at at bytes.now }
{
    let [first, others @ ..] = bytes else {
        return Err(LexFault::BadByte(at));
    };
    if is_blank(*first) {
        return Ok(Piece {
            kind: PieceKind::Blank,
            len: 1,
        });
    }
    if is_letter(*first) {
        return Ok(token(TokenKind::Identifier, 1 + word_len(others)));
    }
    if begins_number(bytes) {
        return number_at(bytes, at);
    }
    if is_quote(*first) {
        return Ok(token(TokenKind::StringLiteral, literal_at(*first, others, at)?));
    }
    if *first == b'/' {
        return slash_at(others, at);
    }
    match sign_kind(*first) {
        Some(kind) => Ok(token(kind, 1)),
        None => Err(LexFault::BadByte(at)),
    }
}
