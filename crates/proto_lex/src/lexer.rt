//! From a text to its tokens and comments.
//!
//! What the loop over a text calls for each piece is inlined there, and what reads comments of a `#` is out of its way.

ghost use Rattle.std.specs.Prelude.{◌≡◌, ◌+◌, ◌<◌, ◌≤◌, ◌⊎◌, List, length, IfOk, IfErr, OnOk, IsOkUnless};
ghost use Rattle.proto_lex.specs.declared.token.Token.{Token};
ghost use Rattle.proto_lex.specs.declared.token.Comment.{Comment};
ghost use Rattle.proto_lex.specs.Faults.{IsFirstFault, IsFirstFaultWith};
ghost use Rattle.proto_lex.specs.Lexes.{Lexes, LexesWith, part};
ghost use Rattle.proto_lex.specs.Reading.{pieces, with_last, mark_len, pieces_of, GivesPieces, PassesComment, ReadsPiece};
ghost use Rattle.proto_lex.specs.Text.{max_text_length};

mod bytes;
mod hash;
mod literal;
mod number;
mod piece;

use crate::fault::LexFault;
use crate::hashes::Hashes;
use crate::lexer::bytes::{blank_len, tail};
use crate::lexer::hash::{begins_comment, comment_ends, commented_at, kept_kind, opened_by};
use crate::lexer::piece::{PieceKind, piece_at};
use crate::span::Span;
use crate::text::Text;
use crate::token::{Comment, Token};
use crate::tokens::Tokens;
use std::alloc::Global;

/// There is room for a token for so many bytes, and for a comment, before there are more. Real sources have fewer
/// tokens and comments.
const BYTES_A_TOKEN: usize = 16;

const BYTES_A_COMMENT: usize = 64;

/// The tokens and comments of the first part of a text.
#[derive(Drop)]
struct Pieces {
    tokens: Vec<Token>,
    comments: Vec<Comment>,
}

/// Adds what is at `span`, if it is a token or a comment.
#[inline(always)]
fn push_piece(found: &mut Pieces, kind: PieceKind, span: Span) -> Result<(), LexFault>
    ensures pushed { OnOk result (pieces found.new.tokens.items found.new.comments.items
        ≡ with_last (pieces found.old.tokens.items found.old.comments.items) kind span) }
    ensures memory { IfErr result (λ fault. fault ≡ LexFault.Memory) }
{
    match kind {
        PieceKind::Blank | PieceKind::Odd => {}
        PieceKind::Comment(kind) => found.comments.push(Comment { kind, span })?,
        PieceKind::Token(kind) => found.tokens.push(Token { kind, span })?,
    }
    Ok(())
}

/// How many bytes a byte order mark takes at the very start of a text: three, or none.
fn mark_len(bytes: &[u8]) -> usize
    ensures { result ≡ mark_len bytes.now }
{
    match bytes {
        [0xEF, 0xBB, 0xBF, ..] => 3,
        _ => 0,
    }
}

/// The part of a text that takes so many bytes from a place on.
fn part(at: usize, len: usize) -> Span
    requires { at + len ≤ max_text_length }
    ensures { result ≡ part at len }
{
    Span {
        start: at as u32,
        end: (at + len) as u32,
    }
}

/// Adds the comments in a comment that a `#` before these bytes begins, which are at `at`. Gives how many bytes it takes.
#[cold]
#[inline(never)]
fn pass_comment(found: &mut Pieces, bytes: &[u8], at: usize) -> Result<usize, LexFault>
    requires { at + length bytes.now ≤ max_text_length }
    ensures { PassesComment (pieces found.old.tokens.items found.old.comments.items)
        (pieces found.new.tokens.items found.new.comments.items) at bytes.now result }
{
    let mut depth: usize = 0;
    let mut len: usize = 0;
    let mut rest = bytes;
    'pieces: while !comment_ends(depth, rest) {
        let here = at + len;
        let piece = commented_at(rest, here)?;
        let span = part(here, piece.len);
        let kept = kept_kind(piece.kind);
        push_piece(found, kept, span)?;
        depth = opened_by(depth, piece.kind);
        rest = tail(rest, piece.len);
        len += piece.len;
    }
    Ok(len)
}

/// Adds what these bytes begin with, which are at `at`. Gives how many bytes it takes.
fn read_piece(
    found: &mut Pieces,
    hashes: Hashes,
    bytes: &[u8],
    at: usize,
) -> Result<usize, LexFault>
    requires some { 0 < length bytes.now }
    requires fits { at + length bytes.now ≤ max_text_length }
    ensures { ReadsPiece hashes (pieces found.old.tokens.items found.old.comments.items)
        (pieces found.new.tokens.items found.new.comments.items) at bytes.now result }
{
    match piece_at(bytes, at) {
        Ok(piece) => {
            let span = part(at, piece.len);
            push_piece(found, piece.kind, span)?;
            Ok(piece.len)
        }
        Err(fault) => {
            if begins_comment(hashes, &found.tokens, bytes) {
                let len = pass_comment(found, tail(bytes, 1), at + 1)?;
                Ok(1 + len)
            } else {
                Err(fault)
            }
        }
    }
}

/// The tokens and comments of a text, or the fault that reading from left to right meets first.
fn read_pieces(alloc: Global, bytes: &[u8], hashes: Hashes) -> Result<Pieces, LexFault>
    requires { length bytes.now ≤ max_text_length }
    ensures { GivesPieces (λ found. pieces found.tokens.items found.comments.items) result
        (pieces_of hashes bytes.now) }
{
    let tokens = Vec::with_capacity(alloc, bytes.len() / BYTES_A_TOKEN)?;
    let comments = Vec::with_capacity(alloc, bytes.len() / BYTES_A_COMMENT)?;
    let mut found = Pieces { tokens, comments };
    let mut at = mark_len(bytes);
    let mut rest = tail(bytes, at);
    while !rest.is_empty() {
        let len = read_piece(&mut found, hashes, rest, at)?;
        let end = at + len;
        let behind = tail(rest, len);
        let blanks = blank_len(behind);
        rest = tail(behind, blanks);
        at = end + blanks;
    }
    Ok(found)
}

/// The tokens and comments of a text (proto3 specification, "Lexical elements"), in which no `#` begins a comment.
///
/// A text has at most one lexing, and it is found where there is one. Otherwise the fault is the
/// one that reading from left to right meets first:
///
/// - `BadByte`: a character that begins no token, blank or comment, or a NUL in a string.
/// - `OpenString`: a string that a `\n` or the text's end cuts off, with its opening quote.
/// - `OpenComment`: a block comment without its `*/`, with its `/*`.
/// - `BadEscape`: a `\` in a string that begins no escape.
/// - `BadNumber`: a number's run that has none of the forms of numbers, with its start.
///
/// `Memory` comes where memory runs out, for any text.
pub fn lex<'a, 't>(alloc: Global, text: &'a Text<'t>) -> Result<Tokens<'a, 't>, LexFault>
    ensures text { IfOk result (λ found. found.text ≡ text.now) }
    ensures found { IfOk result (λ found. Lexes text.now found.tokens found.comments) }

    // A text that lexes is accepted, with the tokens and comments of its lexing.
    ensures accepted { (tokens : List Token) → (comments : List Comment) → Lexes text.now tokens comments
        → IsOkUnless result LexFault.Memory }
    ensures only { (tokens : List Token) → (comments : List Comment) → Lexes text.now tokens comments
        → IfOk result (λ found. found ≡ record { text = text.now; tokens = tokens; comments = comments }) }
    ensures fault { IfErr result (λ fault. (fault ≡ LexFault.Memory) ⊎ IsFirstFault text.now fault) }
{
    lex_with(alloc, text, Hashes::Nowhere)
}

/// The same, if a `#` begins a comment there. What is in such a comment is checked, but of it only comments of the other
/// kinds are listed.
pub fn lex_with<'a, 't>(
    alloc: Global,
    text: &'a Text<'t>,
    hashes: Hashes,
) -> Result<Tokens<'a, 't>, LexFault>
    ensures text { IfOk result (λ found. found.text ≡ text.now) }
    ensures found { IfOk result (λ found. LexesWith hashes text.now found.tokens found.comments) }
    ensures accepted { (tokens : List Token) → (comments : List Comment) → LexesWith hashes text.now tokens comments
        → IsOkUnless result LexFault.Memory }
    ensures only { (tokens : List Token) → (comments : List Comment) → LexesWith hashes text.now tokens comments
        → IfOk result (λ found. found ≡ record { text = text.now; tokens = tokens; comments = comments }) }
    ensures fault { IfErr result (λ fault. (fault ≡ LexFault.Memory) ⊎ IsFirstFaultWith hashes text.now fault) }
{
    let found = read_pieces(alloc, text.as_str().as_bytes(), hashes)?;
    Ok(Tokens::new(text, found.tokens, found.comments))
}
