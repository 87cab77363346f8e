//! How a pattern spells its pieces.

ghost use Rattle.std.specs.Prelude.{◌≡◌, ◌↔◌, ◌<◌, ◌+◌, ◌∷◌, IfOk, IfSome, IsTrue, None, length};
ghost use Rattle.globs.specs.Pieces.{IsPlain, IsSpelled, spelled};

use crate::piece::Piece;
use crate::rows::matches;
use std::alloc::{AllocError, Global};

/// The first piece of a pattern that begins with a byte, by what is behind it; and what is behind the piece.
fn piece_with(first: u8, rest: &[u8]) -> (Piece, &[u8])
    ensures piece { spelled (first ∷ rest.now) ≡ result.0 ∷ spelled result.1.now }
    ensures fewer { length result.1.now < length rest.now + 1 }
{
    match rest {
        [] => (Piece::of(first), rest),
        [second, others @ ..] => {
            if first == b'*' && *second == b'*' {
                (Piece::Any, others)
            } else {
                (Piece::of(first), rest)
            }
        }
    }
}

/// The pieces that a pattern spells.
fn pieces_of(alloc: Global, pattern: &[u8]) -> Result<Vec<Piece>, AllocError>
    ensures { IfOk result (λ pieces. pieces.items ≡ spelled pattern.now) }
{
    let mut pieces = Vec::new(alloc);
    let mut rest = pattern;
    while let [first, behind @ ..] = rest {
        let (piece, others) = piece_with(*first, behind);
        pieces.push(piece)?;
        rest = others;
    }
    Ok(pieces)
}

/// Whether a byte of a pattern means itself.
fn is_plain(byte: u8) -> bool
    ensures { IsTrue result → IsPlain byte }
{
    byte != b'*' && byte != b'?'
}

/// What a pattern and a text have behind the bytes that mean themselves at the pattern's start, which the text begins
/// with. None if it begins with others.
#[tactic(auto, using(crate::proofs::PlainLemmas::plain_other))]
fn behind_plain<'p, 't>(pattern: &'p [u8], text: &'t [u8]) -> Option<(&'p [u8], &'t [u8])>
    ensures left { IfSome result (λ left. IsSpelled pattern.now text.now ↔ IsSpelled left.0.now left.1.now) }
    ensures none { result ≡ None → ¬ (IsSpelled pattern.now text.now) }
{
    let mut rest = pattern;
    let mut left = text;
    'bytes: while let [first, behind @ ..] = rest {
        if !is_plain(*first) {
            return Some((rest, left));
        }
        match left {
            [] => return None,
            [byte, others @ ..] => {
                if *byte != *first {
                    return None;
                }
                rest = behind;
                left = others;
            }
        }
    }
    Some((rest, left))
}

/// Whether a pattern spells a text. Most texts begin otherwise than a pattern, which takes no memory to see.
pub(crate) fn is_spelled(alloc: Global, pattern: &[u8], text: &[u8]) -> Result<bool, AllocError>
    ensures { IfOk result (λ yes. IsTrue yes ↔ IsSpelled pattern.now text.now) }
{
    match behind_plain(pattern, text) {
        Some((rest, left)) => {
            let pieces = pieces_of(alloc, rest)?;
            matches(alloc, &pieces, left)
        }
        None => Ok(false),
    }
}
