//! Whether a text matches pieces.

ghost use Rattle.std.specs.Prelude.{◌≡◌, ◌↔◌, ◌+◌, ◌∷◌, ◌++◌, List, [], IfOk, IsTrue, length};
ghost use Rattle.globs.specs.Pieces.{Matches};
ghost use Rattle.globs.specs.declared.piece.Piece.{Piece};
ghost use Rattle.globs.specs.Rows.{AreRow};

use crate::piece::Piece;
use std::alloc::{AllocError, Global};

/// Whether each beginning of a text, from the empty one on, matches no pieces.
fn first_row(alloc: Global, text: &[u8]) -> Result<Vec<bool>, AllocError>
    ensures { IfOk result (λ row. AreRow [] text.now row.items) }
{
    let mut row = Vec::new(alloc);
    row.push(true)?;
    for _ in 0..text.len() {
        row.push(false)?;
    }
    Ok(row)
}

/// Whether each beginning of a text matches some pieces with one more, by whether it matches them without.
fn next_row(alloc: Global, piece: Piece, text: &[u8], row: &[bool]) -> Result<Vec<bool>, AllocError>
    requires { length row.now ≡ length text.now + 1 }
    ensures { IfOk result (λ next. (pieces : List Piece) → AreRow pieces text.now row.now
        → AreRow (pieces ++ piece ∷ []) text.now next.items) }
{
    let mut all = piece.starts(row[0]);
    let mut next = Vec::new(alloc);
    next.push(all)?;
    for at in 0..text.len() {
        all = piece.ends(text[at], row[at], all, row[at + 1]);
        next.push(all)?;
    }
    Ok(next)
}

/// Whether a text matches pieces, in time of their number times its length.
pub(crate) fn matches(alloc: Global, pieces: &[Piece], text: &[u8]) -> Result<bool, AllocError>
    ensures { IfOk result (λ yes. IsTrue yes ↔ Matches pieces.now text.now) }
{
    let mut row = first_row(alloc, text)?;
    for piece in pieces {
        row = next_row(alloc, *piece, text, &row)?;
    }
    Ok(row[text.len()])
}
