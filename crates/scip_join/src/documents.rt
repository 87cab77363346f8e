//! Pieces by path, of which the latest stays.

ghost use Rattle.std.specs.Prelude.{◌≡◌, ◌⊎◌, true, None, IfOk, IfErr, OnOk, reverse};
ghost use Rattle.std.specs.List.{dedup};
ghost use Rattle.scip_join.specs.Tables.{piece_cmp, has_same_path, first_pair};
ghost use Rattle.scip_join.specs.Tables.{pair_view, IsOrdered, IsRefusedPair, records_in};

use crate::join_fault::{JoinFault, TwoDocuments};
use crate::piece::{Piece, compare_paths, have_one_path};
use basics::{OwnedText, Sequence};
use scip_wire::DocumentRecord;
use std::alloc::{AllocError, Global};

/// Puts pieces in the order of their paths, of those with one path the latest first.
pub(crate) fn sort_latest_first(pieces: &mut Vec<Piece>) -> Result<(), AllocError>
    ensures { OnOk result (IsOrdered piece_cmp (reverse pieces.old.items) pieces.new.items) }
{
    pieces.reverse();
    pieces.sort_by(|a, b| compare_paths(a, b))?;
    Ok(())
}

/// The first two neighbours with one path.
fn first_pair(pieces: &[Piece]) -> Option<(&Piece, &Piece)>
    ensures { pair_view result ≡ first_pair pieces.now }
{
    let mut rest = pieces;
    'pieces: while let [first, others @ ..] = rest {
        if let [second, ..] = others {
            if have_one_path(first, second) {
                return Some((first, second));
            }
        }
        rest = others;
    }
    None
}

/// Refuses the first two neighbours with one path, the later of which comes first, unless one is to replace the other.
pub(crate) fn refuse_twice(alloc: Global, pieces: &[Piece], replace: bool) -> Result<(), JoinFault>
    ensures none { OnOk result ((replace ≡ true) ⊎ (first_pair pieces.now ≡ None)) }
    ensures refused { IfErr result (IsRefusedPair replace (first_pair pieces.now)) }
{
    if replace {
        return Ok(());
    }
    let Some((later, earlier)) = first_pair(pieces) else {
        return Ok(());
    };
    let path = OwnedText::copy_of(alloc, later.path.as_str())?;
    Err(JoinFault::Twice(TwoDocuments {
        path,
        earlier: earlier.index,
        later: later.index,
    }))
}

/// Leaves out each piece with the path of the one before.
pub(crate) fn keep_latest(pieces: &mut Vec<Piece>)
    ensures { pieces.new.items ≡ dedup has_same_path pieces.old.items }
{
    pieces.dedup_by(|a, b| have_one_path(a, b));
}

/// The records of pieces.
pub(crate) fn records_of(
    alloc: Global,
    pieces: Vec<Piece>,
) -> Result<Sequence<DocumentRecord>, AllocError>
    ensures { IfOk result (λ records. records ≡ records_in pieces.items) }
{
    let mut records = Vec::with_capacity(alloc, pieces.len())?;
    for piece in pieces {
        records.push(piece.bytes)?;
    }
    Ok(Sequence::from_vec(records))
}
