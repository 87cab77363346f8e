//! What is kept of a document.

ghost use Rattle.std.specs.Prelude.{◌≡◌, ◌++◌, IfOk, OnOk, map, All};
ghost use Rattle.scip_wire.specs.WellFormed.{IsFitDocument};
ghost use Rattle.scip_join.specs.Gathered.{piece_of, symbols_in};
ghost use Rattle.scip_join.specs.Tables.{piece_cmp, has_same_path};

use basics::{OwnedText, Sequence};
use scip_records::{Document, SymbolInformation};
use scip_wire::{DocumentRecord, spell_document};
use std::alloc::{AllocError, Global};
use std::cmp::Ordering;

/// What is kept of a document.
#[derive(Debug, Drop)]
pub(crate) struct Piece {
    /// The number of the index that it is in, from 0.
    pub index: usize,
    /// Its path.
    pub path: OwnedText,
    /// The symbols of its entries.
    pub symbols: Sequence<OwnedText>,
    /// Its record, as in the spelling of an index.
    pub bytes: DocumentRecord,
}

/// The symbols of entries, whose other texts are let go.
fn symbols_of(
    alloc: Global,
    entries: Vec<SymbolInformation>,
) -> Result<Sequence<OwnedText>, AllocError>
    ensures { IfOk result (λ symbols. symbols ≡ symbols_in entries.items) }
{
    let mut symbols = Vec::with_capacity(alloc, entries.len())?;
    for entry in entries {
        symbols.push(entry.symbol)?;
    }
    Ok(Sequence::from_vec(symbols))
}

impl Piece {
    /// What is kept of a document of the index with this number.
    pub(crate) fn of(alloc: Global, index: usize, document: Document) -> Result<Piece, AllocError>
        ensures kept { IfOk result (λ piece. piece ≡ piece_of (index, document)) }
        ensures known { OnOk result (IsFitDocument document) }
    {
        let mut document = document;
        let bytes = spell_document(alloc, &mut document)?;
        let Document {
            relative_path,
            symbols,
            ..
        } = document;
        let symbols = symbols_of(alloc, symbols.into_vec())?;
        Ok(Piece {
            index,
            path: relative_path,
            symbols,
            bytes,
        })
    }
}

/// The order of pieces: by path.
pub(crate) fn compare_paths(a: &Piece, b: &Piece) -> Ordering
    ensures { result ≡ piece_cmp a.now b.now }
{
    a.path.as_str().cmp(b.path.as_str())
}

/// Whether two pieces have one path.
pub(crate) fn have_one_path(a: &Piece, b: &Piece) -> bool
    ensures { result ≡ has_same_path a.now b.now }
{
    a.path.as_str() == b.path.as_str()
}
