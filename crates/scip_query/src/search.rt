//! Searches in the tables of documents, of symbols and of symbol entries.

ghost use Rattle.std.specs.Prelude.{◌≡◌, filter, length};
ghost use Rattle.std.specs.List.{find};
ghost use Rattle.std.specs.List.Sorted.{IsNonDecreasingBy};
ghost use Rattle.std.specs.Ordering.{nat_cmp, is_eq};
ghost use Rattle.std.specs.Cmp.Lexicographic.{slice_cmp};
ghost use Rattle.scip_query.specs.Tables.{path_listed, symbol_listed, places_from, numbers, IsByPath, IsBySymbol};
ghost use Rattle.scip_query.specs.Tables.Searches.{entry_symbol_listed, entry_places_from, AreEntriesBySymbol};
ghost use Rattle.scip_query.specs.declared.place.Place.{Place};
ghost use Rattle.scip_query.specs.declared.place.EntryPlace.{EntryPlace};

use crate::listed::{entry_symbol_listed, path_listed, symbol_listed};
use crate::place::{EntryPlace, Place};
use crate::run::{run_near, run_of};
use scip_records::{Document, Index};

/// The numbers of the documents with a path, in the index's order.
fn numbers_named<'a>(documents: &[Document], by_path: &'a [usize], path: &str) -> &'a [usize]
    requires { IsByPath documents.now by_path.now }
    ensures { result.now ≡ filter (λ number. is_eq (slice_cmp nat_cmp (path_listed documents.now number) path.now))
        (numbers (length documents.now)) }
{
    run_of(by_path, |number| path_listed(documents, *number).cmp(path))
}

/// The number of the first document with a path.
#[tactic(auto, using(crate::proofs::RunLemmas::find_first))]
pub(crate) fn number_named(documents: &[Document], by_path: &[usize], path: &str) -> Option<usize>
    requires { IsByPath documents.now by_path.now }
    ensures { result ≡ find (λ number. is_eq (slice_cmp nat_cmp (path_listed documents.now number) path.now))
        (numbers (length documents.now)) }
{
    numbers_named(documents, by_path, path).first().copied()
}

/// The places of a symbol, in the index's order.
pub(crate) fn places_of<'a>(
    documents: &[Document],
    by_symbol: &'a [Place],
    symbol: &str,
) -> &'a [Place]
    requires { IsBySymbol documents.now by_symbol.now }
    ensures { result.now ≡ filter (λ (place : Place). is_eq (slice_cmp nat_cmp (symbol_listed documents.now place)
        symbol.now)) (places_from 0 documents.now) }
{
    run_of(
        by_symbol,
        |place| symbol_listed(documents, *place).cmp(symbol),
    )
}

/// As `places_of`. They are looked for first behind so many.
pub(crate) fn places_near<'a>(
    documents: &[Document],
    by_symbol: &'a [Place],
    near: usize,
    symbol: &str,
) -> &'a [Place]
    requires { IsBySymbol documents.now by_symbol.now }
    ensures { result.now ≡ filter (λ (place : Place). is_eq (slice_cmp nat_cmp (symbol_listed documents.now place)
        symbol.now)) (places_from 0 documents.now) }
{
    let (_, places) = run_near(
        by_symbol,
        near,
        |place| symbol_listed(documents, *place).cmp(symbol),
    );
    places
}

/// The places in a document, of some that are listed document by document.
pub(crate) fn places_in<'a>(places: &'a [Place], document: usize) -> &'a [Place]
    requires { IsNonDecreasingBy (λ (place : Place). place.document) places.now }
    ensures { result.now ≡ filter (λ (place : Place). is_eq (nat_cmp place.document document)) places.now }
{
    run_of(places, |place| place.document.cmp(&document))
}

/// The places of the symbol entries with a symbol: those of documents in the index's order, and
/// then those of external symbols.
pub(crate) fn entry_places_of<'a>(
    index: &Index,
    entries_by_symbol: &'a [EntryPlace],
    symbol: &str,
) -> &'a [EntryPlace]
    requires { AreEntriesBySymbol index.now entries_by_symbol.now }
    ensures { result.now ≡ filter (λ (place : EntryPlace). is_eq (slice_cmp nat_cmp
        (entry_symbol_listed index.now place) symbol.now)) (entry_places_from 0 index.now.external_symbols
        index.now.documents) }
{
    run_of(
        entries_by_symbol,
        |place| entry_symbol_listed(index, *place).cmp(symbol),
    )
}

/// As `entry_places_of`. They are looked for first behind so many; with them comes behind how many they are.
pub(crate) fn entry_places_near<'a>(
    index: &Index,
    entries_by_symbol: &'a [EntryPlace],
    near: usize,
    symbol: &str,
) -> (usize, &'a [EntryPlace])
    requires { AreEntriesBySymbol index.now entries_by_symbol.now }
    ensures { result.1.now ≡ filter (λ (place : EntryPlace). is_eq (slice_cmp nat_cmp
        (entry_symbol_listed index.now place) symbol.now)) (entry_places_from 0 index.now.external_symbols
        index.now.documents) }
{
    run_near(
        entries_by_symbol,
        near,
        |place| entry_symbol_listed(index, *place).cmp(symbol),
    )
}

/// The places in a list, of some that are listed list by list.
pub(crate) fn entry_places_in<'a>(places: &'a [EntryPlace], list: usize) -> &'a [EntryPlace]
    requires { IsNonDecreasingBy (λ (place : EntryPlace). place.list) places.now }
    ensures { result.now ≡ filter (λ (place : EntryPlace). is_eq (nat_cmp place.list list)) places.now }
{
    run_of(places, |place| place.list.cmp(&list))
}
