//! What the numbers and places of an index stand for.

ghost use Rattle.std.specs.Prelude.{◌≡◌, option_copied};
ghost use Rattle.scip_query.specs.Tables.{path_listed, occurrence_listed, symbol_listed, path_cmp};
ghost use Rattle.scip_query.specs.Tables.Searches.{
  entries_listed,
  entry_listed,
  entry_symbol_listed,
  inner_cmp,
};

use crate::place::{EntryPlace, Place};
use crate::position::compare_innermost;
use scip_records::{Document, Index, Occurrence, SymbolInformation};
use std::cmp::Ordering;

/// The path of the document with a number; no text if there is none.
pub(crate) fn path_listed(documents: &[Document], number: usize) -> &str
    ensures { result.now ≡ path_listed documents.now number }
{
    match documents.get(number) {
        Some(document) => document.relative_path.as_str(),
        None => "",
    }
}

/// The occurrence at a place, if there is one.
pub(crate) fn occurrence_listed(documents: &[Document], place: Place) -> Option<&Occurrence>
    ensures { option_copied result ≡ occurrence_listed documents.now place }
{
    match documents.get(place.document) {
        Some(document) => document.occurrences.as_slice().get(place.occurrence),
        None => None,
    }
}

/// The symbol at a place; no text if there is none.
pub(crate) fn symbol_listed(documents: &[Document], place: Place) -> &str
    ensures { result.now ≡ symbol_listed documents.now place }
{
    match occurrence_listed(documents, place) {
        Some(occurrence) => occurrence.symbol.as_str(),
        None => "",
    }
}

/// The symbol entries with a list's number: those of a document, and after the documents the external ones.
fn entries_listed(index: &Index, list: usize) -> &[SymbolInformation]
    ensures { result.now ≡ entries_listed index.now list }
{
    match index.documents.as_slice().get(list) {
        Some(document) => document.symbols.as_slice(),
        None => index.external_symbols.as_slice(),
    }
}

/// The symbol entry at a place, if there is one.
pub(crate) fn entry_listed(index: &Index, place: EntryPlace) -> Option<&SymbolInformation>
    ensures { option_copied result ≡ entry_listed index.now place }
{
    entries_listed(index, place.list).get(place.entry)
}

/// The symbol of the entry at a place; no text if there is none.
pub(crate) fn entry_symbol_listed(index: &Index, place: EntryPlace) -> &str
    ensures { result.now ≡ entry_symbol_listed index.now place }
{
    match entry_listed(index, place) {
        Some(entry) => entry.symbol.as_str(),
        None => "",
    }
}

/// By path.
pub(crate) fn compare_paths(documents: &[Document], a: usize, b: usize) -> Ordering
    ensures { result ≡ path_cmp documents.now a b }
{
    path_listed(documents, a).cmp(path_listed(documents, b))
}

/// The innermost first.
pub(crate) fn compare_inner(occurrences: &[Occurrence], a: usize, b: usize) -> Ordering
    ensures { result ≡ inner_cmp occurrences.now a b }
{
    match (occurrences.get(a), occurrences.get(b)) {
        (Some(a), Some(b)) => compare_innermost(a, b),
        (Some(_), None) => Ordering::Greater,
        (None, Some(_)) => Ordering::Less,
        (None, None) => Ordering::Equal,
    }
}
