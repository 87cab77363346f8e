//! What places of an index stand for.

ghost use Rattle.std.specs.Prelude.{◌≡◌, option_copied};
ghost use Rattle.scip_query.specs.Tables.{path_listed, occurrence_listed, symbol_listed, defines_listed};
ghost use Rattle.scip_pages.specs.Site.{line_listed};

use crate::snapshots::is_definition;
use scip_query::Place;
use scip_records::{Document, Occurrence};

/// The path of the document with a number; no text where there is none.
pub fn path_listed(documents: &[Document], number: usize) -> &str
    ensures { result.now ≡ path_listed documents.now number }
{
    match documents.get(number) {
        Some(document) => document.relative_path.as_str(),
        None => "",
    }
}

/// The occurrence at a place, where there is one.
pub fn occurrence_listed(documents: &[Document], place: Place) -> Option<&Occurrence>
    ensures { option_copied result ≡ occurrence_listed documents.now place }
{
    match documents.get(place.document) {
        Some(document) => document.occurrences.as_slice().get(place.occurrence),
        None => None,
    }
}

/// The symbol at a place; no text where there is none.
pub fn symbol_listed(documents: &[Document], place: Place) -> &str
    ensures { result.now ≡ symbol_listed documents.now place }
{
    match occurrence_listed(documents, place) {
        Some(occurrence) => occurrence.symbol.as_str(),
        None => "",
    }
}

/// Whether the occurrence at a place is a definition.
pub(crate) fn defines_listed(documents: &[Document], place: Place) -> bool
    ensures { result ≡ defines_listed documents.now place }
{
    match occurrence_listed(documents, place) {
        Some(occurrence) => is_definition(occurrence),
        None => false,
    }
}

/// The line, from 1, on which the occurrence at a place begins; 1 where there is none.
pub fn line_listed(documents: &[Document], place: Place) -> usize
    ensures { result ≡ line_listed documents.now place }
{
    match occurrence_listed(documents, place) {
        Some(occurrence) => occurrence.range.start_line() as usize + 1,
        None => 1,
    }
}
