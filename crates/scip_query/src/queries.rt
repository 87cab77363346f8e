//! Queries over an index.

ghost use Rattle.std.specs.Prelude.{◌≡◌, [], Some, MatchResult, IfOk, IfSome, map, filter, option_copied};
ghost use Rattle.std.specs.List.{slice_get};
ghost use Rattle.std.specs.Option.{option_map, option_and_then, unwrap_or};
ghost use Rattle.std.specs.Result.{result_map_both};
ghost use Rattle.std.specs.Ordering.{nat_cmp, is_eq};
ghost use Rattle.std.specs.Cmp.Lexicographic.{slice_cmp};
ghost use Rattle.scip_query.specs.declared.place.Place.{Place};
ghost use Rattle.scip_query.specs.declared.place.EntryPlace.{EntryPlace};
ghost use Rattle.scip_query.specs.declared.miss.Miss.{Miss};
ghost use Rattle.scip_query.specs.Sites.{Numbered, Site, document_named};
ghost use Rattle.scip_query.specs.OccurrenceAt.{occurrence_in, occurrence_at, subject_at};
ghost use Rattle.scip_query.specs.References.{is_local, references_of};
ghost use Rattle.scip_query.specs.Tables.{symbol_listed, places_from, IsBySymbol};
ghost use Rattle.scip_query.specs.Tables.Searches.{
  numbered_listed,
  entry_listed,
  entry_symbol_listed,
  entry_places_from,
  IsInnermostFirst,
};
ghost use Rattle.scip_query.specs.Views.{named_view, subject_view};

use crate::innermost::innermost_at;
use crate::listed::entry_listed;
use crate::miss::Miss;
use crate::place::{EntryPlace, Place};
use crate::position::Position;
use crate::search::{
    entry_places_near, entry_places_of, number_named, places_in, places_near, places_of,
};
use crate::tables::{Tables, tables_of};
use basics::Sequence;
use scip_records::{Document, Index, Metadata, Occurrence, SymbolInformation};
use std::alloc::{AllocError, AllocFailed, Global};
use std::marker::Model;

/// An index, and the tables by which it is searched. Contracts see it as the index.
///
/// A query needs memory only for its answer. Paths name the first document of the index with that path. Lines and
/// columns are zero-based, and columns count the units of the document's position encoding.
#[derive(Drop)]
pub struct Queries {
    index: Index,
    tables: Tables,
}

impl Model for Queries {
    ghost use Rattle.scip_records.specs.declared.records.Index.{Index};
    ghost use Rattle.scip_query.specs.Tables.Searches.{AreTables};

    ghost Value = { Index };

    ghost view = { λ q. q.index };

    ghost invariant = { λ q. AreTables q.index q.tables.by_path q.tables.inner q.tables.by_symbol
        q.tables.entries_by_symbol };
}

/// A document and its number.
#[derive(Clone, Copy)]
pub(crate) struct Named<'a> {
    pub number: usize,
    pub document: &'a Document,
}

/// A symbol, and the document where it is asked for.
#[derive(Clone, Copy)]
pub(crate) struct Subject<'a> {
    pub asked: Named<'a>,
    pub symbol: &'a str,
}

/// The table of the document with a number; an empty one if there is none.
fn inner_listed(inner: &[Sequence<usize>], number: usize) -> &[usize]
    ensures { result.now ≡ unwrap_or (slice_get inner.now number) [] }
{
    match inner.get(number) {
        Some(table) => table.as_slice(),
        None => &[],
    }
}

/// Whether a symbol is local to its document.
pub(crate) fn is_local(symbol: &str) -> bool
    ensures { result ≡ is_local symbol.now }
{
    symbol.as_bytes().starts_with(b"local ")
}

/// The occurrence at a position of a document with its table.
fn occurrence_in<'a>(
    document: &'a Document,
    table: &[usize],
    position: Position,
) -> Option<&'a Occurrence>
    requires { IsInnermostFirst document.now table.now }
    ensures { option_copied result ≡ occurrence_in document.now position }
{
    innermost_at(document.occurrences.as_slice(), table, position)
}

impl Queries {
    /// Takes an index, and makes the tables by which it is searched. If there is no memory for them, the index comes
    /// back as it was.
    pub fn new(alloc: Global, index: Index) -> Result<Queries, AllocFailed<Index>>
        ensures { MatchResult result (λ queries. queries ≡ index) (λ refused. refused.value ≡ index) }
    {
        match tables_of(alloc, &index) {
            Ok(tables) => Ok(Queries { index, tables }),
            Err(AllocError) => Err(AllocFailed { value: index }),
        }
    }

    /// The documents of the index, in its order.
    pub fn documents(&self) -> &[Document]
        ensures { result.now ≡ self.now.documents }
    {
        self.index.documents.as_slice()
    }

    /// What the index says about itself.
    pub fn metadata(&self) -> Option<&Metadata>
        ensures { option_copied result ≡ self.now.metadata }
    {
        self.index.metadata.as_ref()
    }

    /// What is known of symbols that no document defines.
    pub fn external_symbols(&self) -> &[SymbolInformation]
        ensures { result.now ≡ self.now.external_symbols }
    {
        self.index.external_symbols.as_slice()
    }

    /// The number of the first document with a path.
    fn number_named(&self, path: &str) -> Option<usize>
        ensures { option_and_then (numbered_listed self.now.documents) result ≡ document_named self.now path.now }
    {
        number_named(self.documents(), self.tables.by_path.as_slice(), path)
    }

    /// The document that a path names: the first with that path.
    pub(crate) fn named(&self, path: &str) -> Option<Named<'_>>
        ensures is { option_map named_view result ≡ document_named self.now path.now }
        ensures listed { IfSome result (λ named. slice_get self.now.documents named.number ≡ Some named.document.now) }
    {
        let number = self.number_named(path)?;
        match self.documents().get(number) {
            Some(document) => Some(Named { number, document }),
            None => None,
        }
    }

    /// The document that a path names: the first with that path.
    pub fn document(&self, path: &str) -> Option<&Document>
        ensures { option_copied result ≡ option_map (λ (d : Numbered). d.document) (document_named self.now path.now) }
    {
        match self.named(path) {
            Some(named) => Some(named.document),
            None => None,
        }
    }

    /// The number, from 0, of the document that a path names.
    pub fn document_number(&self, path: &str) -> Option<usize>
        ensures { result ≡ option_map (λ (d : Numbered). d.number) (document_named self.now path.now) }
    {
        match self.named(path) {
            Some(named) => Some(named.number),
            None => None,
        }
    }

    /// The occurrence at a position of a document.
    fn occurrence_in<'a>(
        &self,
        number: usize,
        document: &'a Document,
        position: Position,
    ) -> Option<&'a Occurrence>
        requires { slice_get self.now.documents number ≡ Some document.now }
        ensures { option_copied result ≡ occurrence_in document.now position }
    {
        let table = inner_listed(self.tables.inner.as_slice(), number);
        occurrence_in(document, table, position)
    }

    /// The occurrence at a position of the document that a path names, if there is one.
    ///
    /// Among the document's occurrences with a symbol whose range contains the position, it is the one with the
    /// latest start, then the earliest end, then the least symbol, then the first listed (`scip.proto`,
    /// `Occurrence.range`: half open). An empty range contains the position where it is.
    pub fn at(&self, path: &str, line: u32, column: u32) -> Option<&Occurrence>
        ensures { option_copied result ≡ occurrence_at self.now path.now (record { line = line; column = column }) }
    {
        match self.named(path) {
            Some(named) => {
                self.occurrence_in(named.number, named.document, Position { line, column })
            }
            None => None,
        }
    }

    /// The symbol at a position of the document that a path names.
    pub(crate) fn subject_at(&self, path: &str, position: Position) -> Result<Subject<'_>, Miss>
        ensures is { result_map_both subject_view (λ (miss : Miss). miss) result ≡ subject_at self.now path.now
            position }
        ensures listed { IfOk result (λ subject. slice_get self.now.documents subject.asked.number
            ≡ Some subject.asked.document.now) }
    {
        let Some(asked) = self.named(path) else {
            return Err(Miss::NoDocument);
        };
        match self.occurrence_in(asked.number, asked.document, position) {
            Some(occurrence) => Ok(Subject {
                asked,
                symbol: occurrence.symbol.as_str(),
            }),
            None => Err(Miss::NothingThere),
        }
    }

    /// The places with a symbol, in the index's order.
    fn places_with(&self, symbol: &str) -> &[Place]
        ensures { result.now ≡ filter (λ (place : Place). is_eq (slice_cmp nat_cmp
            (symbol_listed self.now.documents place) symbol.now)) (places_from 0 self.now.documents) }
    {
        places_of(self.documents(), self.tables.by_symbol.as_slice(), symbol)
    }

    /// As `places_with`. They are looked for first behind so many.
    fn places_near(&self, near: usize, symbol: &str) -> &[Place]
        ensures { result.now ≡ filter (λ (place : Place). is_eq (slice_cmp nat_cmp
            (symbol_listed self.now.documents place) symbol.now)) (places_from 0 self.now.documents) }
    {
        places_near(
            self.documents(),
            self.tables.by_symbol.as_slice(),
            near,
            symbol,
        )
    }

    /// Those of the places with a subject's symbol that are the subject's.
    fn among<'a>(&'a self, subject: &Subject<'_>, places: &'a [Place]) -> &'a [Place]
        requires { places.now ≡ filter (λ (place : Place). is_eq (slice_cmp nat_cmp
            (symbol_listed self.now.documents place) subject.now.symbol.now)) (places_from 0 self.now.documents) }
        ensures { result.now ≡ map (λ (site : Site). site.place) (references_of self.now (subject_view subject.now)) }
    {
        if is_local(subject.symbol) {
            places_in(places, subject.asked.number)
        } else {
            places
        }
    }

    /// The places of a subject's occurrences, in the index's order.
    pub(crate) fn places_about(&self, subject: &Subject<'_>) -> &[Place]
        ensures { result.now ≡ map (λ (site : Site). site.place) (references_of self.now (subject_view subject.now)) }
    {
        self.among(subject, self.places_with(subject.symbol))
    }

    /// The same. They are looked for first behind so many places.
    pub(crate) fn places_about_near(&self, near: usize, subject: &Subject<'_>) -> &[Place]
        ensures { result.now ≡ map (λ (site : Site). site.place) (references_of self.now (subject_view subject.now)) }
    {
        self.among(subject, self.places_near(near, subject.symbol))
    }

    /// The places of all occurrences, those of one symbol one after another, in the order of the symbols' bytes.
    pub fn places_by_symbol(&self) -> &[Place]
        ensures { IsBySymbol self.now.documents result.now }
    {
        self.tables.by_symbol.as_slice()
    }

    /// The places of the symbol entries with a symbol, those of external symbols last.
    pub(crate) fn entry_places_with(&self, symbol: &str) -> &[EntryPlace]
        ensures { result.now ≡ filter (λ (place : EntryPlace). is_eq (slice_cmp nat_cmp
            (entry_symbol_listed self.now place) symbol.now)) (entry_places_from 0 self.now.external_symbols
            self.now.documents) }
    {
        entry_places_of(
            &self.index,
            self.tables.entries_by_symbol.as_slice(),
            symbol,
        )
    }

    /// As `entry_places_with`. They are looked for first behind so many; with them comes behind how many they are.
    pub(crate) fn entry_places_near(&self, near: usize, symbol: &str) -> (usize, &[EntryPlace])
        ensures { result.1.now ≡ filter (λ (place : EntryPlace). is_eq (slice_cmp nat_cmp
            (entry_symbol_listed self.now place) symbol.now)) (entry_places_from 0 self.now.external_symbols
            self.now.documents) }
    {
        entry_places_near(
            &self.index,
            self.tables.entries_by_symbol.as_slice(),
            near,
            symbol,
        )
    }

    /// The symbol entry at the first of some places.
    pub(crate) fn first_entry(&self, places: &[EntryPlace]) -> Option<&SymbolInformation>
        ensures { option_copied result ≡ option_and_then (entry_listed self.now) (slice_get places.now 0) }
    {
        match places.first() {
            Some(place) => entry_listed(&self.index, *place),
            None => None,
        }
    }
}
