//! Definitions, references, documentation and symbols.

ghost use Rattle.std.specs.Prelude.{◌≡◌, ℕ, List, Some, IfOk, IfSome, map, filter, option_copied};
ghost use Rattle.std.specs.Borrow.{Bor};
ghost use Rattle.std.specs.List.{find, slice_get};
ghost use Rattle.std.specs.Option.{option_map};
ghost use Rattle.std.specs.Str.{bytes_eq};
ghost use Rattle.scip_records.specs.declared.records.SymbolInformation.{SymbolInformation};
ghost use Rattle.scip_query.specs.Sites.{Site};
ghost use Rattle.scip_query.specs.References.{references_at, definitions_of, definitions_at, site_places};
ghost use Rattle.scip_query.specs.Documentation.{entries_for, texts_of, documentation_at, symbols_of};
ghost use Rattle.scip_query.specs.BySymbol.{subject_in, references_in, entry_in};
ghost use Rattle.scip_query.specs.Outcomes.{Gives};
ghost use Rattle.std.specs.Ordering.{nat_cmp, is_eq};
ghost use Rattle.std.specs.Cmp.Lexicographic.{slice_cmp};
ghost use Rattle.scip_query.specs.declared.place.EntryPlace.{EntryPlace};
ghost use Rattle.scip_query.specs.Tables.{defines_listed};
ghost use Rattle.scip_query.specs.Tables.Searches.{entry_symbol_listed, entry_places_from};
ghost use Rattle.scip_query.specs.Views.{subject_view};

use crate::listed::occurrence_listed;
use crate::place::{EntryPlace, Place};
use crate::position::Position;
use crate::queries::{Named, Queries, Subject, is_local};
use crate::query_fault::{QueryFault, fault_of};
use crate::search::entry_places_in;
use basics::OwnedText;
use scip_records::{Document, SymbolInformation};
use std::alloc::{AllocError, Global};

/// The role of a definition (`scip.proto`, `SymbolRole`).
pub(crate) const DEFINITION: i32 = 1;

/// Whether the occurrence at a place is a definition.
pub fn defines_listed(documents: &[Document], place: Place) -> bool
    ensures { result ≡ defines_listed documents.now place }
{
    match occurrence_listed(documents, place) {
        Some(occurrence) => occurrence.symbol_roles & DEFINITION != 0,
        None => false,
    }
}

/// Those of some places where a symbol is defined.
fn defining(
    alloc: Global,
    documents: &[Document],
    places: &[Place],
) -> Result<Vec<Place>, AllocError>
    ensures { IfOk result (λ found. found.items ≡ filter (defines_listed documents.now) places.now) }
{
    let mut found = Vec::new(alloc);
    for place in places {
        if defines_listed(documents, *place) {
            found.push(*place)?;
        }
    }
    Ok(found)
}

/// The texts of an entry's documentation; none if there is no entry.
pub fn texts_of(entry: Option<&SymbolInformation>) -> &[OwnedText]
    ensures { result.now ≡ texts_of (option_copied entry.entry) }
{
    match entry {
        Some(entry) => entry.documentation.as_slice(),
        None => &[],
    }
}

/// These texts, each as it is.
fn texts_in(alloc: Global, documentation: &[OwnedText]) -> Result<Vec<&str>, AllocError>
    ensures { IfOk result (λ texts. map (λ (text : Bor (List ℕ)). text.now) texts.items ≡ documentation.now) }
{
    let mut texts = Vec::with_capacity(alloc, documentation.len())?;
    for text in documentation {
        texts.push(text.as_str())?;
    }
    Ok(texts)
}

/// The symbol entries of a document.
fn entries_of(alloc: Global, document: &Document) -> Result<Vec<&SymbolInformation>, AllocError>
    ensures { IfOk result (λ entries. map (λ (entry : Bor SymbolInformation). entry.now) entries.items
        ≡ document.now.symbols) }
{
    let symbols = document.symbols.as_slice();
    let mut entries = Vec::with_capacity(alloc, symbols.len())?;
    for entry in symbols {
        entries.push(entry)?;
    }
    Ok(entries)
}

impl Queries {
    /// Those places of a subject where it is defined.
    fn definitions_of(&self, alloc: Global, subject: &Subject<'_>) -> Result<Vec<Place>, AllocError>
        ensures { IfOk result (λ places. places.items ≡ map (λ (site : Site). site.place)
            (definitions_of self.now (subject_view subject.now))) }
    {
        defining(alloc, self.documents(), self.places_about(subject))
    }

    /// The first entry of a subject, of the places of the entries with its symbol.
    fn entry_among(
        &self,
        subject: &Subject<'_>,
        places: &[EntryPlace],
    ) -> Option<&SymbolInformation>
        requires listed { slice_get self.now.documents subject.now.asked.number ≡ Some subject.now.asked.document.now }
        requires places { places.now ≡ filter (λ (place : EntryPlace). is_eq (slice_cmp nat_cmp
            (entry_symbol_listed self.now place) subject.now.symbol.now)) (entry_places_from 0
            self.now.external_symbols self.now.documents) }
        ensures { option_copied result ≡ find (λ (entry : SymbolInformation). bytes_eq entry.symbol
            subject.now.symbol.now) (entries_for self.now (subject_view subject.now)) }
    {
        if is_local(subject.symbol) {
            self.first_entry(entry_places_in(places, subject.asked.number))
        } else {
            self.first_entry(places)
        }
    }

    /// The entry in which a subject's documentation is: the first with its symbol, in the documents in their order
    /// and then among the external symbols; a local symbol is looked for only in its document.
    pub(crate) fn entry_of(&self, subject: &Subject<'_>) -> Option<&SymbolInformation>
        requires { slice_get self.now.documents subject.now.asked.number ≡ Some subject.now.asked.document.now }
        ensures { option_copied result ≡ find (λ (entry : SymbolInformation). bytes_eq entry.symbol
            subject.now.symbol.now) (entries_for self.now (subject_view subject.now)) }
    {
        self.entry_among(subject, self.entry_places_with(subject.symbol))
    }

    /// The same. It is looked for first behind so many entries; with it comes behind how many to look for the next
    /// symbol's.
    fn entry_near(&self, near: usize, subject: &Subject<'_>) -> (usize, Option<&SymbolInformation>)
        requires { slice_get self.now.documents subject.now.asked.number ≡ Some subject.now.asked.document.now }
        ensures { option_copied result.1 ≡ find (λ (entry : SymbolInformation). bytes_eq entry.symbol
            subject.now.symbol.now) (entries_for self.now (subject_view subject.now)) }
    {
        let (from, places) = self.entry_places_near(near, subject.symbol);
        (from, self.entry_among(subject, places))
    }

    /// The places of all occurrences of the symbol at a position, definitions included, in the index's order. A local
    /// symbol is looked for only in its document.
    ///
    /// - `NoDocument`: no document has the path.
    /// - `NothingThere`: no occurrence with a symbol has a range that contains the position.
    /// - `Memory`: there is an answer, but no memory for it.
    pub fn references(
        &self,
        alloc: Global,
        path: &str,
        line: u32,
        column: u32,
    ) -> Result<Vec<Place>, QueryFault>
        ensures { Gives (λ places. places.items) result (site_places (references_at self.now path.now
            (record { line = line; column = column }))) }
    {
        match self.subject_at(path, Position { line, column }) {
            Ok(subject) => Ok(Vec::from_slice(alloc, self.places_about(&subject))?),
            Err(miss) => Err(fault_of(miss)),
        }
    }

    /// The places where the symbol at a position is defined: those of its references whose role has the bit of a
    /// definition. The refusals are those of `references`.
    pub fn definitions(
        &self,
        alloc: Global,
        path: &str,
        line: u32,
        column: u32,
    ) -> Result<Vec<Place>, QueryFault>
        ensures { Gives (λ places. places.items) result (site_places (definitions_at self.now path.now
            (record { line = line; column = column }))) }
    {
        match self.subject_at(path, Position { line, column }) {
            Ok(subject) => Ok(self.definitions_of(alloc, &subject)?),
            Err(miss) => Err(fault_of(miss)),
        }
    }

    /// The documentation of the symbol at a position: the texts of its first entry; none if it has no entry. Entries
    /// are looked for in the documents in their order, and then among the external symbols; those of a local symbol
    /// only in its document. The refusals are those of `references`.
    pub fn documentation(
        &self,
        alloc: Global,
        path: &str,
        line: u32,
        column: u32,
    ) -> Result<Vec<&str>, QueryFault>
        ensures { Gives (λ texts. map (λ (text : Bor (List ℕ)). text.now) texts.items) result
            (documentation_at self.now path.now (record { line = line; column = column })) }
    {
        match self.subject_at(path, Position { line, column }) {
            Ok(subject) => Ok(texts_in(alloc, texts_of(self.entry_of(&subject)))?),
            Err(miss) => Err(fault_of(miss)),
        }
    }

    /// The symbol entries of the document that a path names, in its order.
    ///
    /// - `NoDocument`: no document has the path.
    /// - `Memory`: there is an answer, but no memory for it.
    ///
    /// `NothingThere` never comes.
    pub fn symbols(&self, alloc: Global, path: &str) -> Result<Vec<&SymbolInformation>, QueryFault>
        ensures { Gives (λ entries. map (λ (entry : Bor SymbolInformation). entry.now) entries.items) result
            (symbols_of self.now path.now) }
    {
        match self.named(path) {
            Some(named) => Ok(entries_of(alloc, named.document)?),
            None => Err(QueryFault::NoDocument),
        }
    }

    /// A symbol as it is asked for in the document with a number, if there is one.
    fn subject_in<'a>(&'a self, document: usize, symbol: &'a str) -> Option<Subject<'a>>
        ensures is { option_map subject_view result ≡ subject_in self.now document symbol.now }
        ensures listed { IfSome result (λ subject. slice_get self.now.documents subject.asked.number
            ≡ Some subject.asked.document.now) }
    {
        match self.documents().get(document) {
            Some(found) => Some(Subject {
                asked: Named {
                    number: document,
                    document: found,
                },
                symbol,
            }),
            None => None,
        }
    }

    /// The places of all occurrences of a symbol, asked for in the document with this number, in the index's order. A
    /// local symbol is looked for only in that document; if the index has no such document, it has no places.
    pub fn references_in(&self, document: usize, symbol: &str) -> &[Place]
        ensures { result.now ≡ references_in self.now document symbol.now }
    {
        match self.subject_in(document, symbol) {
            Some(subject) => self.places_about(&subject),
            None => &[],
        }
    }

    /// The same places. They are looked for first behind so many of `places_by_symbol`: a caller that goes through them
    /// finds those of each symbol at once.
    pub fn references_near(&self, near: usize, document: usize, symbol: &str) -> &[Place]
        ensures { result.now ≡ references_in self.now document symbol.now }
    {
        match self.subject_in(document, symbol) {
            Some(subject) => self.places_about_near(near, &subject),
            None => &[],
        }
    }

    /// The first entry of a symbol, asked for in the document with this number. Entries are looked for as by
    /// `documentation`. None if there is no entry, or the index has no such document.
    pub fn entry_in(&self, document: usize, symbol: &str) -> Option<&SymbolInformation>
        ensures { option_copied result ≡ entry_in self.now document symbol.now }
    {
        match self.subject_in(document, symbol) {
            Some(subject) => self.entry_of(&subject),
            None => None,
        }
    }

    /// The same entry. It is looked for first behind so many symbol entries, in the order of their symbols' bytes; with
    /// it comes behind how many to look for that of the next symbol.
    pub fn entry_in_near(
        &self,
        near: usize,
        document: usize,
        symbol: &str,
    ) -> (usize, Option<&SymbolInformation>)
        ensures { option_copied result.1 ≡ entry_in self.now document symbol.now }
    {
        match self.subject_in(document, symbol) {
            Some(subject) => self.entry_near(near, &subject),
            None => (near, None),
        }
    }
}
