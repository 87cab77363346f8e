//! The outline of a document.

ghost use Rattle.std.specs.Prelude.{ℕ, ◌+◌, ◌≡◌, ◌++◌, ◌<◌, ◌≤◌, ◌&&◌, List, Some, IfOk, OnOk, length, take, drop, map};
ghost use Rattle.std.specs.Prelude.{filter};
ghost use Rattle.std.specs.Option.{is_some};
ghost use Rattle.std.specs.List.{slice_get};
ghost use Rattle.std.specs.Ordering.{nat_cmp};
ghost use Rattle.std.specs.Cmp.Lexicographic.{slice_cmp};
ghost use Rattle.scip_records.specs.declared.records.Document.{Document};
ghost use Rattle.scip_query.specs.CommandViews.{text_of};
ghost use Rattle.scip_query.specs.Outline.{
  defines,
  defined_symbols,
  ends_descriptor,
  ends_descriptor_at,
  is_defined,
  depth_in,
  outlined,
  outlined_cmp,
  outline_of,
};
ghost use Rattle.scip_query.specs.Outcomes.{Gives};
ghost use Rattle.scip_query.specs.Sorting.{sorted_by};
ghost use Rattle.scip_query.specs.Tables.Outlines.{AreDefinedIn, BeginIn, defined_symbol, outlined_at};
ghost use Rattle.scip_query.specs.MoreViews.{outlined_view};
ghost use Rattle.scip_query.specs.Views.{named_view};

use crate::lookups::DEFINITION;
use crate::names::more_by;
use crate::position::compare_starts;
use crate::queries::{Named, Queries, Subject};
use crate::query_fault::QueryFault;
use crate::run::run_of;
use scip_records::{Document, Occurrence};
use std::alloc::{AllocError, Global};
use std::cmp::Ordering;

/// A definition in an outline.
#[derive(Clone, Copy, Debug)]
pub struct Outlined<'a> {
    /// How many symbols around its own the document defines: those with which it begins, up to a descriptor's end.
    pub depth: usize,
    /// The symbol's kind (`scip.proto`, `SymbolInformation.Kind`); 0 if that isn't known.
    pub kind: i32,
    /// The definition.
    pub occurrence: &'a Occurrence,
}

/// Whether an occurrence defines a symbol.
pub(crate) fn defines(occurrence: &Occurrence) -> bool
    ensures { result ≡ defines occurrence.now }
{
    occurrence.symbol_roles & DEFINITION != 0 && !occurrence.symbol.as_str().is_empty()
}

/// Appends the symbol of an occurrence, if it defines that.
fn push_defined<'a>(
    symbols: &mut Vec<&'a str>,
    occurrence: &'a Occurrence,
) -> Result<(), AllocError>
    ensures { OnOk result (map text_of symbols.new.items ≡ map text_of symbols.old.items ++ defined_symbol
        occurrence.now) }
{
    if defines(occurrence) {
        symbols.push(occurrence.symbol.as_str())?;
    }
    Ok(())
}

/// The symbols that a document defines.
fn defined_symbols(alloc: Global, document: &Document) -> Result<Vec<&str>, AllocError>
    ensures { IfOk result (λ symbols. map text_of symbols.items ≡ defined_symbols document.now) }
{
    let mut symbols = Vec::new(alloc);
    for occurrence in document.occurrences.as_slice() {
        push_defined(&mut symbols, occurrence)?;
    }
    Ok(symbols)
}

/// By their bytes.
fn compare_texts(a: &str, b: &str) -> Ordering
    ensures { result ≡ slice_cmp nat_cmp a.now b.now }
{
    a.cmp(b)
}

/// The same, sorted.
fn table_of(alloc: Global, document: &Document) -> Result<Vec<&str>, AllocError>
    ensures { IfOk result (λ table. AreDefinedIn document.now table.items) }
{
    let mut symbols = defined_symbols(alloc, document)?;
    symbols.sort_by(|a, b| compare_texts(*a, *b))?;
    Ok(symbols)
}

/// Whether a sign ends a descriptor.
fn ends_descriptor(byte: u8) -> bool
    ensures { result ≡ ends_descriptor byte }
{
    matches!(byte, b'/' | b'#' | b'.' | b':' | b'!' | b']' | b')')
}

/// Whether the byte of a symbol with a number ends a descriptor.
fn ends_at(symbol: &[u8], number: usize) -> bool
    ensures { result ≡ ends_descriptor_at (slice_get symbol.now number) }
{
    match symbol.get(number) {
        Some(byte) => ends_descriptor(*byte),
        None => false,
    }
}

/// Whether a descriptor ends with the byte of a symbol with a number, and the symbol goes on behind that.
fn goes_on(symbol: &[u8], number: usize) -> bool
    requires { number < length symbol.now }
    ensures { result ≡ (ends_descriptor_at (slice_get symbol.now number) && is_some (slice_get symbol.now (number + 1))) }
{
    if ends_at(symbol, number) {
        match symbol.get(number + 1) {
            Some(_) => true,
            None => false,
        }
    } else {
        false
    }
}

/// The bytes of a text from one number to another.
fn piece_of(text: &[u8], from: usize, end: usize) -> &[u8]
    ensures { result.now ≡ drop from (take end text.now) }
{
    let front = text.split_at(end.min(text.len())).0;
    front.split_at(from.min(front.len())).1
}

/// Of the symbols that begin as a symbol up to a byte, those that do up to a later one. Only what is between the two
/// is compared.
fn narrowed<'a, 'b>(run: &'a [&'b str], symbol: &[u8], from: usize, end: usize) -> &'a [&'b str]
    requires { from ≤ end }
    ensures { (d : Document) → BeginIn d symbol.now from run.now → BeginIn d symbol.now end result.now }
{
    let piece = piece_of(symbol, from, end);
    run_of(run, |text| piece_of(text.as_bytes(), from, end).cmp(piece))
}

/// Whether so many bytes, with which some symbols that are sorted begin, are themselves one of them.
fn is_first(run: &[&str], end: usize) -> bool
    ensures { (d : Document) (symbol : List ℕ) → BeginIn d symbol end run.now → end ≤ length symbol → result
        ≡ is_defined d (take end symbol) }
{
    match run {
        [first, ..] => first.len() == end,
        [] => false,
    }
}

/// How many symbols around a symbol are among those that are sorted.
fn depth_in(table: &[&str], symbol: &[u8]) -> usize
    ensures { (d : Document) → AreDefinedIn d table.now → result ≡ depth_in d symbol.now }
{
    let mut depth = 0;
    let mut run = table;
    let mut from = 0;
    for number in 0..symbol.len() {
        if goes_on(symbol, number) {
            run = narrowed(run, symbol, from, number + 1);
            from = number + 1;
            depth = more_by(depth, is_first(run, from));
        }
    }
    depth
}

/// Sorts definitions by where they begin.
fn sort_outline(outline: &mut Vec<Outlined<'_>>) -> Result<(), AllocError>
    ensures { OnOk result (map outlined_view outline.new.items ≡ sorted_by outlined_cmp (map outlined_view
        outline.old.items)) }
{
    outline.sort_by(|a, b| compare_starts(a.occurrence, b.occurrence))
}

impl Queries {
    /// A definition of a document.
    fn outlined<'a>(
        &'a self,
        named: Named<'a>,
        table: &[&str],
        occurrence: &'a Occurrence,
    ) -> Outlined<'a>
        requires listed { slice_get self.now.documents named.number ≡ Some named.document.now }
        requires table { AreDefinedIn named.document.now table.now }
        ensures { outlined_view result ≡ outlined self.now (named_view named.entry) occurrence.now }
    {
        let symbol = occurrence.symbol.as_str();
        let subject = Subject {
            asked: named,
            symbol,
        };
        Outlined {
            depth: depth_in(table, symbol.as_bytes()),
            kind: self.kind_of(&subject),
            occurrence,
        }
    }

    /// Appends an occurrence, if it defines a symbol.
    fn push_outlined<'a>(
        &'a self,
        outline: &mut Vec<Outlined<'a>>,
        named: Named<'a>,
        table: &[&str],
        occurrence: &'a Occurrence,
    ) -> Result<(), AllocError>
        requires listed { slice_get self.now.documents named.number ≡ Some named.document.now }
        requires table { AreDefinedIn named.document.now table.now }
        ensures { OnOk result (map outlined_view outline.new.items ≡ map outlined_view outline.old.items ++ outlined_at
            self.now (named_view named.entry) occurrence.now) }
    {
        if defines(occurrence) {
            outline.push(self.outlined(named, table, occurrence))?;
        }
        Ok(())
    }

    /// The definitions of a document, in its order.
    fn outline_in<'a>(
        &'a self,
        alloc: Global,
        named: Named<'a>,
    ) -> Result<Vec<Outlined<'a>>, AllocError>
        requires listed { slice_get self.now.documents named.number ≡ Some named.document.now }
        ensures { IfOk result (λ outline. map outlined_view outline.items
            ≡ map (outlined self.now (named_view named.entry)) (filter defines named.entry.document.now.occurrences)) }
    {
        let table = table_of(alloc, named.document)?;
        let mut outline = Vec::new(alloc);
        for occurrence in named.document.occurrences.as_slice() {
            self.push_outlined(&mut outline, named, table.as_slice(), occurrence)?;
        }
        Ok(outline)
    }

    /// What the document that a path names defines, in order of place; what begins at one place is in the document's
    /// order. An occurrence without a symbol defines nothing.
    ///
    /// - `NoDocument`: no document has the path.
    /// - `Memory`: there is an answer, but no memory for it.
    ///
    /// `NothingThere` never comes.
    pub fn outline(&self, alloc: Global, path: &str) -> Result<Vec<Outlined<'_>>, QueryFault>
        ensures { Gives (λ outline. map outlined_view outline.items) result (outline_of self.now path.now) }
    {
        match self.named(path) {
            Some(named) => {
                let mut outline = self.outline_in(alloc, named)?;
                sort_outline(&mut outline)?;
                Ok(outline)
            }
            None => Err(QueryFault::NoDocument),
        }
    }
}
