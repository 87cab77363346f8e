//! What is wrong with an index.

ghost use Rattle.std.specs.Prelude.{◌≡◌, ◌++◌, IfOk, OnOk, map, option_copied};
ghost use Rattle.std.specs.List.{enumerate_from, find, flat_map};
ghost use Rattle.std.specs.Option.{is_none};
ghost use Rattle.scip_query.specs.Tables.{defines_listed};
ghost use Rattle.scip_pages.specs.Columns.{unit_of};
ghost use Rattle.scip_survey.specs.Flaws as spec;
ghost use Rattle.scip_survey.specs.Views.{document_view, flawed_view};

use scip_pages::{is_definition, unit_of};
use scip_query::{Place, Queries, compare_positions, defines_listed, end_of, start_of};
use scip_records::{Document, Occurrence, Range};
use std::alloc::{AllocError, Global};

/// What is wrong.
#[derive(Clone, Copy, Debug, PartialEq, Eq)]
pub enum Flaw {
    /// An earlier document has the document's path.
    RepeatedPath,
    /// A document doesn't say its language.
    NoLanguage,
    /// A document doesn't say what its columns count.
    NoUnit,
    /// An occurrence ends before it begins.
    RangeBackwards,
    /// An occurrence isn't in the range that is said to enclose it.
    RangeOutside,
    /// No entry has an occurrence's symbol.
    NoEntry,
    /// An occurrence defines a symbol that an earlier one defines.
    TwoDefinitions,
}

/// What is wrong, and where.
#[derive(Clone, Copy, Debug)]
pub struct Flawed<'a> {
    /// What is wrong.
    pub flaw: Flaw,
    /// The document's path.
    pub path: &'a str,
    /// The occurrence, if it is one's.
    pub occurrence: Option<&'a Occurrence>,
}

/// A document of an index, and its number.
#[derive(Clone, Copy)]
struct Looked<'a> {
    queries: &'a Queries,
    number: usize,
    document: &'a Document,
}

/// Appends that something is wrong, if it is.
fn push_if<'a>(
    flaws: &mut Vec<Flawed<'a>>,
    is_wrong: bool,
    flaw: Flaw,
    looked: Looked<'a>,
    occurrence: Option<&'a Occurrence>,
) -> Result<(), AllocError>
    ensures { OnOk result (map flawed_view flaws.new.items ≡ map flawed_view flaws.old.items
        ++ spec.flawed_if is_wrong flaw (document_view looked.entry) (option_copied occurrence.entry)) }
{
    if is_wrong {
        flaws.push(Flawed {
            flaw,
            path: looked.document.relative_path.as_str(),
            occurrence,
        })?;
    }
    Ok(())
}

/// Whether an earlier document has the document's path.
fn is_repeated(looked: Looked<'_>) -> bool
    ensures { result ≡ spec.is_repeated looked.entry.queries.now (document_view looked.entry) }
{
    let path = looked.document.relative_path.as_str();
    match looked.queries.document_number(path) {
        Some(number) => number != looked.number,
        None => false,
    }
}

/// Whether the document doesn't say what its columns count.
fn lacks_unit(document: &Document) -> bool
    ensures { result ≡ is_none (unit_of document.now.position_encoding) }
{
    unit_of(document.position_encoding).is_none()
}

/// Whether a range ends before it begins.
fn is_backwards(range: Range) -> bool
    ensures { result ≡ spec.is_backwards range }
{
    compare_positions(end_of(range), start_of(range)).is_lt()
}

/// Whether an occurrence isn't in the range that is said to enclose it.
fn is_outside(occurrence: &Occurrence) -> bool
    ensures { result ≡ spec.is_outside_of occurrence.now.range occurrence.now.enclosing_range }
{
    match occurrence.enclosing_range {
        Some(whole) => {
            compare_positions(start_of(occurrence.range), start_of(whole)).is_lt()
                || compare_positions(end_of(whole), end_of(occurrence.range)).is_lt()
        }
        None => false,
    }
}

/// Whether an index has to say something of a symbol.
fn wants_entry(symbol: &str) -> bool
    ensures { result ≡ spec.wants_entry symbol.now }
{
    !symbol.is_empty() && !symbol.as_bytes().ends_with(b"/")
}

/// Whether no entry has the symbol of an occurrence.
fn lacks_entry(looked: Looked<'_>, occurrence: &Occurrence) -> bool
    ensures { result ≡ spec.lacks_entry looked.entry.queries.now (document_view looked.entry) occurrence.now }
{
    let symbol = occurrence.symbol.as_str();
    if !wants_entry(symbol) {
        return false;
    }
    looked.queries.entry_in(looked.number, symbol).is_none()
}

/// Whether a place is another one than this.
fn is_elsewhere(place: Option<&Place>, document: usize, occurrence: usize) -> bool
    ensures { result ≡ spec.is_elsewhere document occurrence (option_copied place.entry) }
{
    match place {
        Some(place) => !(place.document == document && place.occurrence == occurrence),
        None => false,
    }
}

/// The first of some places where a symbol is defined.
fn first_defining<'a>(documents: &[Document], places: &'a [Place]) -> Option<&'a Place>
    ensures { option_copied result ≡ find (defines_listed documents.now) places.now }
{
    places
        .iter()
        .find(|place| defines_listed(documents, **place))
}

/// Whether the first definition of a symbol is elsewhere.
fn is_first_elsewhere(looked: Looked<'_>, number: usize, symbol: &str) -> bool
    ensures { result ≡ spec.is_elsewhere looked.entry.number number (spec.first_definition looked.entry.queries.now
        (document_view looked.entry) symbol.now) }
{
    let documents = looked.queries.documents();
    let places = looked.queries.references_in(looked.number, symbol);
    is_elsewhere(first_defining(documents, places), looked.number, number)
}

/// Whether the occurrence with a number defines a symbol that an earlier one defines.
fn is_defined_again(looked: Looked<'_>, number: usize, occurrence: &Occurrence) -> bool
    ensures { result ≡ spec.is_defined_again looked.entry.queries.now (document_view looked.entry)
        (number, occurrence.now) }
{
    let symbol = occurrence.symbol.as_str();
    is_definition(occurrence) && wants_entry(symbol) && is_first_elsewhere(looked, number, symbol)
}

/// Appends what is wrong with the occurrence with a number.
fn push_occurrence_flaws<'a>(
    flaws: &mut Vec<Flawed<'a>>,
    looked: Looked<'a>,
    number: usize,
    occurrence: &'a Occurrence,
) -> Result<(), AllocError>
    ensures { OnOk result (map flawed_view flaws.new.items ≡ map flawed_view flaws.old.items
        ++ spec.occurrence_flaws looked.entry.queries.now (document_view looked.entry) (number, occurrence.entry.now)) }
{
    let at = Some(occurrence);
    let backwards = is_backwards(occurrence.range);
    push_if(flaws, backwards, Flaw::RangeBackwards, looked, at)?;
    push_if(
        flaws,
        is_outside(occurrence),
        Flaw::RangeOutside,
        looked,
        at,
    )?;
    let lacks = lacks_entry(looked, occurrence);
    push_if(flaws, lacks, Flaw::NoEntry, looked, at)?;
    let again = is_defined_again(looked, number, occurrence);
    push_if(flaws, again, Flaw::TwoDefinitions, looked, at)
}

/// Appends what is wrong with the occurrences of a document.
fn push_all_occurrences<'a>(
    flaws: &mut Vec<Flawed<'a>>,
    looked: Looked<'a>,
) -> Result<(), AllocError>
    ensures { OnOk result (map flawed_view flaws.new.items ≡ map flawed_view flaws.old.items
        ++ flat_map (spec.occurrence_flaws looked.entry.queries.now (document_view looked.entry))
        (enumerate_from 0 looked.entry.document.now.occurrences)) }
{
    let occurrences = looked.document.occurrences.as_slice();
    for (number, occurrence) in occurrences.iter().enumerate() {
        push_occurrence_flaws(flaws, looked, number, occurrence)?;
    }
    Ok(())
}

/// Appends what is wrong with a document and its occurrences.
fn push_document_flaws<'a>(
    flaws: &mut Vec<Flawed<'a>>,
    looked: Looked<'a>,
) -> Result<(), AllocError>
    ensures { OnOk result (map flawed_view flaws.new.items ≡ map flawed_view flaws.old.items
        ++ spec.document_flaws looked.entry.queries.now (document_view looked.entry)) }
{
    let has_no_language = looked.document.language.as_str().is_empty();
    push_if(flaws, is_repeated(looked), Flaw::RepeatedPath, looked, None)?;
    push_if(flaws, has_no_language, Flaw::NoLanguage, looked, None)?;
    let lacks = lacks_unit(looked.document);
    push_if(flaws, lacks, Flaw::NoUnit, looked, None)?;
    push_all_occurrences(flaws, looked)
}

/// What is wrong with an index, in its order: of each document first what is wrong with it, and then with its
/// occurrences.
pub fn flaws_of(alloc: Global, queries: &Queries) -> Result<Vec<Flawed<'_>>, AllocError>
    ensures { IfOk result (λ flaws. map flawed_view flaws.items ≡ spec.flaws_of queries.entry.now) }
{
    let mut flaws = Vec::new(alloc);
    let documents = queries.documents();
    for (number, document) in documents.iter().enumerate() {
        let looked = Looked {
            queries,
            number,
            document,
        };
        push_document_flaws(&mut flaws, looked)?;
    }
    Ok(flaws)
}
