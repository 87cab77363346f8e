//! How much an index has.

ghost use Rattle.std.specs.Prelude.{◌≡◌, ◌+◌, IfOk, IsTrue};
ghost use Rattle.std.specs.String.{string_bytes};
ghost use Rattle.serde_json.specs.View.{view};
ghost use Rattle.scip_survey.specs.Counts as spec;

use scip_pages::is_definition;
use scip_query::{Queries, json_line_of};
use scip_records::Document;
use serde_json::{Value, json};
use std::alloc::{AllocError, Global};

/// How much an index has. A count past 2^64 - 1 is that.
#[derive(Clone, Copy, Debug, PartialEq, Eq)]
pub struct Counts {
    /// How many documents.
    pub documents: usize,
    /// How many occurrences in all of them.
    pub occurrences: usize,
    /// How many of these define a symbol.
    pub definitions: usize,
    /// How many symbol entries in all documents.
    pub symbols: usize,
    /// How many entries of symbols that no document defines.
    pub external_symbols: usize,
}

/// So many more.
fn more_by(count: usize, more: usize) -> usize
    ensures { result ≡ spec.counted (count + more) }
{
    count.saturating_add(more)
}

/// How many occurrences documents have.
fn count_occurrences(documents: &[Document]) -> usize
    ensures { result ≡ spec.counted_in spec.occurrences_in documents.now }
{
    let mut count: usize = 0;
    for document in documents {
        count = more_by(count, document.occurrences.as_slice().len());
    }
    count
}

/// How many occurrences of a document define a symbol.
fn definitions_in(document: &Document) -> usize
    ensures { result ≡ spec.definitions_in document.now }
{
    let occurrences = document.occurrences.as_slice();
    occurrences
        .iter()
        .filter(|occurrence| is_definition(*occurrence))
        .count()
}

/// How many occurrences of documents define a symbol.
fn count_definitions(documents: &[Document]) -> usize
    ensures { result ≡ spec.counted_in spec.definitions_in documents.now }
{
    let mut count: usize = 0;
    for document in documents {
        count = more_by(count, definitions_in(document));
    }
    count
}

/// How many symbol entries documents have.
fn count_symbols(documents: &[Document]) -> usize
    ensures { result ≡ spec.counted_in spec.symbols_in documents.now }
{
    let mut count: usize = 0;
    for document in documents {
        count = more_by(count, document.symbols.as_slice().len());
    }
    count
}

/// How much an index has.
pub fn counts_of(queries: &Queries) -> Counts
    ensures { result ≡ spec.counts_of queries.now }
{
    let documents = queries.documents();
    Counts {
        documents: documents.len(),
        occurrences: count_occurrences(documents),
        definitions: count_definitions(documents),
        symbols: count_symbols(documents),
        external_symbols: queries.external_symbols().len(),
    }
}

/// The value of counts.
fn counts_value(alloc: Global, counts: &Counts) -> Result<Value, AllocError>
    ensures { IfOk result (λ value. view value ≡ spec.counts_value counts.now) }
{
    json!(in alloc; {
        "definitions": counts.definitions,
        "documents": counts.documents,
        "external_symbols": counts.external_symbols,
        "occurrences": counts.occurrences,
        "symbols": counts.symbols
    })
}

/// The lines of counts.
fn counts_lines(alloc: Global, counts: &Counts) -> Result<String, AllocError>
    ensures { IfOk result (λ text. string_bytes text ≡ spec.counts_lines counts.now) }
{
    let (documents, occurrences) = (counts.documents, counts.occurrences);
    let (definitions, symbols) = (counts.definitions, counts.symbols);
    let external = counts.external_symbols;
    let mut text = String::new(alloc);
    writeln!(text, "documents: {documents}")?;
    writeln!(text, "occurrences: {occurrences}")?;
    writeln!(text, "definitions: {definitions}")?;
    writeln!(text, "symbols: {symbols}")?;
    writeln!(text, "external symbols: {external}")?;
    Ok(text)
}

/// A line for each count, or all of them as an object of JSON on one line.
pub fn counts_text(alloc: Global, json: bool, counts: &Counts) -> Result<String, AllocError>
    ensures text { IfOk result (λ text. string_bytes text ≡ spec.counts_text json counts.now) }
    ensures reads_back { IfOk result (λ _. IsTrue json → spec.ReadsBack counts.now) }
{
    if json {
        json_line_of(alloc, &counts_value(alloc, counts)?)
    } else {
        counts_lines(alloc, counts)
    }
}
