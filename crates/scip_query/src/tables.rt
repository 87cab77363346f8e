//! The tables by which an index is searched.

ghost use Rattle.std.specs.Prelude.{◌≡◌, ◌++◌, ◌^◌, ◌<◌, ◌≤◌, ◌+◌, IfOk, OnOk, length};
ghost use Rattle.scip_query.specs.Tables.{numbers, places_in, places_from, symbol_listed, IsByPath, IsBySymbol};
ghost use Rattle.scip_query.specs.Tables.Searches.{
  entry_places_in,
  entry_places_from,
  entry_symbol_listed,
  IsInnermostFirst,
  AreEntriesBySymbol,
  AreTables,
};
ghost use Rattle.scip_query.specs.Tables.Groups.{gathered_at, AreGathered};
ghost use Rattle.std.specs.List.{AllZip};

use crate::groups::{add_place, by_group};
use crate::listed::{compare_inner, compare_paths, entry_symbol_listed, symbol_listed};
use crate::place::{EntryPlace, Place};
use basics::Sequence;
use indexmap::IndexMap;
use scip_records::{Document, Index, Occurrence, SymbolInformation};
use std::alloc::{AllocError, Global};

/// Tables of numbers over the documents and symbol entries of an index.
#[derive(Drop)]
pub(crate) struct Tables {
    /// The documents by path; of those with one path, the first listed comes first.
    pub by_path: Sequence<usize>,
    /// For each document its occurrences, the innermost first.
    pub inner: Sequence<Sequence<usize>>,
    /// All occurrences by symbol; those of one symbol are in the index's order.
    pub by_symbol: Sequence<Place>,
    /// All symbol entries by symbol; of those with one symbol, first those of documents, in the index's order, and
    /// then the external ones.
    pub entries_by_symbol: Sequence<EntryPlace>,
}

/// The numbers from 0 below a count.
fn numbers(alloc: Global, count: usize) -> Result<Vec<usize>, AllocError>
    ensures { IfOk result (λ listed. listed.items ≡ numbers count) }
{
    let mut listed = Vec::with_capacity(alloc, count)?;
    for number in 0..count {
        listed.push(number)?;
    }
    Ok(listed)
}

/// The numbers of the documents, by path.
fn by_path(alloc: Global, documents: &[Document]) -> Result<Sequence<usize>, AllocError>
    ensures { IfOk result (λ table. IsByPath documents.now table) }
{
    let mut table = numbers(alloc, documents.len())?;
    table.sort_by(|a, b| compare_paths(documents, *a, *b))?;
    Ok(Sequence::from_vec(table))
}

/// The numbers of a document's occurrences, in an order in which inner ones come first.
fn inner_of(alloc: Global, document: &Document) -> Result<Sequence<usize>, AllocError>
    ensures { IfOk result (λ table. IsInnermostFirst document.now table) }
{
    let occurrences = document.occurrences.as_slice();
    let mut table = numbers(alloc, occurrences.len())?;
    table.sort_by(|a, b| compare_inner(occurrences, *a, *b))?;
    Ok(Sequence::from_vec(table))
}

/// That table of each document.
fn inner(alloc: Global, documents: &[Document]) -> Result<Sequence<Sequence<usize>>, AllocError>
    ensures { IfOk result (λ tables. AllZip IsInnermostFirst documents.now tables) }
{
    let mut tables = Vec::with_capacity(alloc, documents.len())?;
    for document in documents {
        tables.push(inner_of(alloc, document)?)?;
    }
    Ok(Sequence::from_vec(tables))
}

/// Appends the places in a document.
fn push_places(
    places: &mut Vec<Place>,
    number: usize,
    document: &Document,
) -> Result<(), AllocError>
    ensures { OnOk result (places.new.items ≡ places.old.items ++ places_in number document.now) }
{
    for occurrence in 0..document.occurrences.as_slice().len() {
        places.push(Place {
            document: number,
            occurrence,
        })?;
    }
    Ok(())
}

/// The places of all occurrences.
fn occurrence_places(alloc: Global, documents: &[Document]) -> Result<Vec<Place>, AllocError>
    ensures { IfOk result (λ places. places.items ≡ places_from 0 documents.now) }
{
    let mut places = Vec::new(alloc);
    for (number, document) in documents.iter().enumerate() {
        push_places(&mut places, number, document)?;
    }
    Ok(places)
}

/// Places of occurrences, gathered by symbol.
fn gathered<'a>(
    alloc: Global,
    documents: &'a [Document],
    places: &[Place],
) -> Result<IndexMap<&'a str, Vec<Place>>, AllocError>
    ensures { IfOk result (λ groups. AreGathered (symbol_listed documents.now) places.now (gathered_at groups)) }
{
    let mut groups = IndexMap::new(alloc);
    for place in places {
        add_place(&mut groups, symbol_listed(documents, *place), *place)?;
    }
    Ok(groups)
}

/// The places of all occurrences, by symbol.
fn by_symbol(alloc: Global, documents: &[Document]) -> Result<Sequence<Place>, AllocError>
    ensures { IfOk result (λ table. IsBySymbol documents.now table) }
{
    let places = occurrence_places(alloc, documents)?;
    let groups = gathered(alloc, documents, places.as_slice())?;
    by_group(places, groups)
}

/// Appends the places in a list of symbol entries.
fn push_entry_places(
    places: &mut Vec<EntryPlace>,
    list: usize,
    entries: &[SymbolInformation],
) -> Result<(), AllocError>
    ensures { OnOk result (places.new.items ≡ places.old.items ++ entry_places_in list entries.now) }
{
    for entry in 0..entries.len() {
        places.push(EntryPlace { list, entry })?;
    }
    Ok(())
}

/// The places of all symbol entries.
fn entry_places(alloc: Global, index: &Index) -> Result<Vec<EntryPlace>, AllocError>
    ensures { IfOk result (λ places. places.items ≡ entry_places_from 0 index.now.external_symbols
        index.now.documents) }
{
    let documents = index.documents.as_slice();
    let mut places = Vec::new(alloc);
    for (list, document) in documents.iter().enumerate() {
        let entries = document.symbols.as_slice();
        push_entry_places(&mut places, list, entries)?;
    }
    push_entry_places(
        &mut places,
        documents.len(),
        index.external_symbols.as_slice(),
    )?;
    Ok(places)
}

/// Places of symbol entries, gathered by symbol.
fn gathered_entries<'a>(
    alloc: Global,
    index: &'a Index,
    places: &[EntryPlace],
) -> Result<IndexMap<&'a str, Vec<EntryPlace>>, AllocError>
    ensures { IfOk result (λ groups. AreGathered (entry_symbol_listed index.now) places.now (gathered_at groups)) }
{
    let mut groups = IndexMap::new(alloc);
    for place in places {
        add_place(&mut groups, entry_symbol_listed(index, *place), *place)?;
    }
    Ok(groups)
}

/// The places of all symbol entries, by symbol.
fn entries_by_symbol(alloc: Global, index: &Index) -> Result<Sequence<EntryPlace>, AllocError>
    ensures { IfOk result (λ table. AreEntriesBySymbol index.now table) }
{
    let places = entry_places(alloc, index)?;
    let groups = gathered_entries(alloc, index, places.as_slice())?;
    by_group(places, groups)
}

/// The tables of an index.
pub(crate) fn tables_of(alloc: Global, index: &Index) -> Result<Tables, AllocError>
    ensures { IfOk result (λ tables. AreTables index.now tables.by_path tables.inner tables.by_symbol
        tables.entries_by_symbol) }
{
    let documents = index.documents.as_slice();
    Ok(Tables {
        by_path: by_path(alloc, documents)?,
        inner: inner(alloc, documents)?,
        by_symbol: by_symbol(alloc, documents)?,
        entries_by_symbol: entries_by_symbol(alloc, index)?,
    })
}
