//! The records of an index, one after another.

ghost use Rattle.std.specs.Prelude.{◌≡◌, ◌++◌, IfOk, IfSome, IsTrue, OnOk, option_copied};
ghost use Rattle.std.specs.List.{All, flat_map};
ghost use Rattle.std.specs.Option.{option_map};
ghost use Rattle.std.specs.String.{string_bytes};
ghost use Rattle.scip_query.specs.Sites.{Numbered, document_named};
ghost use Rattle.scip_survey.specs.Records.{
  OfDocument,
  OfExternal,
  OfIndex,
  OfOccurrence,
  OfSymbol,
  ReadsBack,
  document_records,
  metadata_records,
  record_text,
  records_of,
  records_text,
};

use crate::record_lines::{
    push_document_line, push_external_line, push_metadata_line, push_occurrence_line,
    push_symbol_line,
};
use crate::record_values::{
    document_value, external_value, metadata_value, occurrence_value, symbol_value,
};
use scip_query::{Queries, push_json_line};
use scip_records::{Document, Metadata, Occurrence, SymbolInformation};
use std::alloc::{AllocError, Global};

/// Appends what an index says about itself.
fn push_metadata(
    alloc: Global,
    text: &mut String,
    json: bool,
    metadata: &Metadata,
) -> Result<(), AllocError>
    ensures text { OnOk result (string_bytes text.new ≡ string_bytes text.old
        ++ record_text json (OfIndex metadata.now)) }
    ensures reads_back { OnOk result (IsTrue json → ReadsBack (OfIndex metadata.now)) }
{
    if json {
        push_json_line(alloc, text, &metadata_value(alloc, metadata)?)
    } else {
        push_metadata_line(text, metadata)
    }
}

/// The same, if it says anything.
fn push_own(
    alloc: Global,
    text: &mut String,
    json: bool,
    metadata: Option<&Metadata>,
) -> Result<(), AllocError>
    ensures text { OnOk result (string_bytes text.new ≡ string_bytes text.old
        ++ records_text json (metadata_records (option_copied metadata.entry))) }
    ensures reads_back { OnOk result (IsTrue json → All ReadsBack (metadata_records (option_copied metadata.entry))) }
{
    match metadata {
        Some(metadata) => push_metadata(alloc, text, json, metadata),
        None => Ok(()),
    }
}

/// Appends an occurrence in the document with a path.
fn push_occurrence(
    alloc: Global,
    text: &mut String,
    json: bool,
    path: &str,
    occurrence: &Occurrence,
) -> Result<(), AllocError>
    ensures text { OnOk result (string_bytes text.new ≡ string_bytes text.old
        ++ record_text json (OfOccurrence path.now occurrence.now)) }
    ensures reads_back { OnOk result (IsTrue json → ReadsBack (OfOccurrence path.now occurrence.now)) }
{
    if json {
        push_json_line(alloc, text, &occurrence_value(alloc, path, occurrence)?)
    } else {
        push_occurrence_line(text, path, occurrence)
    }
}

/// Appends the occurrences in the document with a path.
fn push_occurrences(
    alloc: Global,
    text: &mut String,
    json: bool,
    path: &str,
    occurrences: &[Occurrence],
) -> Result<(), AllocError>
    ensures text { OnOk result (string_bytes text.new ≡ string_bytes text.old
        ++ flat_map (λ o. record_text json (OfOccurrence path.now o)) occurrences.now) }
    ensures reads_back { OnOk result (IsTrue json
        → All (λ o. ReadsBack (OfOccurrence path.now o)) occurrences.now) }
{
    for occurrence in occurrences {
        push_occurrence(alloc, text, json, path, occurrence)?;
    }
    Ok(())
}

/// Appends an entry of the document with a path.
fn push_symbol(
    alloc: Global,
    text: &mut String,
    json: bool,
    path: &str,
    entry: &SymbolInformation,
) -> Result<(), AllocError>
    ensures text { OnOk result (string_bytes text.new ≡ string_bytes text.old
        ++ record_text json (OfSymbol path.now entry.now)) }
    ensures reads_back { OnOk result (IsTrue json → ReadsBack (OfSymbol path.now entry.now)) }
{
    if json {
        push_json_line(alloc, text, &symbol_value(alloc, path, entry)?)
    } else {
        push_symbol_line(alloc, text, path, entry)
    }
}

/// Appends the entries of the document with a path.
fn push_symbols(
    alloc: Global,
    text: &mut String,
    json: bool,
    path: &str,
    entries: &[SymbolInformation],
) -> Result<(), AllocError>
    ensures text { OnOk result (string_bytes text.new ≡ string_bytes text.old
        ++ flat_map (λ entry. record_text json (OfSymbol path.now entry)) entries.now) }
    ensures reads_back { OnOk result (IsTrue json
        → All (λ entry. ReadsBack (OfSymbol path.now entry)) entries.now) }
{
    for entry in entries {
        push_symbol(alloc, text, json, path, entry)?;
    }
    Ok(())
}

/// Appends what is said of a document beside its occurrences and entries.
fn push_heading(
    alloc: Global,
    text: &mut String,
    json: bool,
    document: &Document,
) -> Result<(), AllocError>
    ensures text { OnOk result (string_bytes text.new ≡ string_bytes text.old
        ++ record_text json (OfDocument document.now)) }
    ensures reads_back { OnOk result (IsTrue json → ReadsBack (OfDocument document.now)) }
{
    if json {
        push_json_line(alloc, text, &document_value(alloc, document)?)
    } else {
        push_document_line(text, document)
    }
}

/// Appends the records of a document.
fn push_document(
    alloc: Global,
    text: &mut String,
    json: bool,
    document: &Document,
) -> Result<(), AllocError>
    ensures text { OnOk result (string_bytes text.new ≡ string_bytes text.old
        ++ records_text json (document_records document.now)) }
    ensures reads_back { OnOk result (IsTrue json → All ReadsBack (document_records document.now)) }
{
    let path = document.relative_path.as_str();
    push_heading(alloc, text, json, document)?;
    push_occurrences(alloc, text, json, path, document.occurrences.as_slice())?;
    push_symbols(alloc, text, json, path, document.symbols.as_slice())
}

/// Appends the records of documents.
fn push_documents(
    alloc: Global,
    text: &mut String,
    json: bool,
    documents: &[Document],
) -> Result<(), AllocError>
    ensures text { OnOk result (string_bytes text.new ≡ string_bytes text.old
        ++ flat_map (λ d. records_text json (document_records d)) documents.now) }
    ensures reads_back { OnOk result (IsTrue json
        → All (λ d. All ReadsBack (document_records d)) documents.now) }
{
    for document in documents {
        push_document(alloc, text, json, document)?;
    }
    Ok(())
}

/// Appends an entry of a symbol that no document defines.
fn push_external(
    alloc: Global,
    text: &mut String,
    json: bool,
    entry: &SymbolInformation,
) -> Result<(), AllocError>
    ensures text { OnOk result (string_bytes text.new ≡ string_bytes text.old
        ++ record_text json (OfExternal entry.now)) }
    ensures reads_back { OnOk result (IsTrue json → ReadsBack (OfExternal entry.now)) }
{
    if json {
        push_json_line(alloc, text, &external_value(alloc, entry)?)
    } else {
        push_external_line(alloc, text, entry)
    }
}

/// Appends the entries of symbols that no document defines.
fn push_externals(
    alloc: Global,
    text: &mut String,
    json: bool,
    entries: &[SymbolInformation],
) -> Result<(), AllocError>
    ensures text { OnOk result (string_bytes text.new ≡ string_bytes text.old
        ++ flat_map (λ entry. record_text json (OfExternal entry)) entries.now) }
    ensures reads_back { OnOk result (IsTrue json → All (λ entry. ReadsBack (OfExternal entry)) entries.now) }
{
    for entry in entries {
        push_external(alloc, text, json, entry)?;
    }
    Ok(())
}

/// All records of an index, one on a line, in its order, in JSON or for people.
pub fn index_text(alloc: Global, json: bool, queries: &Queries) -> Result<String, AllocError>
    ensures text { IfOk result (λ text. string_bytes text ≡ records_text json (records_of queries.now)) }
    ensures reads_back { IfOk result (λ _. IsTrue json → All ReadsBack (records_of queries.now)) }
{
    let mut text = String::new(alloc);
    push_own(alloc, &mut text, json, queries.metadata())?;
    push_documents(alloc, &mut text, json, queries.documents())?;
    push_externals(alloc, &mut text, json, queries.external_symbols())?;
    Ok(text)
}

/// The records of the document that a path names, if there is one.
pub fn document_text(
    alloc: Global,
    json: bool,
    queries: &Queries,
    path: &str,
) -> Result<Option<String>, AllocError>
    ensures text { IfOk result (λ text. option_map string_bytes text
        ≡ option_map (λ (d : Numbered). records_text json (document_records d.document))
        (document_named queries.now path.now)) }
    ensures reads_back { IfOk result (λ _. IsTrue json
        → IfSome (document_named queries.now path.now)
        (λ (d : Numbered). All ReadsBack (document_records d.document))) }
{
    match queries.document(path) {
        Some(document) => {
            let mut text = String::new(alloc);
            push_document(alloc, &mut text, json, document)?;
            Ok(Some(text))
        }
        None => Ok(None),
    }
}
