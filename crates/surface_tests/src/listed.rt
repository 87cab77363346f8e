//! Documents and external entries, as texts.
//!
//! A document has a line with its path, its language and its encoding, and what occurs in it: the range,
//! the role and the symbol, and behind ` in ` the range around it, if it has one. Another line has its symbol entries:
//! the symbol, the display name, and each text of the documentation, and behind ` = ` the kind, the signature and the
//! symbol of what it is in, if it has a kind. Behind each stands `;`. External entries have a line that begins with
//! `+`. Symbols stand without the scheme and the empty package.

use scip_records::{DetailsRef, Document, Occurrence, Range, SymbolInformation};
use test_kit::Draft;

/// Adds a number and a space.
fn add_number(draft: &mut Draft, number: i64) {
    draft.add_number(number);
    draft.add(" ");
}

/// Adds the numbers of a range.
fn add_range(draft: &mut Draft, range: &Range) {
    add_number(draft, i64::from(range.start_line()));
    add_number(draft, i64::from(range.start_column()));
    add_number(draft, i64::from(range.end_line()));
    add_number(draft, i64::from(range.end_column()));
}

/// Adds a symbol without what all symbols begin with.
fn add_symbol(draft: &mut Draft, symbol: &str) {
    let front = "scip-protobuf . . . ";
    draft.add(symbol.strip_prefix(front).unwrap_or(symbol));
}

/// Adds an occurrence: its range, its roles and its symbol.
fn add_occurrence(draft: &mut Draft, occurrence: &Occurrence) {
    draft.add(" ");
    add_range(draft, &occurrence.range);
    add_number(draft, i64::from(occurrence.symbol_roles));
    add_symbol(draft, occurrence.symbol.as_str());
    if let Some(around) = &occurrence.enclosing_range {
        draft.add(" in ");
        add_range(draft, around);
    }
    draft.add(";");
}

/// Adds details of a record, of which the symbol is whole: the kind, the signature and the symbol around.
fn add_details(draft: &mut Draft, details: &DetailsRef) {
    draft.add(" = ");
    add_number(draft, i64::from(details.kind));
    draft.add(details.signature.language);
    draft.add(": ");
    draft.add(details.signature.text);
    draft.add(" in ");
    add_symbol(draft, details.enclosing_symbol.rest);
}

/// Adds the entry of a symbol: its name and its documentation.
fn add_entry(draft: &mut Draft, info: &SymbolInformation) {
    draft.add(" ");
    add_symbol(draft, info.symbol.as_str());
    draft.add(" ");
    draft.add(info.display_name.as_str());
    for text in info.documentation.as_slice() {
        draft.add(" | ");
        draft.add(text.as_str());
    }
    let details = info.details.lent();
    if details.kind != 0 {
        add_details(draft, &details);
    }
    draft.add(";");
}

/// Adds the document of a source.
pub(crate) fn add_document(draft: &mut Draft, document: &Document) {
    draft.add(document.relative_path.as_str());
    draft.add(" ");
    draft.add(document.language.as_str());
    draft.add(" ");
    add_number(draft, i64::from(document.position_encoding));
    for occurrence in document.occurrences.as_slice() {
        add_occurrence(draft, occurrence);
    }
    draft.add("\n");
    for info in document.symbols.as_slice() {
        add_entry(draft, info);
    }
    draft.add("\n");
}

/// Adds external entries.
pub(crate) fn add_externals(draft: &mut Draft, infos: &[SymbolInformation]) {
    draft.add("+");
    for info in infos {
        add_entry(draft, info);
    }
    draft.add("\n");
}
