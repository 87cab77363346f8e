//! A document whose symbols are lent in two parts. Its record is that of the same document with whole symbols.

ghost use Rattle.std.specs.Prelude.{◌≡◌};

use crate::calls::{decoded, record, see};
use crate::pieces::see_pieces;
use crate::wire_indexes::PREFIXED;
use scip_records::{
    Document, DocumentParts, Index, InformationRef, Occurrence, OccurrenceRef, SymbolInformation,
    SymbolRef,
};
use std::alloc::{AllocError, Global};
use std::process::Abort;
use std::test::Fail;

/// What most symbols of `PREFIXED` begin with.
const FRONT: &str = "s . . . p/";

/// A symbol in two parts, if it begins with this front.
fn in_parts<'a>(front: &'a str, text: &'a str) -> SymbolRef<'a>
    ensures { result ≡ text.now }
{
    match text.strip_prefix(front) {
        Some(rest) => SymbolRef { front, rest },
        None => SymbolRef::whole(text),
    }
}

/// An occurrence, whose symbol is lent in two parts.
fn occurrence_in_parts(occurrence: &Occurrence) -> OccurrenceRef<'_>
    ensures { result ≡ occurrence.now }
{
    let mut borrowed = OccurrenceRef::of(occurrence);
    borrowed.symbol = in_parts(FRONT, occurrence.symbol.as_str());
    borrowed
}

/// An entry, whose symbol is lent in two parts.
fn entry_in_parts(entry: &SymbolInformation) -> InformationRef<'_>
    ensures { result ≡ entry.now }
{
    let mut borrowed = InformationRef::of(entry);
    borrowed.symbol = in_parts(FRONT, entry.symbol.as_str());
    borrowed
}

/// A document that lends its symbols in two parts.
#[derive(Drop)]
struct Fronted {
    document: Document,
}

impl DocumentParts for Fronted {
    ghost document = { λ fronted. fronted.document };

    fn relative_path(&self) -> &str {
        self.document.relative_path()
    }

    fn occurrence_count(&self) -> usize {
        self.document.occurrence_count()
    }

    fn occurrence(&self, number: usize) -> OccurrenceRef<'_> {
        occurrence_in_parts(&self.document.occurrences.as_slice()[number])
    }

    fn entry_count(&self) -> usize {
        self.document.entry_count()
    }

    fn entry(&self, number: usize) -> InformationRef<'_> {
        entry_in_parts(&self.document.symbols.as_slice()[number])
    }

    fn language(&self) -> &str {
        self.document.language()
    }

    fn position_encoding(&self) -> i32 {
        self.document.position_encoding()
    }

    fn let_occurrences_go(&mut self, alloc: Global) {
        self.document.let_occurrences_go(alloc);
    }
}

/// Sees that an index, of which this is the only document, is written in pieces as these bytes.
fn see_fronted(
    rt: &impl Abort,
    alloc: Global,
    index: &Index,
    document: Document,
    bytes: &[u8],
) -> Result<(), AllocError> {
    let mut fronted = Fronted { document };
    let records = Vec::from_array(alloc, [record(alloc, &mut fronted)?])?;
    see_pieces(rt, index, records.as_slice(), bytes);
    Ok(())
}

/// Sees that an index is written in pieces as the bytes of `PREFIXED`; `same` was read from the same bytes.
fn see_index(rt: &impl Abort, alloc: Global, index: &Index, same: Index) -> Result<(), AllocError> {
    for document in same.documents.into_vec() {
        see_fronted(rt, alloc, index, document, PREFIXED)?;
    }
    Ok(())
}

#[test]
fn symbols_in_two_parts_are_spelled_whole(rt: HostRuntime) -> Result<(), Fail> {
    let alloc = rt.alloc();
    match (decoded(alloc, PREFIXED), decoded(alloc, PREFIXED)) {
        (Ok(index), Ok(same)) => see_index(&rt, alloc, &index, same)?,
        _ => see(&rt, false, "read"),
    }
    Ok(())
}
