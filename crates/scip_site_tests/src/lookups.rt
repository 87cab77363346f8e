//! The calls behind the answers.

use crate::asked::{At, definitions, documentation, references, symbols};
use crate::calls::see;
use crate::checks::{Check, see_bytes};
use crate::indexes::{DOCUMENTED, FIELD_NAMED_LIKE_A_TYPE, OVERLAPPING};
use scip_query::{Place, Queries, QueryFault};
use scip_records::SymbolInformation;
use std::alloc::Global;
use std::process::Abort;
use std::test::Fail;

/// Sees which occurrences of the one document are answered.
fn see_are(rt: &impl Abort, places: Result<Vec<Place>, QueryFault>, due: &[usize]) {
    let are = match places {
        Ok(places) => are_places(places.as_slice(), due),
        Err(_) => false,
    };
    see(rt, are, "places");
}

/// Whether places are these occurrences of the first document.
fn are_places(places: &[Place], due: &[usize]) -> bool {
    let mut rest = places;
    for occurrence in due {
        match rest {
            [place, others @ ..] if place.document == 0 && place.occurrence == *occurrence => {
                rest = others;
            }
            _ => return false,
        }
    }
    rest.is_empty()
}

/// Sees the places of a symbol.
pub fn see_places(rt: &impl Abort, alloc: Global, asked: &Queries) {
    let at = At {
        line: 3,
        column: 28,
    };
    see_are(rt, references(alloc, asked, at), &[2, 5]);
    see_are(rt, definitions(alloc, asked, at), &[2]);
}

/// Whether entries are those of these two symbols.
fn are_entries(entries: Result<Vec<&SymbolInformation>, QueryFault>, due: [&str; 2]) -> bool {
    match entries {
        Ok(entries) => match entries.as_slice() {
            [first, second] => first.symbol.as_str() == due[0] && second.symbol.as_str() == due[1],
            _ => false,
        },
        Err(_) => false,
    }
}

/// Sees the texts of a symbol, and the symbols of a document.
pub fn see_texts(rt: &impl Abort, alloc: Global, asked: &Queries) {
    let at = At { line: 3, column: 8 };
    let are = match documentation(alloc, asked, at) {
        Ok(texts) => texts.as_slice() == ["One.\nTwo.", "tail"].as_slice(),
        Err(_) => false,
    };
    see(rt, are, "texts");
    see(
        rt,
        are_entries(symbols(alloc, asked), ["A#", "A#x."]),
        "entries",
    );
}

/// Columns of line 0, and the symbol there. The third row reads: at column 5 is `w`, whose range is empty.
const COLUMNS: [(u32, Option<&str>); 5] = [
    (2, Some("y")),
    (4, Some("y")),
    (5, Some("w")),
    (6, Some("x")),
    (9, None),
];

/// Sees what is at positions.
pub fn see_innermost(rt: &impl Abort, asked: &Queries) {
    for (column, due) in &COLUMNS {
        let is = match (asked.at("a", 0, *column), *due) {
            (Some(occurrence), Some(symbol)) => occurrence.symbol.as_str() == symbol,
            (None, None) => true,
            _ => false,
        };
        see(rt, is, "at");
    }
}

#[test]
fn places_texts_and_symbols(rt: HostRuntime) -> Result<(), Fail> {
    see_bytes(&rt, rt.alloc(), FIELD_NAMED_LIKE_A_TYPE, Check::Places)?;
    Ok(see_bytes(&rt, rt.alloc(), DOCUMENTED, Check::Texts)?)
}

#[test]
fn the_innermost_of_overlapping_ranges(rt: HostRuntime) -> Result<(), Fail> {
    Ok(see_bytes(&rt, rt.alloc(), OVERLAPPING, Check::Innermost)?)
}
