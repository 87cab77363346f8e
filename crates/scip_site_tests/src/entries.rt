//! The entries of symbols, and the texts of kinds.

use crate::asked::queries;
use crate::calls::see;
use crate::indexes::DETAILED;
use scip_query::{Queries, kind_in, kind_text, signature_in, texts_of};
use std::alloc::{AllocError, Global};
use std::process::Abort;
use std::test::Fail;

/// Kinds with their texts: the last has a name, 83 and the next one have none.
const KINDS: [(i32, &str); 7] = [
    (0, "-"),
    (1, "Array"),
    (28, "Message"),
    (83, "83"),
    (86, "Concept"),
    (87, "87"),
    (-1, "-1"),
];

/// Sees the text of a kind. After want of memory it is asked for again, and the second answer counts.
fn see_kind(rt: &impl Abort, alloc: Global, kind: i32, due: &str) -> Result<(), AllocError> {
    let text = match kind_text(alloc, kind) {
        Ok(text) => text,
        Err(AllocError) => kind_text(alloc, kind)?,
    };
    see(rt, text.as_str() == due, "a kind");
    Ok(())
}

#[test]
fn kinds_have_names_or_numbers(rt: HostRuntime) -> Result<(), Fail> {
    for (kind, due) in &KINDS {
        see_kind(&rt, rt.alloc(), *kind, due)?;
    }
    Ok(())
}

/// Symbols asked for in the document with a number, and the kind and the signature of their entry. The third entry is
/// an external one; there is no second document.
const ENTRIES: [(usize, &str, i32, &str); 6] = [
    (0, "p/M#", 28, "message M"),
    (0, "p/M#x.", 15, "repeated\nE x = 1"),
    (0, "p/Md#", 11, ""),
    (0, "local 1", 300, ""),
    (1, "local 1", 0, ""),
    (0, "nowhere", 0, ""),
];

/// Whether the entry of a symbol says this, wherever it is looked for first.
fn is_entry(asked: &Queries, document: usize, symbol: &str, kind: i32, signature: &str) -> bool {
    let entry = asked.entry_in(document, symbol);
    let is = kind_in(entry) == kind && signature_in(entry) == signature;
    let (_, near) = asked.entry_in_near(1, document, symbol);
    is && kind_in(near) == kind && signature_in(near) == signature && texts_of(near).is_empty()
}

#[test]
fn entries_of_symbols_by_themselves(rt: HostRuntime) -> Result<(), Fail> {
    let asked = queries(&rt, rt.alloc(), DETAILED)?;
    for (document, symbol, kind, signature) in &ENTRIES {
        see(
            &rt,
            is_entry(&asked, *document, symbol, *kind, signature),
            symbol,
        );
    }
    Ok(())
}
