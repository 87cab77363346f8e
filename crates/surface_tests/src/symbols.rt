//! Worked symbols. The texts and the offsets are those that the grammar in `scip.proto`'s comment
//! gives by hand.

use crate::shared::see;
use scip_symbol::{BadPart, PackageId, Symbol, SymbolFault, print, read};
use std::alloc::{AllocError, Global};
use std::test::Fail;

/// The text that a symbol is printed as.
fn printed(alloc: Global, symbol: &Symbol) -> Result<String, SymbolFault> {
    match print(alloc, symbol) {
        Ok(text) => Ok(text),
        Err(_) => Err(SymbolFault::Memory),
    }
}

/// What is printed of the symbol that a text is read as, or why the text is refused.
fn reprinted(alloc: Global, text: &str) -> Result<String, SymbolFault> {
    match read(alloc, text) {
        Ok(symbol) => printed(alloc, &symbol),
        Err(fault) => Err(fault),
    }
}

/// The same, once more after `Memory`.
fn reprinted_again(alloc: Global, text: &str) -> Result<String, SymbolFault> {
    match reprinted(alloc, text) {
        Err(SymbolFault::Memory) => reprinted(alloc, text),
        answer => answer,
    }
}

/// Texts that are read, and printed as they were.
const READ: [&str; 3] = [
    "scip-protobuf my  mgr . 1.0 A#",
    "scip-protobuf . . . `a b.proto`/",
    "local 7",
];

// The first text: behind `local x`, which a symbol may begin with, at byte 7, no symbol goes on with a
// space.
const REFUSED: [(&str, usize); 2] = [("local x y", 7), ("scip-protobuf . . . A", 21)];

#[test]
fn texts_are_read_and_printed_or_refused_where_no_symbol_goes_on(rt: HostRuntime) {
    for text in &READ {
        let same = match reprinted_again(rt.alloc(), text) {
            Ok(printed) => printed.as_str() == *text,
            Err(_) => false,
        };
        see(&rt, same, text);
    }
    for (text, offset) in &REFUSED {
        let fault = reprinted_again(rt.alloc(), text).err();
        see(&rt, fault == Some(SymbolFault::BadSymbol(*offset)), text);
    }
}

/// A name of 10,000 letters.
#[test]
fn a_long_symbol(rt: HostRuntime) -> Result<(), Fail> {
    let name = "x".repeat(rt.alloc(), 10_000)?;
    let text = ["scip-protobuf . . . ", name.as_str(), "#"].join(rt.alloc(), "")?;
    let printed = reprinted_again(rt.alloc(), text.as_str()).unwrap_or(name);
    see(&rt, printed.as_str() == text.as_str(), "as it was");
    Ok(())
}

/// Faults, and how they are displayed.
const DISPLAYED: [(SymbolFault, &str); 2] = [
    (
        SymbolFault::BadSymbol(7),
        "a text that is no symbol, from byte 7 on",
    ),
    (SymbolFault::Memory, "memory ran out"),
];

/// Whether a fault is displayed as this sentence.
fn is_displayed(alloc: Global, fault: SymbolFault, sentence: &str) -> Result<bool, AllocError> {
    let text = format!(in alloc; "{fault}")?;
    Ok(text.as_str() == sentence)
}

/// What a part is displayed as that begins with a space.
const BAD_PART: &str =
    "part 1 of a package (0 is the manager, 1 the name, 2 the version) begins with a space or is `.`";

/// Whether a part that is no part of a package is displayed so.
fn is_bad_part_displayed(alloc: Global) -> Result<bool, AllocError> {
    let parts = [
        String::new(alloc),
        String::from_str(alloc, " b")?,
        String::new(alloc),
    ];
    match PackageId::new(parts) {
        Ok(_) => Ok(false),
        Err(bad) => is_so_displayed(alloc, &bad),
    }
}

/// Whether it is.
fn is_so_displayed(alloc: Global, bad: &BadPart) -> Result<bool, AllocError> {
    let text = format!(in alloc; "{bad}")?;
    Ok(text.as_str() == BAD_PART)
}

#[test]
fn faults_are_displayed_as_sentences(rt: HostRuntime) -> Result<(), Fail> {
    for (fault, sentence) in &DISPLAYED {
        see(&rt, is_displayed(rt.alloc(), *fault, sentence)?, sentence);
    }
    see(&rt, is_bad_part_displayed(rt.alloc())?, "part");
    Ok(())
}
