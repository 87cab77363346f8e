//! How faults are displayed.

use crate::trees::see;
use proto_lex::Span;
use proto_link::{FilePlace, LinkFault};
use std::alloc::{AllocError, Global};
use std::test::Fail;

const FIRST: FilePlace = FilePlace {
    file: 0,
    span: Span { start: 12, end: 13 },
};

const SECOND: FilePlace = FilePlace {
    file: 3,
    span: Span { start: 40, end: 43 },
};

/// Faults, and their sentences.
const DISPLAYED: [(LinkFault, &str); 6] = [
    (LinkFault::Broken(7), "file 7 has no facts"),
    (
        LinkFault::Duplicate(FIRST, SECOND),
        "one full name is given twice, at byte 12 of file 0 and at byte 40 of file 3",
    ),
    (
        LinkFault::MissingImport(SECOND),
        "an import of a file that isn't there, at byte 40 of file 3",
    ),
    (
        LinkFault::Unresolved(FIRST),
        "a use that names no type, at byte 12 of file 0",
    ),
    (
        LinkFault::Ambiguous(FIRST),
        "a use that names several types, at byte 12 of file 0",
    ),
    (LinkFault::Memory, "memory ran out"),
];

/// Whether a fault is displayed as this sentence.
fn is_displayed(alloc: Global, fault: LinkFault, sentence: &str) -> Result<bool, AllocError> {
    let text = format!(in alloc; "{fault}")?;
    Ok(text.as_str() == sentence)
}

#[test]
fn faults_are_displayed_as_sentences(rt: HostRuntime) -> Result<(), Fail> {
    for (number, (fault, sentence)) in DISPLAYED.iter().enumerate() {
        see(&rt, number, is_displayed(rt.alloc(), *fault, sentence)?);
    }
    Ok(())
}
