//! The texts of faults.

use crate::calls::see;
use proto_lex::{LexFault, Span};
use proto_link::FilePlace;
use proto_parse::SyntaxFault;
use scip_build::{BuildFault, FileFault};
use std::alloc::{AllocError, Global};
use std::test::Fail;

/// A place in a file.
const FIRST: FilePlace = FilePlace {
    file: 1,
    span: Span { start: 2, end: 3 },
};

/// One in another.
const SECOND: FilePlace = FilePlace {
    file: 4,
    span: Span { start: 5, end: 6 },
};

/// Faults, and their texts.
const FAULTS: [(BuildFault, &str); 10] = [
    (BuildFault::Spawn, "a thread could not be started"),
    (BuildFault::Memory, "memory ran out"),
    (
        BuildFault::File(2, FileFault::Unread),
        "in file 2: it can't be read",
    ),
    (
        BuildFault::File(3, FileFault::Lex(LexFault::BadByte(7))),
        "in file 3: a character that can't be here, at byte 7",
    ),
    (
        BuildFault::File(4, FileFault::Syntax(SyntaxFault::Grammar(9))),
        "in file 4: the grammar wants something else, at byte 9",
    ),
    (
        BuildFault::Duplicate(FIRST, SECOND),
        "one full name is given twice, at byte 2 of file 1 and at byte 5 of file 4",
    ),
    (
        BuildFault::MissingImport(SECOND),
        "an import of a file that isn't there, at byte 5 of file 4",
    ),
    (
        BuildFault::Unresolved(FIRST),
        "a use that names no type, at byte 2 of file 1",
    ),
    (
        BuildFault::Ambiguous(SECOND),
        "a use that names several types, at byte 5 of file 4",
    ),
    (
        BuildFault::OptionGap(FIRST),
        "an option without a target, at byte 2 of file 1",
    ),
];

/// Whether a fault is printed as this text.
fn is_printed(alloc: Global, fault: BuildFault, text: &str) -> Result<bool, AllocError> {
    Ok(format!(in alloc; "{fault}")?.as_str() == text)
}

#[test]
fn faults_are_printed_as_sentences(rt: HostRuntime) -> Result<(), Fail> {
    for (fault, text) in &FAULTS {
        see(&rt, is_printed(rt.alloc(), *fault, text)?, text);
    }
    Ok(())
}
