//! The names and the texts of faults.

use crate::calls::see;
use proto_lex::{LexFault, Span};
use proto_link::FilePlace;
use proto_parse::SyntaxFault;
use protoscip::Fault;
use std::alloc::{AllocError, Global};
use std::test::Fail;

/// A place in a file.
const PLACE: FilePlace = FilePlace {
    file: 1,
    span: Span { start: 2, end: 3 },
};

/// One in another.
const OTHER: FilePlace = FilePlace {
    file: 4,
    span: Span { start: 5, end: 6 },
};

/// Faults, their names and their texts.
const FAULTS: [(Fault, &str, &str); 15] = [
    (Fault::Spawn, "Spawn", "a thread could not be started"),
    (Fault::Memory, "Memory", "memory ran out"),
    (Fault::Unread(2), "Unreadable", "file 2 can't be read"),
    (
        Fault::Lex(3, LexFault::BadByte(7)),
        "BadByte",
        "in file 3: a character that can't be here, at byte 7",
    ),
    (
        Fault::Syntax(4, SyntaxFault::Extend(9)),
        "Extend",
        "in file 4: the word `extend`, at byte 9",
    ),
    (
        Fault::Duplicate(PLACE, OTHER),
        "Duplicate",
        "one full name is given twice, at byte 2 of file 1 and at byte 5 of file 4",
    ),
    (
        Fault::MissingImport(PLACE),
        "MissingImport",
        "an import of a file that isn't there, at byte 2 of file 1",
    ),
    (
        Fault::Unresolved(OTHER),
        "Unresolved",
        "a use that names no type, at byte 5 of file 4",
    ),
    (
        Fault::Ambiguous(PLACE),
        "Ambiguous",
        "a use that names several types, at byte 2 of file 1",
    ),
    (
        Fault::OptionGap(PLACE),
        "Option",
        "an option without a target, at byte 2 of file 1",
    ),
    (
        Fault::Uncertain(OTHER, 1),
        "Uncertain",
        "a use that is uncertain, at byte 5 of file 4, behind file 1",
    ),
    (
        Fault::TooLarge,
        "TooLarge",
        "an index has at most 2147483647 bytes",
    ),
    (
        Fault::Write(7),
        "Write",
        "a write that failed, after 7 bytes",
    ),
    (
        Fault::Read,
        "Read",
        "an input that can't be read to its end",
    ),
    (
        Fault::Answer(8),
        "Answer",
        "a write of answers that failed, after 8 bytes",
    ),
];

/// Whether a fault has this name, and is printed as this text.
fn is_told(alloc: Global, fault: Fault, name: &str, text: &str) -> Result<bool, AllocError> {
    let printed = format!(in alloc; "{fault}")?;
    Ok(fault.name() == name && printed.as_str() == text)
}

#[test]
fn faults_have_names_and_texts(rt: HostRuntime) -> Result<(), Fail> {
    for (fault, name, text) in &FAULTS {
        see(&rt, is_told(rt.alloc(), *fault, name, text)?, name);
    }
    Ok(())
}
