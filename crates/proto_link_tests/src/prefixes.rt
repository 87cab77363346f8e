//! Each beginning of worked sources is a file, or is refused, in lexing or in parsing, no earlier than the shorter
//! ones.

use crate::calls::{PROTO3, fault_of_tokens, see};
use proto_lex::Text;
use std::alloc::Global;
use test_kit::{text_of, tokens_of};

/// Sources, and how many of their beginnings are files. Of the first one these are eight: behind each of its
/// statements, and behind each of their line ends.
const SOURCES: [(&str, usize); 4] = [
    (
        "syntax = \"proto3\";\npackage p;\nmessage Foo {}\nmessage M { string Foo = 1; Foo x = 2; }\n",
        8,
    ),
    (
        "syntax = \"proto3\";\nmessage Foo {}\nservice S { rpc Foo(Foo) returns (stream Foo); }\n",
        6,
    ),
    (
        "syntax = \"proto3\";\nmessage M {\n  enum A { ZERO = 0; }\n  enum B { ZERO = 0; }\n}\n",
        4,
    ),
    (
        "syntax = \"proto3\";\n// One.\n// Two.\nmessage A { // tail\n  int32 x = 1; /* unit */\n}\n",
        18,
    ),
];

/// No offset: for want of memory.
const NOWHERE: usize = usize::MAX;

/// The offset at which a text is refused, by the lexer or by the parser.
fn refusal_of_text(alloc: Global, text: &Text<'_>) -> Option<usize> {
    match tokens_of(alloc, text) {
        Ok(tokens) => match fault_of_tokens(alloc, &tokens, PROTO3) {
            Some(fault) => Some(fault.offset().unwrap_or(NOWHERE)),
            None => None,
        },
        Err(fault) => Some(fault.offset().unwrap_or(NOWHERE)),
    }
}

/// Where a source is refused, if it is.
fn refusal_of(alloc: Global, source: &str) -> Option<usize> {
    match text_of(alloc, source.as_bytes()) {
        Ok(text) => refusal_of_text(alloc, &text),
        Err(fault) => Some(fault.offset().unwrap_or(NOWHERE)),
    }
}

/// How many beginnings of a source are files; none where one is refused before a shorter one is, or where a shorter one
/// is a file.
fn files_in(alloc: Global, source: &str) -> Option<usize> {
    let (mut files, mut least) = (0usize, 0usize);
    for end in 0..=source.len() {
        match refusal_of(alloc, source.get(..end).unwrap_or("")) {
            None => {
                files = files.wrapping_add(1);
                least = end;
            }
            Some(offset) if least <= offset && offset <= end => least = offset,
            Some(_) => return None,
        }
    }
    Some(files)
}

#[test]
fn each_beginning_of_a_source(rt: HostRuntime) {
    for (row, (source, due)) in SOURCES.iter().enumerate() {
        let is_so = files_in(rt.alloc(), *source) == Some(*due);
        see(&rt, if is_so { None } else { Some(row) });
    }
}
