//! Positions of worked sources. The values come from outside: columns are those of the `utf-8` and
//! `utf-16-le` codecs of Python.

use crate::calls::see;
use proto_lex::{Encoding, Text};
use std::alloc::Global;
use test_kit::text_of;

/// A source and an offset in it; the line there, and the columns in UTF-8 and in UTF-16.
struct Place {
    source: &'static str,
    offset: usize,
    line: u32,
    utf8: u32,
    utf16: u32,
}

/// The first row reads: `A` stands behind an `é`, which takes two bytes of its line and one unit of UTF-16.
static PLACES: [Place; 4] = [
    Place {
        source: "syntax = \"proto3\";\n/* é */ message A {}\n",
        offset: 36,
        line: 1,
        utf8: 17,
        utf16: 16,
    },
    Place {
        source: "syntax = \"proto3\";\n/* 😀 */ message A {}\n",
        offset: 38,
        line: 1,
        utf8: 19,
        utf16: 17,
    },
    Place {
        source: "\u{FEFF}syntax = \"proto3\"; message A {}",
        offset: 30,
        line: 0,
        utf8: 30,
        utf16: 28,
    },
    Place {
        source: "a\r\nb\rc\n\nd",
        offset: 9,
        line: 3,
        utf8: 1,
        utf16: 1,
    },
];

/// The line and the column of an offset of a text, if it stands between two characters.
fn position_of(text: &Text<'_>, offset: usize, encoding: Encoding) -> Option<(u32, u32)> {
    if !text.as_str().is_char_boundary(offset) {
        return None;
    }
    let position = text.position(offset, encoding);
    Some((position.line, position.column))
}

/// Whether two offsets of a text have the positions together that each has alone, if they stand between two characters.
fn are_as_alone(text: &Text<'_>, start: usize, end: usize) -> bool {
    let bytes = text.as_str();
    if !bytes.is_char_boundary(start) || !bytes.is_char_boundary(end) {
        return false;
    }
    let (first, second) = text.positions(start, end, Encoding::Utf16);
    first == text.position(start, Encoding::Utf16) && second == text.position(end, Encoding::Utf16)
}

/// Whether a place is where it is said to be.
fn is_right(alloc: Global, place: &Place) -> bool {
    match text_of(alloc, place.source.as_bytes()) {
        Ok(text) => {
            position_of(&text, place.offset, Encoding::Utf8) == Some((place.line, place.utf8))
                && position_of(&text, place.offset, Encoding::Utf16)
                    == Some((place.line, place.utf16))
                && are_as_alone(&text, 0, place.offset)
                && are_as_alone(&text, place.offset, 0)
        }
        Err(_) => false,
    }
}

/// The first place that is elsewhere.
fn first_misplaced(alloc: Global, places: &[Place]) -> Option<usize> {
    for (index, place) in places.iter().enumerate() {
        if !is_right(alloc, place) {
            return Some(index);
        }
    }
    None
}

#[test]
fn lines_and_columns(rt: HostRuntime) {
    see(&rt, first_misplaced(rt.alloc(), &PLACES));
}
