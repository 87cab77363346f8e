//! Worked comments and their cleaned texts.
//!
//! The second text of each row is what `protoc` 3.21.12 gives as `leading_comments` (`descriptor.proto`,
//! `SourceCodeInfo.Location`), for a message directly behind the comments.

use crate::calls::see;
use basics::KeptText;
use comment_texts::clean_text;
use proto_lex::Tokens;
use std::alloc::{AllocError, Global};
use test_kit::{Draft, Made, text_of, tokens_of};

/// The cleaned text of all comments of tokens. It is asked for again after want of memory.
fn cleaned<'t>(alloc: Global, lexed: &Tokens<'_, 't>) -> Result<KeptText<'t>, AllocError> {
    let text = lexed.text().as_str();
    match clean_text(alloc, text, lexed.comments()) {
        Err(AllocError) => clean_text(alloc, text, lexed.comments()),
        answer => answer,
    }
}

/// Whether the comments of tokens are cleaned to this text.
fn are_cleaned_to(alloc: Global, lexed: &Tokens<'_, '_>, want: &str) -> bool {
    match cleaned(alloc, lexed) {
        Ok(text) => text.as_str() == want,
        Err(_) => false,
    }
}

/// Whether the comments that a source consists of are cleaned to this text.
fn is_cleaned_to(alloc: Global, source: &str, want: &str) -> bool {
    match text_of(alloc, source.as_bytes()) {
        Ok(text) => match tokens_of(alloc, &text) {
            Ok(lexed) => are_cleaned_to(alloc, &lexed, want),
            Err(_) => false,
        },
        Err(_) => false,
    }
}

/// The first row whose comments are cleaned to another text.
fn first_other(alloc: Global, rows: &[(&str, &str, &str)]) -> Option<usize> {
    for (index, (source, _, want)) in rows.iter().enumerate() {
        if !is_cleaned_to(alloc, source, want) {
            return Some(index);
        }
    }
    None
}

/// Comments, their texts by `protoc`, and their cleaned texts, which differ from those in blanks alone.
const BLANKS: [(&str, &str, &str); 27] = [
    ("// Foo", " Foo\n", "Foo"),
    ("//Foo", "Foo\n", "Foo"),
    ("//  Foo\n// bar", "  Foo\n bar\n", " Foo\nbar"),
    (
        "//   Foo\n//\n//     bar",
        "   Foo\n\n     bar\n",
        "Foo\n\n  bar",
    ),
    ("/* Foo */", " Foo ", "Foo"),
    (
        "/*\n * Foo\n *   bar\n */",
        "\n Foo\n   bar\n",
        "Foo\n  bar",
    ),
    ("/*\n  Foo\n    bar\n */", "\nFoo\nbar\n", "Foo\n  bar"),
    (
        "/* Foo\n   bar\n     baz */",
        " Foo\nbar\nbaz ",
        "Foo\nbar\n  baz",
    ),
    ("/*\n *Foo\n * bar\n */", "\nFoo\n bar\n", "Foo\nbar"),
    ("/**/", "", ""),
    ("/*\n ** Foo\n **/", "\n* Foo\n", "* Foo"),
    ("/*\n\tFoo\n\t* bar\n*/", "\nFoo\n bar\n", "Foo\nbar"),
    ("/* Foo\r\n * bar\r\n */", " Foo\r\n bar\r\n", "Foo\nbar"),
    (
        "/*\n  Fruits:\n  * apple\n  * pear\n*/",
        "\nFruits:\n apple\n pear\n",
        "Fruits:\napple\npear",
    ),
    ("/* Foo\n \u{b}\u{c}* bar */", " Foo\n bar ", "Foo\nbar"),
    ("/*\n * Foo\n   bar\n */", "\n Foo\nbar\n", "Foo\nbar"),
    ("//\tFoo", "\tFoo\n", "Foo"),
    ("/* Foo\n * */", " Foo\n ", "Foo"),
    ("/* Foo\n *\n * bar */", " Foo\n\n bar ", "Foo\n\nbar"),
    ("/* Foo\n   * /\n */", " Foo\n /\n", "Foo\n/"),
    ("/*\n *\tFoo\n */", "\n\tFoo\n", "Foo"),
    ("/*\n\u{a0}* Foo\n */", "\n\u{a0}* Foo\n", "\u{a0}* Foo"),
    ("//", "\n", ""),
    ("/* */", " ", ""),
    ("//\n// Foo\n//", "\n Foo\n\n", "Foo"),
    ("/*\n\n  Foo\n\n\n */", "\n\nFoo\n\n\n", "Foo"),
    ("// été \n//  *", " été \n  *\n", "été\n *"),
];

#[test]
fn blanks_go(rt: HostRuntime) {
    see(&rt, first_other(rt.alloc(), &BLANKS));
}

/// A text without its blanks and line ends.
fn without_blanks(alloc: Global, text: &str) -> Made<String> {
    let mut draft = Draft::new(alloc);
    for character in text.chars() {
        if !matches!(character, ' ' | '\t'..='\r') {
            draft.add_char(character);
        }
    }
    draft.finish()
}

/// Whether two texts are the same but for blanks and line ends.
fn are_same_words(alloc: Global, text: &str, other: &str) -> Made<bool> {
    let words = without_blanks(alloc, text)?;
    let others = without_blanks(alloc, other)?;
    Ok(words.as_str() == others.as_str())
}

/// The first row whose texts differ in more than blanks, or that can't be compared for want of memory.
fn first_of_other_words(alloc: Global, rows: &[(&str, &str, &str)]) -> Option<usize> {
    for (index, (_, found, want)) in rows.iter().enumerate() {
        if !matches!(are_same_words(alloc, found, want), Ok(true)) {
            return Some(index);
        }
    }
    None
}

#[test]
fn only_blanks_differ(rt: HostRuntime) {
    see(&rt, first_of_other_words(rt.alloc(), &BLANKS));
}

/// The same, where the third sign of a mark goes too.
const SIG10: [(&str, &str, &str); 10] = [
    ("/// Foo\n///   bar", "/ Foo\n/   bar\n", "Foo\n  bar"),
    ("//! Foo", "! Foo\n", "Foo"),
    ("//// Foo", "// Foo\n", "/ Foo"),
    ("//!! Foo", "!! Foo\n", "! Foo"),
    ("/** Foo */", "* Foo ", "Foo"),
    ("/*! Foo\n *  bar */", "! Foo\n  bar ", "Foo\nbar"),
    (
        "/**\n * Foo\n *   bar\n */",
        "*\n Foo\n   bar\n",
        "Foo\n  bar",
    ),
    ("/***/", "*", ""),
    ("/*** Foo ***/", "** Foo **", "* Foo **"),
    (
        "/***************\n * Title\n ***************/",
        "**************\n Title\n*************",
        "*************\nTitle\n*************",
    ),
];

#[test]
fn third_signs_go(rt: HostRuntime) {
    see(&rt, first_other(rt.alloc(), &SIG10));
}

/// Several comments, and their cleaned text.
const SEVERAL: [(&str, &str); 4] = [
    // Blanks that all line comments begin with go, those of a block comment by themselves.
    (
        "//  a\n/*\n     b\n       c */\n//    d",
        "a\n\nb\n  c\n  d",
    ),
    ("/** a */ // b\n/// c", "a\nb\nc"),
    ("//\n/* */\n//\n", ""),
    ("", ""),
];

/// The first row of several comments that are cleaned to another text.
fn first_other_of_several(alloc: Global, rows: &[(&str, &str)]) -> Option<usize> {
    for (index, (source, want)) in rows.iter().enumerate() {
        if !is_cleaned_to(alloc, source, want) {
            return Some(index);
        }
    }
    None
}

#[test]
fn several_comments(rt: HostRuntime) {
    see(&rt, first_other_of_several(rt.alloc(), &SEVERAL));
}
