//! Worked sources. The kinds, the spellings and the offsets are those that the proto3
//! specification's lexical elements give by hand.

use crate::calls::see;
use proto_lex::{Comment, CommentKind, LexFault, TokenKind, Tokens};
use std::alloc::{AllocError, Global};
use std::test::Fail;
use test_kit::{text_of, tokens_of};

/// The fault of a source, if it has one.
fn fault_of(alloc: Global, source: &[u8]) -> Option<LexFault> {
    match text_of(alloc, source) {
        Ok(text) => tokens_of(alloc, &text).err(),
        Err(fault) => Some(fault),
    }
}

/// The first case with another fault.
fn first_other_fault(alloc: Global, cases: &[(&[u8], LexFault)]) -> Option<usize> {
    for (index, (source, want)) in cases.iter().enumerate() {
        if fault_of(alloc, source) != Some(*want) {
            return Some(index);
        }
    }
    None
}

/// Sources and their faults. The second row reads: a string that the end of the text cuts off, its
/// opening quote at 0.
const FAULTS: [(&[u8], LexFault); 6] = [
    (b"@", LexFault::BadByte(0)),
    (b"\"abc", LexFault::OpenString(0)),
    (b"/* x", LexFault::OpenComment(0)),
    (b"08", LexFault::BadNumber(0)),
    (b"\"\\q\"", LexFault::BadEscape(1)),
    (b"\xFF", LexFault::NotUtf8(0)),
];

#[test]
fn faults_and_their_offsets(rt: HostRuntime) {
    see(&rt, first_other_fault(rt.alloc(), &FAULTS));
}

/// Faults, and how they are displayed.
const DISPLAYED: [(LexFault, &str); 8] = [
    (LexFault::TooLong, "more than 67108864 bytes"),
    (LexFault::NotUtf8(7), "bytes that aren't UTF-8, at byte 7"),
    (
        LexFault::BadByte(12),
        "a character that can't be here, at byte 12",
    ),
    (
        LexFault::OpenString(8),
        "a string without an end on its line, at byte 8",
    ),
    (
        LexFault::OpenComment(9),
        "a comment without its `*/`, at byte 9",
    ),
    (
        LexFault::BadEscape(10),
        "a backslash that begins no escape, at byte 10",
    ),
    (
        LexFault::BadNumber(11),
        "letters and digits that are no number, at byte 11",
    ),
    (LexFault::Memory, "memory ran out"),
];

/// The first fault that is displayed otherwise.
fn first_displayed_otherwise(
    alloc: Global,
    cases: &[(LexFault, &str)],
) -> Result<Option<usize>, AllocError> {
    for (index, (fault, want)) in cases.iter().enumerate() {
        let text = format!(in alloc; "{fault}")?;
        if text.as_str() != *want {
            return Ok(Some(index));
        }
    }
    Ok(None)
}

#[test]
fn faults_are_displayed_as_sentences(rt: HostRuntime) -> Result<(), Fail> {
    see(&rt, first_displayed_otherwise(rt.alloc(), &DISPLAYED)?);
    Ok(())
}

/// A source with a token of each kind, and a comment of each.
const SOURCE: &str = "\u{FEFF}message 0x1F .5 'x' // b\r\n/* /* */;={}[]()<>,.:+-/";

/// Its tokens. The second row reads: `0x1F` is one token, an integer.
const TOKENS: [(TokenKind, &str); 20] = [
    (TokenKind::Identifier, "message"),
    (TokenKind::Integer, "0x1F"),
    (TokenKind::Float, ".5"),
    (TokenKind::StringLiteral, "'x'"),
    (TokenKind::Semicolon, ";"),
    (TokenKind::Equals, "="),
    (TokenKind::OpenBrace, "{"),
    (TokenKind::CloseBrace, "}"),
    (TokenKind::OpenBracket, "["),
    (TokenKind::CloseBracket, "]"),
    (TokenKind::OpenParenthesis, "("),
    (TokenKind::CloseParenthesis, ")"),
    (TokenKind::Less, "<"),
    (TokenKind::Greater, ">"),
    (TokenKind::Comma, ","),
    (TokenKind::Dot, "."),
    (TokenKind::Colon, ":"),
    (TokenKind::Plus, "+"),
    (TokenKind::Minus, "-"),
    (TokenKind::Slash, "/"),
];

/// The first token that has another kind or spelling; how many there are, where that is another number.
fn first_misread(found: &Tokens<'_, '_>, want: &[(TokenKind, &str)]) -> Option<usize> {
    if found.tokens().len() != want.len() {
        return Some(found.tokens().len());
    }
    for (index, (kind, spelling)) in want.iter().enumerate() {
        if index >= found.tokens().len() {
            return Some(index);
        }
        if found.tokens()[index].kind != *kind || found.slice(index) != *spelling {
            return Some(index);
        }
    }
    None
}

/// Whether the comments of `SOURCE` are a line of five bytes, its `\r` among them, and a block.
fn are_comments(found: &[Comment]) -> bool {
    match found {
        [line, block] => {
            line.kind == CommentKind::Line
                && line.span.start == 23
                && line.span.end == 28
                && block.kind == CommentKind::Block
                && block.span.start == 29
                && block.span.end == 37
        }
        _ => false,
    }
}

/// What went wrong in a source, if so.
fn wrong_of(
    alloc: Global,
    source: &str,
    want: &[(TokenKind, &str)],
) -> Result<Option<usize>, LexFault> {
    let text = text_of(alloc, source.as_bytes())?;
    let found = tokens_of(alloc, &text)?;
    if found.text().as_str() != source || !are_comments(found.comments()) {
        return Ok(Some(0));
    }
    Ok(first_misread(&found, want))
}

#[test]
fn each_kind_of_token_and_comment(rt: HostRuntime) -> Result<(), Fail> {
    see(&rt, wrong_of(rt.alloc(), SOURCE, &TOKENS)?);
    Ok(())
}
