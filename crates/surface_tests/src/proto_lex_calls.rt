//! Texts, positions and tokens.

use crate::shared::see;
use proto_lex::{Encoding, Hashes, LexFault, Position, Span, Text, Tokens, lex, lex_with};
use std::alloc::Global;
use std::process::Abort;
use std::test::Fail;

/// Sees where the message `A` is, in both units.
fn see_position(rt: &impl Abort, text: &Text) {
    if !text.as_str().is_char_boundary(36) {
        return see(rt, false, "A is elsewhere");
    }
    let bytes = text.position(36, Encoding::Utf8);
    let is_so = bytes
        == Position {
            line: 1,
            column: 17,
        };
    see(rt, is_so, "the place of A in bytes");
    let units = text.position(36, Encoding::Utf16);
    let is_so = units
        == Position {
            line: 1,
            column: 16,
        };
    see(rt, is_so, "the place of A in units of UTF-16");
}

#[test]
fn text_position_counts_in_both_units(rt: HostRuntime) -> Result<(), Fail> {
    let source = "syntax = \"proto3\";\n/* \u{e9} */ message A {}\n";
    see_position(&rt, &Text::new(rt.alloc(), source.as_bytes())?);
    Ok(())
}

/// Sees the tokens of a message with a comment behind it.
fn see_tokens(rt: &impl Abort, tokens: &Tokens, text: &str) {
    let [_, name, _, _] = tokens.tokens() else {
        return see(rt, false, "four tokens");
    };
    let [comment] = tokens.comments() else {
        return see(rt, false, "one comment");
    };
    see(rt, name.span == Span { start: 8, end: 9 }, "the span of A");
    see(rt, tokens.slice(1) == "A", "the second token");
    let is_so = comment.span == Span { start: 13, end: 20 };
    see(rt, is_so, "the span of the comment");
    let is_so = tokens.text().as_str() == text;
    see(rt, is_so, "the text that was lexed");
}

/// Sees the tokens of a text.
fn see_text(rt: &impl Abort, alloc: Global, text: &Text) -> Result<(), LexFault> {
    see_tokens(rt, &lex(alloc, text)?, text.as_str());
    Ok(())
}

#[test]
fn tokens_have_slices_and_their_text(rt: HostRuntime) -> Result<(), Fail> {
    let text = Text::new(rt.alloc(), b"message A {} // tail")?;
    Ok(see_text(&rt, rt.alloc(), &text)?)
}

/// Sees how many tokens a text has, if a `#` begins a comment in values.
fn see_count(rt: &impl Abort, alloc: Global, text: &Text, count: usize) -> Result<(), LexFault> {
    let lexed = lex_with(alloc, text, Hashes::InValues)?;
    see(
        rt,
        lexed.tokens().len() == count,
        "the tokens without those of a comment",
    );
    Ok(())
}

/// Sees where a text has a byte that can't be there.
fn see_bad_byte(rt: &impl Abort, alloc: Global, text: &Text, at: usize) {
    match lex_with(alloc, text, Hashes::InValues) {
        Err(LexFault::BadByte(bad)) => see(rt, bad == at, "the byte that can't be there"),
        _ => see(rt, false, "a byte that can't be there"),
    }
}

#[test]
fn hashes_begin_comments_in_values(rt: HostRuntime) -> Result<(), Fail> {
    let value = Text::new(rt.alloc(), b"option a = { b { } # { } $ '}' // }\n };")?;
    see_count(&rt, rt.alloc(), &value, 9)?;
    let body = Text::new(rt.alloc(), b"message A { # }")?;
    see_bad_byte(&rt, rt.alloc(), &body, 12);
    let inner = Text::new(rt.alloc(), b"option a = { b { # } };")?;
    see_bad_byte(&rt, rt.alloc(), &inner, 17);
    Ok(())
}
