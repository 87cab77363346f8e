//! Large texts, which no call may refuse for their size: that time and memory are there for them, no
//! contract says.

use crate::calls::see;
use proto_lex::{LexFault, Text};
use std::alloc::Global;
use std::test::Fail;
use test_kit::{text_of, tokens_of};

/// How many tokens a source has.
fn token_count(alloc: Global, source: &[u8]) -> Result<usize, LexFault> {
    let text = text_of(alloc, source)?;
    let found = tokens_of(alloc, &text)?;
    Ok(found.tokens().len())
}

/// The line of the end of a source.
fn last_line(alloc: Global, source: &[u8]) -> Result<usize, LexFault> {
    let text = text_of(alloc, source)?;
    Ok(text.line(text.len()))
}

/// A number where this isn't the one that is wanted.
fn other(found: usize, want: usize) -> Option<usize> {
    if found == want { None } else { Some(found) }
}

#[test]
fn two_million_tokens(rt: HostRuntime) -> Result<(), Fail> {
    let signs = vec![in rt.alloc(); b';'; 2_000_000]?;
    see(&rt, other(token_count(rt.alloc(), &signs)?, 2_000_000));
    Ok(())
}

#[test]
fn two_million_lines(rt: HostRuntime) -> Result<(), Fail> {
    let line_ends = vec![in rt.alloc(); b'\n'; 2_000_000]?;
    see(&rt, other(last_line(rt.alloc(), &line_ends)?, 2_000_000));
    Ok(())
}

#[test]
fn longest_text_has_67108864_bytes(rt: HostRuntime) -> Result<(), Fail> {
    let spaces = vec![in rt.alloc(); b' '; 67_108_864]?;
    let text = text_of(rt.alloc(), &spaces)?;
    see(&rt, other(text.len(), 67_108_864));
    Ok(())
}

#[test]
fn one_byte_more_is_too_long(rt: HostRuntime) -> Result<(), Fail> {
    let bytes = vec![in rt.alloc(); b'\xFF'; 67_108_865]?;
    let refused = matches!(Text::new(rt.alloc(), &bytes), Err(LexFault::TooLong));
    see(&rt, if refused { None } else { Some(0) });
    Ok(())
}
