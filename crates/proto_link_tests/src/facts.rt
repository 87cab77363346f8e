//! The facts of sources.

use proto_decl::{FileFacts, declare};
use proto_lex::{LexFault, Text, Tokens, lex};
use proto_parse::{Dialect, SyntaxFault, parse_with};
use std::alloc::{AllocError, Global};
use test_kit::Made;

/// The facts of a whole source; none where it isn't accepted.
type Facts<'t> = Made<Option<FileFacts<'t>>>;

/// These facts, if memory was there for them.
fn some_of<'t>(facts: Made<FileFacts<'t>>) -> Facts<'t> {
    Ok(Some(facts?))
}

/// The facts of tokens.
fn facts_of_tokens<'t>(alloc: Global, number: usize, tokens: &Tokens<'_, 't>) -> Facts<'t> {
    match parse_with(alloc, tokens, Dialect::All) {
        Ok(file) => some_of(declare(alloc, number, tokens, &file)),
        Err(SyntaxFault::Memory) => Err(AllocError),
        Err(_) => Ok(None),
    }
}

/// The facts of a text.
fn facts_of_text<'t>(alloc: Global, number: usize, text: &Text<'t>) -> Facts<'t> {
    match lex(alloc, text) {
        Ok(tokens) => facts_of_tokens(alloc, number, &tokens),
        Err(LexFault::Memory) => Err(AllocError),
        Err(_) => Ok(None),
    }
}

/// The facts of a source.
pub(crate) fn facts_of<'t>(alloc: Global, number: usize, source: &'t str) -> Facts<'t> {
    match Text::new(alloc, source.as_bytes()) {
        Ok(text) => facts_of_text(alloc, number, &text),
        Err(LexFault::Memory) => Err(AllocError),
        Err(_) => Ok(None),
    }
}
