//! Calls that are made again after `Memory`, and how a test tells what it saw. One function has the
//! tree of a source, and all others borrow it.

use proto_lex::{Text, Tokens};
use proto_parse::{CustomOptions, Dialect, File, SyntaxFault, parse, parse_with};
use std::alloc::{AllocError, Global};
use std::process::Abort;
use test_kit::{text_of, tokens_of};

/// The statement that each source of proto3 begins with.
pub const SYNTAX: &str = "syntax = \"proto3\";\n";

/// Only proto3, without custom options.
pub const PROTO3: Dialect = Dialect::Proto3(CustomOptions::Refuse);

/// Only proto3, where custom options are read past.
pub const PAST: Dialect = Dialect::Proto3(CustomOptions::Skip);

/// Ends the test where something went wrong: a row of its table, from 0, or a place.
pub fn see(rt: &impl Abort, wrong: Option<usize>) {
    assert!(rt; wrong.is_none(), "wrong at {wrong:?}");
}

/// What `parse` answers, or `parse_with` in another dialect.
fn parse_so(alloc: Global, tokens: &Tokens<'_, '_>, dialect: Dialect) -> Result<File, SyntaxFault> {
    match dialect {
        Dialect::Proto3(CustomOptions::Refuse) => parse(alloc, tokens),
        Dialect::Proto3(CustomOptions::Skip) | Dialect::All => parse_with(alloc, tokens, dialect),
    }
}

/// The tree of tokens. After `Memory` it is made again, and the second answer counts.
pub fn tree_of(
    alloc: Global,
    tokens: &Tokens<'_, '_>,
    dialect: Dialect,
) -> Result<File, SyntaxFault> {
    match parse_so(alloc, tokens, dialect) {
        Err(SyntaxFault::Memory) => parse_with(alloc, tokens, dialect),
        answer => answer,
    }
}

/// Why tokens have no tree, if they have none.
pub fn fault_of_tokens(
    alloc: Global,
    tokens: &Tokens<'_, '_>,
    dialect: Dialect,
) -> Option<SyntaxFault> {
    tree_of(alloc, tokens, dialect).err()
}

/// The fault of the parser in a text, in this dialect.
fn fault_of_text(alloc: Global, text: &Text<'_>, dialect: Dialect) -> Option<SyntaxFault> {
    match tokens_of(alloc, text) {
        Ok(tokens) => fault_of_tokens(alloc, &tokens, dialect),
        Err(_) => Some(SyntaxFault::Memory),
    }
}

/// Why a source has no tree, if it has none. One with no tokens counts as one that memory ran out for,
/// which no test wants.
fn fault_of_source(alloc: Global, source: &str, dialect: Dialect) -> Option<SyntaxFault> {
    match text_of(alloc, source.as_bytes()) {
        Ok(text) => fault_of_text(alloc, &text, dialect),
        Err(_) => Some(SyntaxFault::Memory),
    }
}

/// Three texts, joined. After want of memory they are joined again.
pub fn joined(alloc: Global, front: &str, middle: &str, end: &str) -> Result<String, AllocError> {
    match [front, middle, end].join(alloc, "") {
        Err(AllocError) => [front, middle, end].join(alloc, ""),
        text => text,
    }
}

/// Why these three texts, joined, have no tree, if they have none.
pub fn fault_of(
    alloc: Global,
    front: &str,
    middle: &str,
    end: &str,
    dialect: Dialect,
) -> Option<SyntaxFault> {
    match joined(alloc, front, middle, end) {
        Ok(source) => fault_of_source(alloc, source.as_str(), dialect),
        Err(_) => Some(SyntaxFault::Memory),
    }
}

/// The offset of a fault, or 0.
pub fn offset_of(fault: SyntaxFault) -> usize {
    fault.offset().unwrap_or(0)
}

/// Whether a source, behind a front, has the fault that it names where its `^` is.
fn is_refused(alloc: Global, front: &str, row: &str, dialect: Dialect) -> bool {
    let (name, marked) = row.split_once(": ").unwrap_or(("", row));
    let Some((before, behind)) = marked.split_once('^') else {
        return false;
    };
    let offset = front.len().wrapping_add(before.len());
    match fault_of(alloc, front, before, behind, dialect) {
        Some(fault) => fault.name() == name && fault.offset() == Some(offset),
        None => false,
    }
}

/// The first source that has another fault than it names, or has it elsewhere.
pub fn first_other(
    alloc: Global,
    front: &str,
    sources: &[&str],
    dialect: Dialect,
) -> Option<usize> {
    for (index, row) in sources.iter().enumerate() {
        if !is_refused(alloc, front, row, dialect) {
            return Some(index);
        }
    }
    None
}
