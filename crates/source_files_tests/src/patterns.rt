//! What patterns exclude. A row is patterns, with a space between two, a folder and a name, with `|` between these.

use crate::roots::see;
use globs::is_excluded;
use std::alloc::{AllocError, Global};
use std::test::Fail;

/// What is excluded. The first row reads: `.git` excludes what has this name in the folder `a`.
static EXCLUDED: [&str; 18] = [
    ".git|a/|.git",
    ".git||.git",
    "*_test.proto|a/b/|x_test.proto",
    "*|a/|.proto",
    "?.proto||a.proto",
    "?.proto||\u{e9}.proto",
    "a?c||a\u{20ac}c",
    "/a.proto||a.proto",
    "a/*.proto|a/|b.proto",
    "a/**/b|a/x/y/|b",
    "a/**|a/x/|b",
    "third_party/**/old|third_party/x/|old",
    "**/b|a/|b",
    "x y|a/|y",
    "a***b||axb",
    "a*b*c||abbbc",
    "*a*a*a*a*b||aaaaaaaaaaaaaaaaaaaaaaaaaaaaaaaaaaaaaaab",
    "|a/|",
];

/// What isn't.
static KEPT: [&str; 14] = [
    ".git|a/|.gitignore",
    "a|a/|b",
    "a/*|a/b/|c",
    "*.proto||a.protos",
    "?||ab",
    "?||",
    "a?c|a/|a",
    "a?c||a/c",
    "/a.proto|b/|a.proto",
    "a/b|x/a/|b",
    "A||a",
    "a**/b||a",
    "*a*a*a*a*a*a*a*a*b||aaaaaaaaaaaaaaaaaaaaaaaaaaaaaaaaaaaaaaaa",
    "x y|a/|z",
];

/// The patterns of a row.
fn patterns_of(alloc: Global, text: &str) -> Result<Vec<String>, AllocError> {
    let mut patterns = Vec::new(alloc);
    for pattern in text.split(' ') {
        patterns.push(String::from_str(alloc, pattern)?)?;
    }
    Ok(patterns)
}

/// Whether a row's patterns exclude its name.
fn is_row_excluded(alloc: Global, row: &str) -> Result<bool, AllocError> {
    let (patterns, rest) = row.split_once('|').unwrap_or((row, ""));
    let (folder, name) = rest.split_once('|').unwrap_or((rest, ""));
    is_excluded(alloc, &patterns_of(alloc, patterns)?, folder, name)
}

#[test]
fn names_and_paths(rt: HostRuntime) -> Result<(), Fail> {
    for row in &EXCLUDED {
        see(&rt, is_row_excluded(rt.alloc(), *row)?, *row);
    }
    for row in &KEPT {
        see(&rt, !is_row_excluded(rt.alloc(), *row)?, *row);
    }
    Ok(())
}
