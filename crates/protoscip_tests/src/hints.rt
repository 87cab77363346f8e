//! What could be at places of sources, in each dialect. A row is a source up to a place, and behind `|` what is told of
//! the place.

use crate::calls::see;
use diagnostics::{MAX_FRONT, hint_text};
use proto_parse::{CustomOptions, Dialect};
use std::alloc::{AllocError, Global};
use std::process::Abort;
use std::test::Fail;

/// Only proto3. The first row reads: in a message can be a `;`, a `}`, a `.` or a name.
static PROTO3: [&str; 3] = [
    "syntax = \"proto3\"; message A {|: `;`, `}`, `.` or a name",
    "syntax = \"proto3\"; message A { B b = 1 [a = - |: a number, `inf` or `nan`",
    "syntax = \"proto3\"; package p; /* a */ // b\n |: `;`, `message`, `enum`, `option`, `import` or `service`",
];

/// If custom options are read past.
static READ_PAST: [&str; 1] = [
    "syntax = \"proto3\"; option a = |: `{`, `-`, `+`, a number, a string or a name",
];

/// If all sources are accepted. In the last any token can be there.
static OF_ALL: [&str; 3] = [
    "syntax = |: `\"proto3\"` or `\"proto2\"`",
    "message A { optional group |: `.` or a name that begins with a capital letter",
    "option a = { b: 1 |: `;`, `}`, `{`, `=`, `]`, `[`, `)`, `(`, `>` or others",
];

/// What is told of a place behind this front. After want of memory it is asked again, and the second answer counts.
fn hints_behind(alloc: Global, dialect: Dialect, front: &str) -> Result<String, AllocError> {
    match hint_text(alloc, dialect, front.as_bytes()) {
        Err(AllocError) => hint_text(alloc, dialect, front.as_bytes()),
        answer => answer,
    }
}

/// Whether a row holds.
fn holds(alloc: Global, dialect: Dialect, row: &str) -> Result<bool, AllocError> {
    let (front, due) = row.split_once('|').unwrap_or((row, "?"));
    Ok(hints_behind(alloc, dialect, front)?.as_str() == due)
}

/// Sees that rows hold.
fn see_rows(
    rt: &impl Abort,
    alloc: Global,
    dialect: Dialect,
    rows: &[&str],
) -> Result<(), AllocError> {
    for row in rows {
        see(rt, holds(alloc, dialect, row)?, row);
    }
    Ok(())
}

#[test]
fn in_each_dialect(rt: HostRuntime) -> Result<(), Fail> {
    let (refuse, skip) = (CustomOptions::Refuse, CustomOptions::Skip);
    see_rows(&rt, rt.alloc(), Dialect::Proto3(refuse), &PROTO3)?;
    see_rows(&rt, rt.alloc(), Dialect::Proto3(skip), &READ_PAST)?;
    see_rows(&rt, rt.alloc(), Dialect::All, &OF_ALL)?;
    Ok(())
}

/// Whether nothing is told of a place behind so many spaces.
fn is_silent(alloc: Global, spaces: usize) -> Result<bool, AllocError> {
    let front = " ".repeat(alloc, spaces)?;
    Ok(hints_behind(alloc, Dialect::All, front.as_str())?.is_empty())
}

/// Nothing is told of a place behind more than `MAX_FRONT` bytes.
#[test]
fn far_behind(rt: HostRuntime) -> Result<(), Fail> {
    see(&rt, !is_silent(rt.alloc(), MAX_FRONT)?, "the last place");
    see(&rt, is_silent(rt.alloc(), MAX_FRONT + 1)?, "behind it");
    Ok(())
}
