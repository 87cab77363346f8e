//! What the tests see of the queries of an index. One function has the queries, and all others borrow
//! them.

use crate::asked::{queries, see_answered};
use crate::lookups::{see_innermost, see_places, see_texts};
use scip_query::Queries;
use std::alloc::{AllocError, Global};
use std::process::Abort;

/// What is seen.
#[derive(Clone, Copy)]
pub enum Check<'a> {
    /// The answers to commands that are read, one a line; to a single one, also given as it is.
    Answers(&'a str, &'a str),
    /// Places of references and of definitions.
    Places,
    /// Texts and symbols.
    Texts,
    /// What is at positions.
    Innermost,
}

/// Sees the answers to commands, and to a single one without its line end too.
fn see_answers(rt: &impl Abort, alloc: Global, asked: &Queries, commands: &str, answers: &str) {
    if commands.split_once('\n').is_none() {
        see_answered(rt, alloc, asked, commands, false, answers);
    }
    see_answered(rt, alloc, asked, commands, true, answers);
}

/// Sees what a check asks for.
fn see_check(rt: &impl Abort, alloc: Global, asked: &Queries, check: Check<'_>) {
    match check {
        Check::Answers(commands, answers) => see_answers(rt, alloc, asked, commands, answers),
        Check::Places => see_places(rt, alloc, asked),
        Check::Texts => see_texts(rt, alloc, asked),
        Check::Innermost => see_innermost(rt, asked),
    }
}

/// Sees this of the index that bytes spell.
pub fn see_bytes(
    rt: &impl Abort,
    alloc: Global,
    bytes: &[u8],
    check: Check<'_>,
) -> Result<(), AllocError> {
    let asked = queries(rt, alloc, bytes)?;
    see_check(rt, alloc, &asked, check);
    Ok(())
}
