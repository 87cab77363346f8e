//! Joins of indexes, written and read again.

use crate::calls::see;
use crate::join_rows::{ROWS, Row};
use crate::notation::{index_of, text_of};
use basics::OwnedText;
use scip_join::{IndexJoin, JoinChoices, JoinFault, JoinedIndex, TwoDocuments};
use scip_records::Index;
use scip_wire::read_index;
use std::alloc::{AllocError, Global};
use std::process::Abort;
use std::test::Fail;
use streams::Std;

/// What a row asks for.
fn choices_of(alloc: Global, row: &Row) -> Result<JoinChoices, AllocError> {
    let project_root = match row.root {
        "" => None,
        root => Some(OwnedText::copy_of(alloc, root)?),
    };
    Ok(JoinChoices {
        project_root,
        replace: row.replace,
    })
}

/// Adds the index that a text says.
fn add(alloc: Global, join: &mut IndexJoin, text: &str) -> Result<(), JoinFault> {
    let index = index_of(alloc, text)?;
    join.add(alloc, index)
}

/// The join of a row's indexes, in pieces.
fn join_of(alloc: Global, row: &Row) -> Result<JoinedIndex, JoinFault> {
    let mut join = IndexJoin::new(alloc, choices_of(alloc, row)?);
    for text in row.indexes.split_terminator('|') {
        add(alloc, &mut join, text)?;
    }
    join.finish(alloc)
}

/// The index that is read where a join was written.
fn read_back(alloc: Global, joined: &JoinedIndex) -> Option<Index> {
    let mut out = Std::new(Vec::new(alloc));
    match joined.write(&mut out) {
        Ok(()) => read_index(alloc, out.into_inner().as_slice()).ok(),
        Err(_) => None,
    }
}

/// Whether a text is this one.
fn is_text(made: Result<String, AllocError>, want: &str) -> bool {
    match made {
        Ok(text) => text.as_str() == want,
        Err(AllocError) => false,
    }
}

/// Whether a join is the one that a row wants.
fn is_joined(alloc: Global, joined: &JoinedIndex, want: &str) -> bool {
    match read_back(alloc, joined) {
        Some(index) => is_text(text_of(alloc, &index), want),
        None => false,
    }
}

/// Whether a text is this number.
fn is_number(text: &str, number: usize) -> bool {
    match text.parse::<usize>() {
        Ok(is) => is == number,
        Err(_) => false,
    }
}

/// Whether numbers are those that a text ends with.
fn has_numbers(two: &TwoDocuments, numbers: &str) -> bool {
    match numbers.split_once(' ') {
        Some((earlier, later)) => { is_number(earlier, two.earlier) && is_number(later, two.later) }
        None => false,
    }
}

/// Whether two documents with one path are those that a row wants.
fn is_twice(two: &TwoDocuments, want: &str) -> bool {
    match want.split_once(' ') {
        Some((path, numbers)) => two.path.as_str() == path && has_numbers(two, numbers),
        None => false,
    }
}

/// Whether a refusal is the one that a row wants.
fn is_refused(fault: &JoinFault, want: &str) -> bool {
    match want.strip_prefix(fault.name()) {
        Some(rest) => match fault {
            JoinFault::Twice(two) => is_twice(two, rest.trim_start()),
            _ => rest.is_empty(),
        },
        None => false,
    }
}

/// Sees that the join of a row's indexes is the one that it wants.
fn see_row(rt: &impl Abort, alloc: Global, row: &Row) {
    let is = match join_of(alloc, row) {
        Ok(joined) => is_joined(alloc, &joined, row.joined),
        Err(fault) => is_refused(&fault, row.joined),
    };
    see(rt, is, row.case);
}

#[test]
fn joins_are_those_of_the_rows(rt: HostRuntime) -> Result<(), Fail> {
    for row in &ROWS {
        see_row(&rt, rt.alloc(), row);
    }
    Ok(())
}
