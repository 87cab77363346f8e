//! Positions of a document, and what is there.

ghost use Rattle.std.specs.Prelude.{◌≡◌};
ghost use Rattle.std.specs.Ordering.{nat_cmp, ordering_then};
ghost use Rattle.std.specs.Cmp.Lexicographic.{slice_cmp};
ghost use Rattle.scip_query.specs.Positions.{position_cmp, start_of, end_of, contains};
ghost use Rattle.scip_query.specs.OccurrenceAt.{stands_at, innermost_cmp};

use scip_records::{Occurrence, Range};
use std::cmp::Ordering;

/// A zero-based line and column. Columns count the units of the document's position encoding.
#[derive(Clone, Copy, Debug, PartialEq, Eq)]
pub struct Position {
    /// The line, from 0.
    pub line: u32,
    /// The column, from 0.
    pub column: u32,
}

/// Where a range begins.
pub fn start_of(range: Range) -> Position
    ensures { result ≡ start_of range }
{
    Position {
        line: range.start_line(),
        column: range.start_column(),
    }
}

/// Where a range ends.
pub fn end_of(range: Range) -> Position
    ensures { result ≡ end_of range }
{
    Position {
        line: range.end_line(),
        column: range.end_column(),
    }
}

/// Which of two positions comes first: by line, then column.
pub fn compare_positions(a: Position, b: Position) -> Ordering
    ensures { result ≡ position_cmp a b }
{
    a.line.cmp(&b.line).then(a.column.cmp(&b.column))
}

/// By where two occurrences begin.
pub(crate) fn compare_starts(a: &Occurrence, b: &Occurrence) -> Ordering
    ensures { result ≡ position_cmp (start_of a.now.range) (start_of b.now.range) }
{
    compare_positions(start_of(a.range), start_of(b.range))
}

/// How the start of an occurrence's range compares with a position.
pub(crate) fn compare_start(occurrence: &Occurrence, position: Position) -> Ordering
    ensures { result ≡ position_cmp (start_of occurrence.now.range) position }
{
    compare_positions(start_of(occurrence.range), position)
}

/// Whether a half-open range contains a position; an empty one contains its own position.
fn contains(range: Range, position: Position) -> bool
    ensures { result ≡ contains range position }
{
    let from_start = compare_positions(start_of(range), position);
    let to_end = compare_positions(position, end_of(range));
    (from_start.is_le() && to_end.is_lt()) || (from_start.is_eq() && to_end.is_eq())
}

/// Whether an occurrence has a symbol and its range contains the position.
pub(crate) fn stands_at(occurrence: &Occurrence, position: Position) -> bool
    ensures { result ≡ stands_at position occurrence.now }
{
    !occurrence.symbol.as_str().is_empty() && contains(occurrence.range, position)
}

/// By the earlier end, then the lesser symbol. Symbols are looked at only where the ends are alike.
fn compare_ends(a: &Occurrence, b: &Occurrence) -> Ordering
    ensures { result ≡ ordering_then (position_cmp (end_of a.now.range) (end_of b.now.range))
        (slice_cmp nat_cmp a.now.symbol b.now.symbol) }
{
    match compare_positions(end_of(a.range), end_of(b.range)) {
        Ordering::Less => Ordering::Less,
        Ordering::Equal => a.symbol.as_str().cmp(b.symbol.as_str()),
        Ordering::Greater => Ordering::Greater,
    }
}

/// The innermost first: by the later start, then the earlier end, then the lesser symbol.
pub(crate) fn compare_innermost(a: &Occurrence, b: &Occurrence) -> Ordering
    ensures { result ≡ innermost_cmp a.now b.now }
{
    match compare_positions(start_of(b.range), start_of(a.range)) {
        Ordering::Less => Ordering::Less,
        Ordering::Equal => compare_ends(a, b),
        Ordering::Greater => Ordering::Greater,
    }
}
