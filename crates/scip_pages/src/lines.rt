//! Lines of a source, ranges that fit it, and the occurrences that begin on each line.

ghost use Rattle.std.specs.Prelude.{◌≡◌, ◌<◌, ◌++◌, [], ◌∷◌, ◌==◌, ℕ, List, length, map, filter, cond, IfOk, OnOk};
ghost use Rattle.std.specs.Borrow.{Bor};
ghost use Rattle.std.specs.List.{All};
ghost use Rattle.scip_pages.specs.Snapshot as spec;
ghost use Rattle.scip_pages.specs.Listed.{listed_on};

use crate::counted::Lines;
use scip_records::{Occurrence, Range};
use std::alloc::{AllocError, Global};

/// The lines of a text: what is between its `\n`, and before and behind them.
pub fn lines_of(alloc: Global, text: &str) -> Result<Vec<&str>, AllocError>
    ensures { IfOk result (λ lines. map (λ (line : Bor (List ℕ)). line.now) lines.items ≡ spec.lines_of text.now) }
{
    text.split('\n').collect(alloc)
}

/// The offset of a column of the line with a number.
fn offset_at(lines: &Lines<'_>, line: u32, column: u32) -> Option<usize>
    ensures { result ≡ spec.offset_at lines.now.unit (map (λ (l : Bor (List ℕ)). l.now) lines.now.lines) line column }
{
    match lines.texts().get(line as usize) {
        Some(_) => lines.line(line as usize).offset_of(column),
        None => None,
    }
}

/// Whether a range has both its places, and begins no later than it ends.
fn is_ordered(range: Range, from: Option<usize>, to: Option<usize>) -> bool
    ensures { result ≡ spec.is_ordered range from to }
{
    match (from, to) {
        (Some(from), Some(to)) => {
            range.start_line() < range.end_line()
                || (range.start_line() == range.end_line() && from <= to)
        }
        _ => false,
    }
}

/// Whether the range of an occurrence is one of a source.
fn fits(lines: &Lines<'_>, occurrence: &Occurrence) -> bool
    ensures { result ≡ spec.fits lines.now.unit (map (λ (l : Bor (List ℕ)). l.now) lines.now.lines) occurrence.now }
{
    let range = occurrence.range;
    let from = offset_at(lines, range.start_line(), range.start_column());
    let to = offset_at(lines, range.end_line(), range.end_column());
    is_ordered(range, from, to)
}

/// The number, from 0, of the first occurrence whose range isn't one of a source with these lines.
pub fn misfit(lines: &Lines<'_>, occurrences: &[Occurrence]) -> Option<usize>
    ensures { result ≡ spec.misfit lines.now.unit (map (λ (l : Bor (List ℕ)). l.now) lines.now.lines) occurrences.now }
{
    for (number, occurrence) in occurrences.iter().enumerate() {
        if !fits(lines, occurrence) {
            return Some(number);
        }
    }
    None
}

/// Empty lists, so many.
fn empty_lists<'a>(alloc: Global, count: usize) -> Result<Vec<Vec<&'a Occurrence>>, AllocError>
    ensures count { IfOk result (λ table. length table.items ≡ count) }
    ensures empty { IfOk result (λ table. All (λ listed. listed.items ≡ []) table.items) }
{
    let mut table = Vec::with_capacity(alloc, count)?;
    for _ in 0..count {
        table.push(Vec::new(alloc))?;
    }
    Ok(table)
}

/// Appends an occurrence to the list of the line on which it begins.
fn add<'a>(table: &mut [Vec<&'a Occurrence>], occurrence: &'a Occurrence) -> Result<(), AllocError>
    ensures count { length table.new ≡ length table.old }
    ensures listed { OnOk result ((number : ℕ) → number < length table.old → listed_on table.new number
        ≡ listed_on table.old number ++ cond (spec.starts_on number occurrence.now) (occurrence.now ∷ []) []) }
{
    let line = occurrence.range.start_line() as usize;
    if line < table.len() {
        table[line].push(occurrence)?;
    }
    Ok(())
}

/// For each of this many lines the occurrences that begin on it.
pub(crate) fn by_line<'a>(
    alloc: Global,
    count: usize,
    occurrences: &'a [Occurrence],
) -> Result<Vec<Vec<&'a Occurrence>>, AllocError>
    ensures count { IfOk result (λ table. length table.items ≡ count) }
    ensures listed { IfOk result (λ table. (number : ℕ) → number < count → listed_on table.items number
        ≡ filter (spec.starts_on number) occurrences.now) }
{
    let mut table = empty_lists(alloc, count)?;
    for occurrence in occurrences {
        add(&mut table, occurrence)?;
    }
    Ok(table)
}
