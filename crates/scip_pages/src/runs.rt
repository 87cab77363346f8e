//! What of a line occurrences mark.

ghost use Rattle.std.specs.Prelude.{◌≡◌, ◌≤◌, ◌<◌, ◌==◌, ◌++◌, [], ◌∷◌, ℕ, length, map, cond, get_or, drop};
ghost use Rattle.std.specs.Prelude.{IfOk, OnOk, None, Some};
ghost use Rattle.std.specs.List.{prefix_len, range_with_len};
ghost use Rattle.scip_pages.specs.Runs as spec;

use crate::counted::Line;
use scip_records::Range;
use std::alloc::{AllocError, Global};

/// A line that one span marks has so many runs at most.
const ONCE_RUNS: usize = 3;

/// The bytes of a line that an occurrence marks: from `start` up to, and without, `end`.
#[derive(Clone, Copy, Debug, PartialEq, Eq)]
pub struct Span {
    /// The first of the bytes, from the line's start.
    pub start: usize,
    /// What is behind the last one.
    pub end: usize,
    /// The number of the occurrence.
    pub occurrence: usize,
}

/// Neighbouring bytes of a line that one occurrence marks, or none.
#[derive(Clone, Copy, Debug, PartialEq, Eq)]
pub struct Run {
    /// How many bytes it has.
    pub len: usize,
    /// The number of the occurrence.
    pub occurrence: Option<usize>,
}

/// Where a range begins on a line with a number.
fn start_on(number: u32, line: &Line<'_>, range: Range) -> Option<usize>
    ensures { result ≡ spec.start_on line.now.unit number line.now.text range }
{
    if range.start_line() == number {
        line.offset_of(range.start_column())
    } else if range.start_line() < number {
        Some(0)
    } else {
        None
    }
}

/// Where it ends there.
fn end_on(number: u32, line: &Line<'_>, range: Range) -> Option<usize>
    ensures { result ≡ spec.end_on line.now.unit number line.now.text range }
{
    if range.end_line() == number {
        line.offset_of(range.end_column())
    } else if number < range.end_line() {
        Some(line.text().len())
    } else {
        None
    }
}

/// What a range marks of the line with a number, from 0. Of a range over several lines each has its part. None if
/// nothing of the range is there, or if one of its columns isn't between two characters of the line.
pub fn span_on(number: u32, line: &Line<'_>, occurrence: usize, range: Range) -> Option<Span>
    ensures { result ≡ spec.span_on line.now.unit number line.now.text occurrence range }
{
    let start = start_on(number, line, range)?;
    let end = end_on(number, line, range)?;
    if start < end {
        Some(Span {
            start,
            end,
            occurrence,
        })
    } else {
        None
    }
}

/// The narrower of two spans, and the first if they are equally wide.
fn narrower(found: Option<Span>, span: Span) -> Span
    ensures { result ≡ spec.narrower found span }
{
    match found {
        Some(other) => {
            let width = span.end.saturating_sub(span.start);
            if width < other.end.saturating_sub(other.start) {
                span
            } else {
                other
            }
        }
        None => span,
    }
}

/// Lays a span on the bytes that it covers if it is narrower than what is there.
fn lay(spans: &mut [Option<Span>], span: Span)
    ensures { (at : ℕ) → at < length spans.old → get_or spans.new at None ≡ cond (spec.covers span at)
        (Some (spec.narrower (get_or spans.old at None) span)) (get_or spans.old at None) }
{
    let end = span.end.min(spans.len());
    for at in span.start..end {
        spans[at] = Some(narrower(spans[at], span));
    }
}

/// The narrowest span of each byte.
fn spans_at(alloc: Global, spans: &[Span], len: usize) -> Result<Vec<Option<Span>>, AllocError>
    ensures { IfOk result (λ found. found.items ≡ map (spec.span_at spans.now) (range_with_len 0 len)) }
{
    let mut found = vec![in alloc; None; len]?;
    for span in spans {
        lay(&mut found, *span);
    }
    Ok(found)
}

/// The number of a span's occurrence.
fn number_of(span: Option<Span>) -> Option<usize>
    ensures { result ≡ spec.number_of span }
{
    match span {
        Some(span) => Some(span.occurrence),
        None => None,
    }
}

/// The numbers of the occurrences of spans.
fn numbers_of(alloc: Global, found: &[Option<Span>]) -> Result<Vec<Option<usize>>, AllocError>
    ensures { IfOk result (λ numbers. numbers.items ≡ map spec.number_of found.now) }
{
    let mut numbers = Vec::with_capacity(alloc, found.len())?;
    for span in found {
        numbers.push(number_of(*span))?;
    }
    Ok(numbers)
}

/// The number of the occurrence that marks each byte.
fn marks_of(alloc: Global, spans: &[Span], len: usize) -> Result<Vec<Option<usize>>, AllocError>
    ensures { IfOk result (λ marks. marks.items ≡ spec.marks_of spans.now len) }
{
    let found = spans_at(alloc, spans, len)?;
    numbers_of(alloc, &found)
}

/// Whether two bytes have one mark.
fn same_mark(a: Option<usize>, b: Option<usize>) -> bool
    ensures { result ≡ spec.same_mark a b }
{
    match (a, b) {
        (Some(a), Some(b)) => a == b,
        (None, None) => true,
        _ => false,
    }
}

/// How many of the first bytes have a mark.
fn run_len(mark: Option<usize>, marks: &[Option<usize>]) -> usize
    ensures len { result ≡ prefix_len (spec.same_mark mark) marks.now }
    ensures within { result ≤ length marks.now }
{
    marks
        .iter()
        .take_while(|other| same_mark(mark, **other))
        .count()
}

/// The runs of marks.
fn runs_of(alloc: Global, marks: &[Option<usize>]) -> Result<Vec<Run>, AllocError>
    ensures { IfOk result (λ runs. runs.items ≡ spec.runs_of marks.now) }
{
    let mut runs = Vec::new(alloc);
    let mut rest = marks;
    while let [mark, others @ ..] = rest {
        let more = run_len(*mark, others);
        runs.push(Run {
            len: more + 1,
            occurrence: *mark,
        })?;
        rest = others.split_at(more).1;
    }
    Ok(runs)
}

/// The run of a line of `len` bytes that nothing marks; none of an empty line.
fn unmarked(alloc: Global, len: usize) -> Result<Vec<Run>, AllocError>
    ensures { IfOk result (λ runs. runs.items ≡ spec.runs_of (spec.marks_of [] len)) }
{
    if len == 0 {
        Ok(Vec::new(alloc))
    } else {
        Vec::from_slice(
            alloc,
            &[Run {
                len,
                occurrence: None,
            }],
        )
    }
}

/// Appends the run of so many bytes that nothing marks, if there are any.
fn push_unmarked(runs: &mut Vec<Run>, len: usize) -> Result<(), AllocError>
    ensures { OnOk result (runs.new.items ≡ runs.old.items ++ spec.runs_of (spec.marks_of [] len)) }
{
    if len == 0 {
        return Ok(());
    }
    runs.push(Run {
        len,
        occurrence: None,
    })?;
    Ok(())
}

/// The run of so many bytes that nothing marks, if there are any, with room for those behind a span.
fn runs_before(alloc: Global, len: usize) -> Result<Vec<Run>, AllocError>
    ensures { IfOk result (λ runs. runs.items ≡ spec.runs_of (spec.marks_of [] len)) }
{
    let mut runs = Vec::with_capacity(alloc, ONCE_RUNS)?;
    push_unmarked(&mut runs, len)?;
    Ok(runs)
}

/// The runs of a line of `len` bytes that one span marks.
fn marked_once(alloc: Global, span: Span, len: usize) -> Result<Vec<Run>, AllocError>
    requires some { span.start < span.end }
    requires within { span.end ≤ len }
    ensures { IfOk result (λ runs. runs.items ≡ spec.runs_of (spec.marks_of (span ∷ []) len)) }
{
    let mut runs = runs_before(alloc, span.start)?;
    runs.push(Run {
        len: span.end - span.start,
        occurrence: Some(span.occurrence),
    })?;
    push_unmarked(&mut runs, len - span.end)?;
    Ok(runs)
}

/// The runs of a line of `len` bytes that spans mark.
fn marked(alloc: Global, spans: &[Span], len: usize) -> Result<Vec<Run>, AllocError>
    ensures { IfOk result (λ runs. runs.items ≡ spec.runs_of (spec.marks_of spans.now len)) }
{
    let marks = marks_of(alloc, spans, len)?;
    runs_of(alloc, &marks)
}

/// The runs of a line of `len` bytes on which spans lie, which may overlap: of those on a byte the one of the fewest
/// bytes marks it, and of several such the first.
pub fn line_runs(alloc: Global, spans: &[Span], len: usize) -> Result<Vec<Run>, AllocError>
    ensures { IfOk result (λ runs. runs.items ≡ spec.runs_of (spec.marks_of spans.now len)) }
{
    match spans {
        [] => unmarked(alloc, len),
        [first, ..] => {
            if spans.len() == 1 && first.start < first.end && first.end <= len {
                marked_once(alloc, *first, len)
            } else {
                marked(alloc, spans, len)
            }
        }
    }
}
