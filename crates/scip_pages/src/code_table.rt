//! The code of a page.

ghost use Rattle.std.specs.Prelude.{◌≡◌, ◌<◌, ◌++◌, [], ◌∷◌, ◌==◌, ℕ, List, length, map, filter, cond, IfOk, OnOk};
ghost use Rattle.std.specs.Borrow.{Bor};
ghost use Rattle.std.specs.List.{All, flat_map, range_with_len};
ghost use Rattle.scip_query.specs.Tables.{numbers};
ghost use Rattle.scip_pages.specs.CodeText as spec;
ghost use Rattle.scip_pages.specs.ListedNumbers.{listed_on};
ghost use Rattle.scip_pages.specs.Runs.{span_on};

use crate::code::{Link, push_line};
use crate::counted::{Line, Lines};
use crate::runs::{Span, line_runs, span_on};
use scip_records::{Occurrence, Range};
use std::alloc::{AllocError, Global};

/// What the code of a page is made of.
#[derive(Clone, Copy)]
pub(crate) struct Code<'a> {
    pub occurrences: &'a [Occurrence],
    pub links: &'a [Link],
    pub lines: &'a Lines<'a>,
}

/// The numbers from 0 below a count.
pub fn numbers(alloc: Global, count: usize) -> Result<Vec<usize>, AllocError>
    ensures { IfOk result (λ listed. listed.items ≡ numbers count) }
{
    let mut listed = Vec::with_capacity(alloc, count)?;
    for number in 0..count {
        listed.push(number)?;
    }
    Ok(listed)
}

/// The numbers of lines, from 1.
fn line_numbers(alloc: Global, lines: &[&str]) -> Result<Vec<usize>, AllocError>
    ensures { IfOk result (λ listed. listed.items ≡ range_with_len 1 (length lines.now)) }
{
    let mut listed = Vec::with_capacity(alloc, lines.len())?;
    for number in 0..lines.len() {
        listed.push(number + 1)?;
    }
    Ok(listed)
}

/// Empty lists, as many as lines.
fn empty_lists(alloc: Global, lines: &[&str]) -> Result<Vec<Vec<usize>>, AllocError>
    ensures count { IfOk result (λ table. length table.items ≡ length lines.now) }
    ensures empty { IfOk result (λ table. All (λ listed. listed.items ≡ []) table.items) }
{
    let mut table = Vec::with_capacity(alloc, lines.len())?;
    for _ in 0..lines.len() {
        table.push(Vec::new(alloc))?;
    }
    Ok(table)
}

/// Appends a number to the list of a line.
fn add_on(table: &mut [Vec<usize>], line: usize, number: usize) -> Result<(), AllocError>
    ensures count { length table.new ≡ length table.old }
    ensures listed { OnOk result ((at : ℕ) → at < length table.old → listed_on table.new at ≡ listed_on table.old at
        ++ cond (line == at) (number ∷ []) []) }
{
    if line < table.len() {
        table[line].push(number)?;
    }
    Ok(())
}

/// Appends the number of an occurrence to the list of the line on which it begins.
fn add(
    table: &mut [Vec<usize>],
    occurrences: &[Occurrence],
    number: usize,
) -> Result<(), AllocError>
    ensures count { length table.new ≡ length table.old }
    ensures listed { OnOk result ((at : ℕ) → at < length table.old → listed_on table.new at ≡ listed_on table.old at
        ++ cond (spec.begins_on occurrences.now at number) (number ∷ []) []) }
{
    match occurrences.get(number) {
        Some(occurrence) => add_on(table, occurrence.range.start_line() as usize, number),
        None => Ok(()),
    }
}

/// For each line those of some occurrences that begin on it.
fn by_line(
    alloc: Global,
    lines: &[&str],
    occurrences: &[Occurrence],
    listed: &[usize],
) -> Result<Vec<Vec<usize>>, AllocError>
    ensures count { IfOk result (λ table. length table.items ≡ length lines.now) }
    ensures listed { IfOk result (λ table. (line : ℕ) → line < length lines.now → listed_on table.items line
        ≡ filter (spec.begins_on occurrences.now line) listed.now) }
{
    let mut table = empty_lists(alloc, lines)?;
    for number in listed {
        add(&mut table, occurrences, *number)?;
    }
    Ok(table)
}

/// What an occurrence marks of the line on which it begins.
fn span_in(line: &Line<'_>, number: usize, range: Range) -> Option<Span>
    ensures { result ≡ span_on line.now.unit range.start_line line.now.text number range }
{
    span_on(range.start_line(), line, number, range)
}

/// Appends a span, if there is one.
fn push_one(spans: &mut Vec<Span>, span: Option<Span>) -> Result<(), AllocError>
    ensures { OnOk result (spans.new.items ≡ spans.old.items ++ spec.one_or_none span) }
{
    if let Some(span) = span {
        spans.push(span)?;
    }
    Ok(())
}

/// Appends what the occurrence with a number marks of the line on which it begins.
fn push_span(
    spans: &mut Vec<Span>,
    occurrences: &[Occurrence],
    line: &Line<'_>,
    number: usize,
) -> Result<(), AllocError>
    ensures { OnOk result (spans.new.items ≡ spans.old.items
        ++ spec.span_of line.now.unit occurrences.now line.now.text number) }
{
    match occurrences.get(number) {
        Some(occurrence) => push_one(spans, span_in(line, number, occurrence.range)),
        None => Ok(()),
    }
}

/// What occurrences mark of the line on which they begin.
fn spans_of(
    alloc: Global,
    occurrences: &[Occurrence],
    line: &Line<'_>,
    marking: &[usize],
) -> Result<Vec<Span>, AllocError>
    ensures { IfOk result (λ spans. spans.items
        ≡ spec.spans_of line.now.unit occurrences.now line.now.text marking.now) }
{
    let mut spans = Vec::with_capacity(alloc, marking.len())?;
    for number in marking {
        push_span(&mut spans, occurrences, line, *number)?;
    }
    Ok(spans)
}

/// The line with a number from 0; no text where there is none.
pub fn line_at<'a>(lines: &'a [&'a str], number: usize) -> &'a str
    ensures { result.now ≡ spec.line_at (map (λ (l : Bor (List ℕ)). l.now) lines.now) number }
{
    match lines.get(number) {
        Some(line) => *line,
        None => "",
    }
}

/// Appends a line feed, but before the first line.
fn push_lead(page: &mut Vec<u8>, number: usize) -> Result<(), AllocError>
    ensures { OnOk result (page.new.items ≡ page.old.items ++ spec.lead number) }
{
    if number == 1 {
        Ok(())
    } else {
        page.extend_from_slice(b"\n")
    }
}

/// Appends the line with a number from 1, on which some occurrences begin.
fn push_numbered(
    alloc: Global,
    page: &mut Vec<u8>,
    code: &Code<'_>,
    marking: &[usize],
    number: usize,
) -> Result<(), AllocError>
    ensures { OnOk result (page.new.items ≡ page.old.items ++ spec.line_text code.now.lines.now.unit
        code.now.occurrences.now code.now.links.now (map (λ (l : Bor (List ℕ)). l.now) code.now.lines.now.lines)
        marking.now number) }
{
    let line = code.lines.line(number.saturating_sub(1));
    push_lead(page, number)?;
    let spans = spans_of(alloc, code.occurrences, &line, marking)?;
    let text = line.text();
    let runs = line_runs(alloc, &spans, text.len())?;
    push_line(page, number, text, &runs, code.links)
}

/// The list of the line with a number; an empty one where there is none.
fn listed_on(table: &[Vec<usize>], number: usize) -> &[usize]
    ensures { result.now ≡ listed_on table.now number }
{
    match table.get(number) {
        Some(listed) => listed.as_slice(),
        None => &[],
    }
}

/// Appends lines with numbers from 1, on which the occurrences of a table begin.
fn push_all_numbered(
    alloc: Global,
    page: &mut Vec<u8>,
    code: &Code<'_>,
    table: &[Vec<usize>],
    numbers: &[usize],
) -> Result<(), AllocError>
    ensures { OnOk result (page.new.items ≡ page.old.items ++ flat_map (spec.line_by code.now.lines.now.unit
        code.now.occurrences.now code.now.links.now (map (λ (l : Bor (List ℕ)). l.now) code.now.lines.now.lines)
        (listed_on table.now)) numbers.now) }
{
    for number in numbers {
        let marking = listed_on(table, number.saturating_sub(1));
        push_numbered(alloc, page, code, marking, *number)?;
    }
    Ok(())
}

/// For each line the occurrences that begin on it.
fn table_of(alloc: Global, code: &Code<'_>) -> Result<Vec<Vec<usize>>, AllocError>
    ensures { IfOk result (λ table. (line : ℕ) → line < length code.now.lines.now.lines → listed_on table.items line
        ≡ spec.beginning code.now.occurrences.now line) }
{
    let listed = numbers(alloc, code.occurrences.len())?;
    let table = by_line(alloc, code.lines.texts(), code.occurrences, &listed)?;
    Ok(table)
}

/// Appends the code of a page.
pub(crate) fn push_code(
    alloc: Global,
    page: &mut Vec<u8>,
    code: &Code<'_>,
) -> Result<(), AllocError>
    ensures { OnOk result (page.new.items ≡ page.old.items ++ spec.code_text code.now.lines.now.unit
        code.now.occurrences.now code.now.links.now (map (λ (l : Bor (List ℕ)). l.now) code.now.lines.now.lines)) }
{
    let table = table_of(alloc, code)?;
    let numbers = line_numbers(alloc, code.lines.texts())?;
    push_all_numbered(alloc, page, code, &table, &numbers)?;
    Ok(())
}
