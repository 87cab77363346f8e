//! Snapshots of documents.

ghost use Rattle.std.specs.Prelude.{◌≡◌, ◌++◌, ℕ, List, map, Some, OnOk, IfOk, option_copied};
ghost use Rattle.std.specs.Borrow.{Bor};
ghost use Rattle.std.specs.List.{flat_map, slice_get};
ghost use Rattle.std.specs.Io.BufRead.{strip_last};
ghost use Rattle.scip_records.specs.declared.records.Occurrence.{Occurrence};
ghost use Rattle.scip_query.specs.References.{is_definition};
ghost use Rattle.scip_query.specs.BySymbol.{entry_in};
ghost use Rattle.scip_pages.specs.Columns.{unit_of};
ghost use Rattle.scip_pages.specs.Snapshot as spec;
ghost use Rattle.scip_pages.specs.Listed.{listed_on, listed_or_none};
ghost use Rattle.scip_pages.specs.SnapshotOutcomes.{Gives, RunsOutForText};

use crate::about::push_about;
use crate::code::cut;
use crate::columns::{ColumnUnit, is_first_byte, unit_of};
use crate::counted::{Line, Lines};
use crate::lines::{by_line, lines_of, misfit};
use crate::snapshot_fault::SnapshotFault;
use scip_query::Queries;
use scip_records::{Document, Occurrence, Range};
use std::alloc::{AllocError, Global};

/// The role of a definition (`scip.proto`, `SymbolRole`).
const DEFINITION: i32 = 1;

/// The role of an import.
const IMPORT: i32 = 2;

/// Appends what is below a byte of a line.
fn push_below_byte(text: &mut Vec<u8>, sign: u8, byte: u8) -> Result<(), AllocError>
    ensures { OnOk result (text.new.items ≡ text.old.items ++ spec.below_byte sign byte) }
{
    if byte == b'\t' {
        text.extend_from_slice(b"\t")
    } else if is_first_byte(byte) {
        text.extend_from_slice(&[sign])
    } else {
        Ok(())
    }
}

/// Appends a sign below each character, and a tab below a tab.
pub(crate) fn push_below(text: &mut Vec<u8>, sign: u8, bytes: &[u8]) -> Result<(), AllocError>
    ensures { OnOk result (text.new.items ≡ text.old.items ++ spec.below sign bytes.now) }
{
    for byte in bytes {
        push_below_byte(text, sign, *byte)?;
    }
    Ok(())
}

/// Appends a text, with blanks for its line feeds.
pub fn push_flat(text: &mut Vec<u8>, bytes: &[u8]) -> Result<(), AllocError>
    ensures { OnOk result (text.new.items ≡ text.old.items ++ map spec.flat_byte bytes.now) }
{
    for byte in bytes {
        let shown = if *byte == b'\n' { b' ' } else { *byte };
        text.extend_from_slice(&[shown])?;
    }
    Ok(())
}

/// Whether an occurrence is a definition: bit 1 of its roles (`scip.proto`, `SymbolRole`).
pub fn is_definition(occurrence: &Occurrence) -> bool
    ensures { result ≡ is_definition occurrence.now }
{
    occurrence.symbol_roles & DEFINITION != 0
}

/// What an occurrence is to its symbol.
fn role_of(occurrence: &Occurrence) -> &'static str
    ensures { result.now ≡ spec.role_of occurrence.now }
{
    if is_definition(occurrence) {
        "definition"
    } else if occurrence.symbol_roles & IMPORT != 0 {
        "import"
    } else {
        "reference"
    }
}

/// Appends carets, the role and the symbol of an occurrence.
fn push_carets(
    text: &mut Vec<u8>,
    before: &[u8],
    inside: &[u8],
    occurrence: &Occurrence,
) -> Result<(), AllocError>
    ensures { OnOk result (text.new.items ≡ text.old.items ++ spec.caret_line before.now inside.now occurrence.now) }
{
    text.extend_from_slice(b"//")?;
    push_below(text, b' ', before)?;
    push_below(text, b'^', inside)?;
    text.extend_from_slice(b" ")?;
    text.extend_from_slice(role_of(occurrence).as_bytes())?;
    text.extend_from_slice(b" ")?;
    push_flat(text, occurrence.symbol.as_str().as_bytes())?;
    text.extend_from_slice(b"\n")
}

/// A line without the `\r` of a line end `\r\n`.
pub(crate) fn without_return(line: &[u8]) -> &[u8]
    ensures { result.now ≡ strip_last 13 line.now }
{
    if 0 < line.len() && line[line.len() - 1] == b'\r' {
        cut(line, line.len() - 1).0
    } else {
        line
    }
}

/// What of a line is before a range that begins on it, and what is in the range; of a range over several lines up to
/// the end of this one, without the `\r` of a line end `\r\n`.
pub fn parts_of<'a>(line: &Line<'a>, range: Range) -> (&'a [u8], &'a [u8])
    ensures before { result.0.now ≡ spec.before_in line.now.unit line.now.text range }
    ensures inside { result.1.now ≡ spec.inside_in line.now.unit line.now.text range }
{
    let text = line.text();
    let start = line.offset_of(range.start_column()).unwrap_or(0);
    let end = if range.start_line() == range.end_line() {
        line.offset_of(range.end_column()).unwrap_or(0)
    } else {
        without_return(text).len()
    };
    cut(cut(text, end).0, start)
}

/// A document of an index, as its snapshot is written.
#[derive(Clone, Copy)]
struct Shown<'a> {
    queries: &'a Queries,
    number: usize,
    unit: ColumnUnit,
}

/// Appends an occurrence below the line on which it begins.
fn push_mark(
    alloc: Global,
    text: &mut Vec<u8>,
    shown: &Shown<'_>,
    line: &[u8],
    occurrence: &Occurrence,
) -> Result<(), AllocError>
    ensures { OnOk result (text.new.items ≡ text.old.items ++ spec.mark_in shown.now.unit line.now
        (entry_in shown.now.queries.now shown.now.number) occurrence.now) }
{
    let (before, inside) = parts_of(&Line::new(shown.unit, line), occurrence.range);
    push_carets(text, before, inside, occurrence)?;
    if !is_definition(occurrence) {
        return Ok(());
    }
    let symbol = occurrence.symbol.as_str();
    let entry = shown.queries.entry_in(shown.number, symbol);
    push_about(alloc, text, before, entry)
}

/// Appends occurrences below a line.
fn push_marks(
    alloc: Global,
    text: &mut Vec<u8>,
    shown: &Shown<'_>,
    line: &[u8],
    occurrences: &[&Occurrence],
) -> Result<(), AllocError>
    ensures { OnOk result (text.new.items ≡ text.old.items ++ flat_map (spec.mark_in shown.now.unit line.now
        (entry_in shown.now.queries.now shown.now.number)) (map (λ (o : Bor Occurrence). o.now)
        occurrences.now)) }
{
    for occurrence in occurrences {
        push_mark(alloc, text, shown, line, *occurrence)?;
    }
    Ok(())
}

/// Appends a line, and below it the occurrences that are listed.
fn push_line_with_marks(
    alloc: Global,
    text: &mut Vec<u8>,
    shown: &Shown<'_>,
    line: &[u8],
    listed: Option<&Vec<&Occurrence>>,
) -> Result<(), AllocError>
    ensures { OnOk result (text.new.items ≡ text.old.items ++ spec.line_text shown.now.unit
        (entry_in shown.now.queries.now shown.now.number) (listed_or_none (option_copied listed.entry))
        line.now) }
{
    text.extend_from_slice(b"  ")?;
    text.extend_from_slice(line)?;
    text.extend_from_slice(b"\n")?;
    match listed {
        Some(occurrences) => push_marks(alloc, text, shown, line, occurrences.as_slice()),
        None => Ok(()),
    }
}

/// What a table lists for the line with a number.
fn listed<'a, 'b>(
    table: &'b [Vec<&'a Occurrence>],
    number: usize,
) -> Option<&'b Vec<&'a Occurrence>>
    ensures { option_copied result ≡ slice_get table.now number }
{
    table.get(number)
}

/// Appends lines, each with what is below it.
fn push_lines(
    alloc: Global,
    text: &mut Vec<u8>,
    shown: &Shown<'_>,
    lines: &[&str],
    table: &[Vec<&Occurrence>],
) -> Result<(), AllocError>
    ensures { OnOk result (text.new.items ≡ text.old.items ++ spec.text_of shown.now.unit
        (entry_in shown.now.queries.now shown.now.number) (listed_on table.now)
        (map (λ (l : Bor (List ℕ)). l.now) lines.now)) }
{
    for (number, line) in lines.iter().enumerate() {
        push_line_with_marks(alloc, text, shown, line.as_bytes(), listed(table, number))?;
    }
    Ok(())
}

/// The text of a snapshot whose ranges fit.
fn text_of(
    alloc: Global,
    shown: &Shown<'_>,
    occurrences: &[Occurrence],
    lines: &[&str],
) -> Result<Vec<u8>, AllocError>
    ensures { IfOk result (λ text. text.items ≡ spec.text_of shown.now.unit
        (entry_in shown.now.queries.now shown.now.number) (spec.beginning occurrences.now)
        (map (λ (l : Bor (List ℕ)). l.now) lines.now)) }
{
    let table = by_line(alloc, lines.len(), occurrences)?;
    let mut text = Vec::new(alloc);
    push_lines(alloc, &mut text, shown, lines, table.as_slice())?;
    Ok(text)
}

/// The snapshot of a document with the lines of its source.
fn snapshot_of_lines(
    alloc: Global,
    shown: &Shown<'_>,
    occurrences: &[Occurrence],
    lines: &Lines<'_>,
) -> Result<Vec<u8>, SnapshotFault>
    requires { lines.now.unit ≡ shown.now.unit }
    ensures gives { Gives (λ text. text.items) result (spec.in_unit (Some shown.now.unit)
        (entry_in shown.now.queries.now shown.now.number) occurrences.now
        (map (λ (l : Bor (List ℕ)). l.now) lines.now.lines)) }
    ensures memory { RunsOutForText result (spec.in_unit (Some shown.now.unit)
        (entry_in shown.now.queries.now shown.now.number) occurrences.now
        (map (λ (l : Bor (List ℕ)). l.now) lines.now.lines)) }
{
    match misfit(lines, occurrences) {
        Some(number) => Err(SnapshotFault::Misfit(number)),
        None => Ok(text_of(alloc, shown, occurrences, lines.texts())?),
    }
}

/// The snapshot of a document whose unit is known.
fn snapshot_in(
    alloc: Global,
    shown: &Shown<'_>,
    occurrences: &[Occurrence],
    source: &str,
) -> Result<Vec<u8>, SnapshotFault>
    ensures { Gives (λ text. text.items) result (spec.in_unit (Some shown.now.unit)
        (entry_in shown.now.queries.now shown.now.number) occurrences.now (spec.lines_of source.now)) }
{
    let texts = lines_of(alloc, source)?;
    let lines = Lines::new(alloc, shown.unit, texts.as_slice())?;
    snapshot_of_lines(alloc, shown, occurrences, &lines)
}

/// What a document's columns count.
fn unit_in(document: &Document) -> Option<ColumnUnit>
    ensures { result ≡ unit_of document.now.position_encoding }
{
    unit_of(document.position_encoding)
}

/// The snapshot of a document.
fn snapshot_for(
    alloc: Global,
    queries: &Queries,
    number: usize,
    document: &Document,
    source: &str,
) -> Result<Vec<u8>, SnapshotFault>
    ensures { Gives (λ text. text.items) result (spec.in_document (Some document.now)
        (entry_in queries.now number) (spec.lines_of source.now)) }
{
    match unit_in(document) {
        Some(unit) => {
            let shown = Shown {
                queries,
                number,
                unit,
            };
            snapshot_in(alloc, &shown, document.occurrences.as_slice(), source)
        }
        None => Err(SnapshotFault::NoUnit),
    }
}

/// The snapshot of the document with a number, whose source this is. Each line of the source comes after two blanks.
/// Below it is a line for each occurrence that begins there: the sign of a comment `//`, carets below what it covers
/// (of a range over several lines, to the end of the first), its role (`definition`, `import` or `reference`), and
/// its symbol. After a definition come its kind, its signature and its documentation, as far as the index has them.
/// There is a sign below each character, and a tab below each tab.
pub fn snapshot(
    alloc: Global,
    queries: &Queries,
    number: usize,
    source: &str,
) -> Result<Vec<u8>, SnapshotFault>
    ensures { Gives (λ text. text.items) result (spec.snapshot_of queries.now number source.now) }
{
    match queries.documents().get(number) {
        Some(document) => snapshot_for(alloc, queries, number, document, source),
        None => Err(SnapshotFault::NoDocument),
    }
}
