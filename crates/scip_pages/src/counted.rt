//! Lines of a source, on which columns are found from milestones.

ghost use Rattle.std.specs.Prelude.{◌≡◌, ◌≤◌, ◌%◌, ◌==◌, ◌++◌, [], ◌∷◌, ℕ, List, map, cond};
ghost use Rattle.std.specs.Prelude.{Contains, IfOk, IfSome, OnOk};
ghost use Rattle.std.specs.Borrow.{Bor};
ghost use Rattle.std.specs.List.{slice_get};
ghost use Rattle.scip_pages.specs.CodeText.{line_at};
ghost use Rattle.scip_pages.specs.Columns.{offset_of};
ghost use Rattle.scip_pages.specs.Counted.{AreMilestones};

use crate::columns::{ColumnUnit, offset_from, offset_of, units_of};
use std::alloc::{AllocError, Global};
use std::marker::Model;

/// A line of more bytes than these has milestones, one for each so many of them.
const BYTES_A_MILESTONE: usize = 1_024;

/// An offset of a line of a source, and the units before it.
#[derive(Clone, Copy)]
struct Milestone {
    line: usize,
    offset: usize,
    units: u64,
}

/// Appends a milestone, if one is due at its offset.
fn push_if_due(milestones: &mut Vec<Milestone>, milestone: Milestone) -> Result<(), AllocError>
    ensures { OnOk result (milestones.new.items ≡ milestones.old.items
        ++ cond (milestone.offset % 1024 == 0) (milestone ∷ []) []) }
{
    if milestone.offset % BYTES_A_MILESTONE == 0 {
        milestones.push(milestone)?;
    }
    Ok(())
}

/// Appends the milestones of the line with a number, if it is long. Where there are more units than a column counts,
/// none is due.
fn push_milestones(
    milestones: &mut Vec<Milestone>,
    unit: ColumnUnit,
    number: usize,
    line: &[u8],
) -> Result<(), AllocError>
    ensures { OnOk result ((lines : List (List ℕ)) → line_at lines number ≡ line.now
        → AreMilestones unit lines milestones.old.items → AreMilestones unit lines milestones.new.items) }
{
    if line.len() <= BYTES_A_MILESTONE {
        return Ok(());
    }
    let mut units = 0;
    for (offset, byte) in line.iter().enumerate() {
        if units > u64::from(u32::MAX) {
            return Ok(());
        }
        let milestone = Milestone {
            line: number,
            offset,
            units,
        };
        push_if_due(milestones, milestone)?;
        units += units_of(unit, *byte);
    }
    Ok(())
}

/// The milestones of lines.
fn milestones_of(
    alloc: Global,
    unit: ColumnUnit,
    lines: &[&str],
) -> Result<Vec<Milestone>, AllocError>
    ensures { IfOk result (λ milestones. AreMilestones unit (map (λ (l : Bor (List ℕ)). l.now) lines.now)
        milestones.items) }
{
    let mut milestones = Vec::new(alloc);
    for (number, line) in lines.iter().enumerate() {
        push_milestones(&mut milestones, unit, number, line.as_bytes())?;
    }
    Ok(milestones)
}

/// The milestone with an index, if there is one.
fn milestone_with(milestones: &[Milestone], index: usize) -> Option<Milestone>
    ensures { result ≡ slice_get milestones.now index }
{
    milestones.get(index).copied()
}

/// The last milestone of the line with a number that isn't behind a column, if it has one.
fn milestone_before(milestones: &[Milestone], number: usize, column: u32) -> Option<Milestone>
    ensures { IfSome result (λ milestone. Contains milestones.now milestone × (milestone.line ≡ number)
        × (milestone.units ≤ column)) }
{
    let wanted = u64::from(column);
    let before = milestones.partition_point(|milestone| {
        milestone.line < number || (milestone.line == number && milestone.units <= wanted)
    });
    match milestone_with(milestones, before.saturating_sub(1)) {
        Some(milestone) => {
            if milestone.line != number || milestone.units > wanted {
                return None;
            }
            Some(milestone)
        }
        None => None,
    }
}

/// A line of a source, and what its columns count.
///
/// Contracts see both, the line as the list of its bytes.
#[derive(Drop)]
pub struct Line<'a> {
    unit: ColumnUnit,
    text: &'a [u8],
    number: usize,
    // Those of all lines of the source, in their order.
    milestones: &'a [Milestone],
}

impl<'a> Model for Line<'a> {
    ghost use Rattle.scip_pages.specs.Counted.{CountedLine};

    ghost Value = { CountedLine };

    ghost use Rattle.std.specs.Prelude.{◌≡◌};
    ghost use Rattle.std.specs.List.{All};
    ghost use Rattle.scip_pages.specs.Counted.{IsMilestone};

    ghost view = { λ inside. record { unit = inside.unit; text = inside.text.now } };

    ghost invariant = { λ inside. All (λ milestone. milestone.line ≡ inside.number
        → IsMilestone inside.unit inside.text.now milestone) inside.milestones.now };
}

impl<'a> Line<'a> {
    /// A line without milestones: its columns are counted from its start.
    pub fn new(unit: ColumnUnit, text: &'a [u8]) -> Line<'a>
        ensures unit { result.unit ≡ unit }
        ensures text { result.text ≡ text.now }
    {
        Line {
            unit,
            text,
            number: 0,
            milestones: &[],
        }
    }

    /// The bytes of the line.
    pub fn text(&self) -> &'a [u8]
        ensures { result.now ≡ self.now.text }
    {
        self.text
    }

    /// The offset in bytes of a column of the line, as `offset_of` gives it.
    pub fn offset_of(&self, column: u32) -> Option<usize>
        ensures { result ≡ offset_of self.now.unit self.now.text column }
    {
        match milestone_before(self.milestones, self.number, column) {
            Some(before) => {
                offset_from(self.unit, self.text, before.offset, before.units, column)
            }
            None => offset_of(self.unit, self.text, column),
        }
    }
}

/// The lines of a source, without their ends, and what their columns count.
///
/// Contracts see both.
#[derive(Drop)]
pub struct Lines<'a> {
    unit: ColumnUnit,
    lines: &'a [&'a str],
    milestones: Vec<Milestone>,
}

impl<'a> Model for Lines<'a> {
    ghost use Rattle.scip_pages.specs.Counted.{CountedLines};

    ghost Value = { CountedLines };

    ghost use Rattle.std.specs.Prelude.{ℕ, List, map};
    ghost use Rattle.std.specs.Borrow.{Bor};
    ghost use Rattle.scip_pages.specs.Counted.{AreMilestones};

    ghost view = { λ inside. record { unit = inside.unit; lines = inside.lines.now } };

    ghost invariant = { λ inside. AreMilestones inside.unit (map (λ (l : Bor (List ℕ)). l.now) inside.lines.now)
        inside.milestones.items };
}

impl<'a> Lines<'a> {
    /// Lines whose columns count this. Those of over 1,024 bytes are walked through once, and take memory for each so
    /// many; then no column of theirs is farther than that from where its count begins.
    pub fn new(
        alloc: Global,
        unit: ColumnUnit,
        lines: &'a [&'a str],
    ) -> Result<Lines<'a>, AllocError>
        ensures unit { IfOk result (λ made. made.unit ≡ unit) }
        ensures lines { IfOk result (λ made. made.lines ≡ lines.now) }
    {
        let milestones = match unit {
            ColumnUnit::Utf8 => Vec::new(alloc),
            _ => milestones_of(alloc, unit, lines)?,
        };
        Ok(Lines {
            unit,
            lines,
            milestones,
        })
    }

    /// The lines as texts.
    pub fn texts(&self) -> &'a [&'a str]
        ensures { result.now ≡ self.now.lines }
    {
        self.lines
    }

    /// The line with a number, from 0; an empty one where there is none.
    pub fn line(&self, number: usize) -> Line<'_>
        ensures unit { result.unit ≡ self.now.unit }
        ensures text { result.text ≡ line_at (map (λ (l : Bor (List ℕ)). l.now) self.now.lines) number }
    {
        match self.lines.get(number) {
            Some(text) => Line {
                unit: self.unit,
                text: text.as_bytes(),
                number,
                milestones: self.milestones.as_slice(),
            },
            None => Line::new(self.unit, b""),
        }
    }
}
