//! Texts of sources.

ghost use Rattle.std.specs.Prelude.{◌≡◌, ◌+◌, ◌-◌, ◌<◌, ◌≤◌, ◌⊎◌, ◌↔◌, length, take, drop, sum_by, IfOk, IfErr};
ghost use Rattle.std.specs.Prelude.{IsOkUnless, IsCharBoundary, IsTrue};
ghost use Rattle.std.specs.List.Sorted.{IsPartitionPoint};
ghost use Rattle.proto_lex.specs.Position.{line_of, line_starts, position_of, code_units};
ghost use Rattle.proto_lex.specs.Text.{IsText, IsNoText};
ghost use Rattle.proto_lex.specs.Units.{HasLongLine};
ghost use Rattle.proto_lex.specs.declared.position.Encoding.TheVariants.{Utf16};

use crate::fault::LexFault;
use crate::position::{BYTES_A_MARK, Encoding, Position, columns, line_starts, units_before};
use std::alloc::Global;
use std::marker::Model;

/// The most bytes of a text.
pub const MAX_TEXT_LENGTH: usize = 67_108_864;

/// The text of a source: at most `MAX_TEXT_LENGTH` bytes of UTF-8, which it borrows, and where its
/// lines start.
///
/// Contracts see a text as the list of its bytes.
#[derive(Drop)]
pub struct Text<'a> {
    text: &'a str,
    // The offsets at which the lines start, in order: 0, and that after each `\n`. A `u32` holds
    // each offset of a text, in half the memory of a `usize`.
    line_starts: Vec<u32>,
    // The code units in UTF-16 before each multiple of `BYTES_A_MARK` bytes, if a line is longer
    // than that; else none.
    units: Vec<u32>,
}

/// Whether a line of a text of this length, whose lines have these starts, has over `BYTES_A_MARK` bytes.
fn has_long_line(starts: &[u32], len: usize) -> bool
    ensures { IsTrue result ↔ HasLongLine starts.now len }
{
    for line in 0..starts.len() {
        let end = match starts.get(line + 1) {
            Some(next) => *next as usize,
            None => len,
        };
        if starts[line] as usize + BYTES_A_MARK < end {
            return true;
        }
    }
    false
}

impl<'a> Model for Text<'a> {
    ghost use Rattle.std.specs.Prelude.{List, ℕ};

    ghost Value = { List ℕ };

    ghost use Rattle.std.specs.Prelude.{◌≡◌};
    ghost use Rattle.proto_lex.specs.Text.{IsText};
    ghost use Rattle.proto_lex.specs.Position as spec;
    ghost use Rattle.proto_lex.specs.Units.{AreUnits};

    ghost view = { λ inside. inside.text.now };

    ghost invariant = { λ inside. IsText inside.text.now
        × (inside.line_starts.items ≡ spec.line_starts inside.text.now)
        × AreUnits inside.text.now inside.units.items };
}

impl<'a> Text<'a> {
    /// The text of these bytes, which are not copied. Its line starts take memory, four bytes a line, and if a line has
    /// over 1,024 bytes, its code units, four bytes for so many.
    ///
    /// - `TooLong`: the bytes are more than `MAX_TEXT_LENGTH`. This is tried first.
    /// - `NotUtf8`: they are not UTF-8, with the offset at which the first ill-formed sequence begins.
    /// - `Memory`: memory ran out for the line starts or the code units, which are made last.
    pub fn new(alloc: Global, bytes: &'a [u8]) -> Result<Text<'a>, LexFault>
        ensures text { IfOk result (λ text. IsText bytes.now × (text ≡ bytes.now)) }
        ensures fault { IfErr result (λ fault. (fault ≡ LexFault.Memory) ⊎ IsNoText bytes.now fault) }
        ensures accepted { IsText bytes.now → IsOkUnless result LexFault.Memory }
    {
        if bytes.len() > MAX_TEXT_LENGTH {
            return Err(LexFault::TooLong);
        }
        match str::from_utf8(bytes) {
            Ok(text) => {
                let line_starts = line_starts(alloc, bytes)?;
                let units = if has_long_line(line_starts.as_slice(), bytes.len()) {
                    units_before(alloc, bytes)?
                } else {
                    Vec::new(alloc)
                };
                Ok(Text {
                    text,
                    line_starts,
                    units,
                })
            }
            Err(error) => Err(LexFault::NotUtf8(error.valid_up_to())),
        }
    }

    /// The text as a `str`.
    pub fn as_str(&self) -> &'a str
        ensures same { result.now ≡ self.now }
        ensures is_text { IsText self.now }
    {
        self.text
    }

    /// The number of its bytes.
    pub fn len(&self) -> usize
        ensures { result ≡ length self.now }
    {
        self.text.len()
    }

    /// The position of `offset`, a place between two characters of the text or at one of its ends.
    pub fn position(&self, offset: usize, encoding: Encoding) -> Position
        requires { IsCharBoundary self.now offset }
        ensures { result ≡ position_of encoding self.now offset }
    {
        self.position_on(self.line_at(offset), offset, encoding)
    }

    /// The positions of two offsets, as `position` gives them. If both are on one line, it is searched for once.
    pub fn positions(&self, start: usize, end: usize, encoding: Encoding) -> (Position, Position)
        requires start { IsCharBoundary self.now start }
        requires end { IsCharBoundary self.now end }
        ensures start { result.0 ≡ position_of encoding self.now start }
        ensures end { result.1 ≡ position_of encoding self.now end }
    {
        let first = self.line_at(start);
        let last = self.line_near(first, end);
        (
            self.position_on(first, start, encoding),
            self.position_on(last, end, encoding),
        )
    }

    /// The position of `offset`, which is on this line.
    fn position_on(&self, line: usize, offset: usize, encoding: Encoding) -> Position
        requires boundary { IsCharBoundary self.now offset }
        requires within { line < length (line_starts self.now) }
        requires parted { IsPartitionPoint (λ start. start ≤ offset) (λ start. offset < start) (line_starts self.now)
            (line + 1) }
        ensures { result ≡ position_of encoding self.now offset }
    {
        let start = self.line_starts[line] as usize;
        Position {
            line: line as u32,
            column: self.units_between(start, offset, encoding),
        }
    }

    /// The code units from one offset to another, which is not before it.
    fn units_between(&self, start: usize, end: usize, encoding: Encoding) -> u32
        requires order { start ≤ end }
        requires within { end ≤ length self.now }
        ensures { result ≡ sum_by (code_units encoding) (take (end - start) (drop start self.now)) }
    {
        let bytes = self.text.as_bytes();
        match encoding {
            Encoding::Utf8 => (end - start) as u32,
            Encoding::Utf16 if end - start <= BYTES_A_MARK => columns(encoding, &bytes[start..end]),
            Encoding::Utf16 => self.units_to(end) - self.units_to(start),
        }
    }

    /// The code units in UTF-16 before an offset. If a line is longer than `BYTES_A_MARK`, so many bytes at most are
    /// looked at.
    fn units_to(&self, offset: usize) -> u32
        requires { offset ≤ length self.now }
        ensures { result ≡ sum_by (code_units Utf16) (take offset self.now) }
    {
        let mark = offset / BYTES_A_MARK;
        let bytes = self.text.as_bytes();
        match self.units.get(mark) {
            Some(before) => *before + columns(Encoding::Utf16, &bytes[mark * BYTES_A_MARK..offset]),
            None => columns(Encoding::Utf16, &bytes[..offset]),
        }
    }

    /// The line of `offset`, from 0: how many `\n` come before it. It is found by a search among the line starts,
    /// without a look at the line.
    pub fn line(&self, offset: usize) -> usize
        ensures { result ≡ line_of self.now offset }
    {
        self.line_at(offset)
    }

    /// The line of `offset`, whose start is the last that is not after it.
    fn line_at(&self, offset: usize) -> usize
        ensures within { result < length (line_starts self.now) }
        ensures parted { IsPartitionPoint (λ start. start ≤ offset) (λ start. offset < start) (line_starts self.now)
            (result + 1) }
    {
        self.line_starts
            .partition_point(|start| *start as usize <= offset)
            - 1
    }

    /// Whether `offset` is on this line, which may be none of the text's: from its start on, and before the next one's.
    fn is_on_line(&self, line: usize, offset: usize) -> bool
        ensures within { IsTrue result → line < length (line_starts self.now) }
        ensures parted { IsTrue result → IsPartitionPoint (λ start. start ≤ offset) (λ start. offset < start)
            (line_starts self.now) (line + 1) }
    {
        let starts = self.line_starts.as_slice();
        if line >= starts.len() || offset < starts[line] as usize {
            return false;
        }
        line + 1 == starts.len() || offset < starts[line + 1] as usize
    }

    /// The line of `offset`. If it is `near`, there is no search.
    fn line_near(&self, near: usize, offset: usize) -> usize
        ensures within { result < length (line_starts self.now) }
        ensures parted { IsPartitionPoint (λ start. start ≤ offset) (λ start. offset < start) (line_starts self.now)
            (result + 1) }
    {
        if !self.is_on_line(near, offset) {
            return self.line_at(offset);
        }
        near
    }
}
