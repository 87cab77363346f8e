//! Lines and columns, counted from one place of a text to the next.

ghost use Rattle.std.specs.Prelude.{◌≡◌, ◌+◌, ◌<◌, ◌≤◌, length};
ghost use Rattle.diagnostics.specs.Counting.{IsCounted};
ghost use Rattle.diagnostics.specs.Places.{column, line_number};

use crate::characters::goes_on;
use crate::line::is_line_end;
use std::marker::Model;

/// A place: how many bytes come before it, its line and its column.
#[derive(Clone, Copy)]
struct Spot {
    at: usize,
    line: usize,
    column: usize,
}

/// The start of a text.
const START: Spot = Spot {
    at: 0,
    line: 1,
    column: 1,
};

/// Counts the lines and the columns of a text. It goes on from the offset before if the next one doesn't come before
/// that, and else from the text's start: so offsets in rising order take the time of one pass over the text.
///
/// Contracts see it as the text.
#[derive(Drop)]
pub struct LineCounter<'a> {
    text: &'a [u8],
    spot: Spot,
}

impl<'a> Model for LineCounter<'a> {
    ghost use Rattle.std.specs.Prelude.{List, ℕ};

    ghost Value = { List ℕ };

    ghost use Rattle.diagnostics.specs.Counting.{IsCounted};

    ghost view = { λ counter. counter.text.now };

    ghost invariant = { λ counter. IsCounted counter.text.now counter.spot.at counter.spot.line counter.spot.column };
}

/// The place behind one byte more.
fn step(text: &[u8], spot: Spot) -> Spot
    requires counted { IsCounted text.now spot.at spot.line spot.column }
    requires more { spot.at < length text.now }
    ensures counted { IsCounted text.now result.at result.line result.column }
    ensures next { result.at ≡ spot.at + 1 }
{
    let byte = text[spot.at];
    if is_line_end(byte) {
        Spot {
            at: spot.at + 1,
            line: spot.line + 1,
            column: 1,
        }
    } else if spot.column > 1 && goes_on(byte) {
        Spot {
            at: spot.at + 1,
            line: spot.line,
            column: spot.column,
        }
    } else {
        Spot {
            at: spot.at + 1,
            line: spot.line,
            column: spot.column + 1,
        }
    }
}

/// The place at an offset that isn't before this one.
fn moved(text: &[u8], from: Spot, at: usize) -> Spot
    requires counted { IsCounted text.now from.at from.line from.column }
    requires behind { from.at ≤ at }
    requires within { at ≤ length text.now }
    ensures counted { IsCounted text.now result.at result.line result.column }
    ensures there { result.at ≡ at }
{
    let mut spot = from;
    while spot.at < at {
        spot = step(text, spot);
    }
    spot
}

/// From where an offset is counted: the place before, or the text's start.
fn start_for(text: &[u8], spot: Spot, at: usize) -> Spot
    requires counted { IsCounted text.now spot.at spot.line spot.column }
    ensures counted { IsCounted text.now result.at result.line result.column }
    ensures behind { result.at ≤ at }
{
    if at < spot.at { START } else { spot }
}

/// The place of an offset. Past the end it is that of the end.
fn counted(text: &[u8], spot: Spot, at: usize) -> Spot
    requires counted { IsCounted text.now spot.at spot.line spot.column }
    ensures counted { IsCounted text.now result.at result.line result.column }
    ensures line { result.line ≡ line_number text.now at }
    ensures column { result.column ≡ column text.now at }
{
    let end = at.min(text.len());
    moved(text, start_for(text, spot, end), end)
}

impl<'a> LineCounter<'a> {
    /// At the start of a text.
    pub fn new(text: &'a [u8]) -> LineCounter<'a>
        ensures { result ≡ text.now }
    {
        LineCounter { text, spot: START }
    }

    /// The text.
    pub fn text(&self) -> &'a [u8]
        ensures { result.now ≡ self.now }
    {
        self.text
    }

    /// The line of an offset, from 1, and its column, from 1 in characters. Past the end it is that of the end.
    pub fn line_and_column(&mut self, at: usize) -> (usize, usize)
        ensures line { result.0 ≡ line_number self.old at }
        ensures column { result.1 ≡ column self.old at }
        ensures same { self.new ≡ self.old }
    {
        let spot = counted(self.text, self.spot, at);
        self.spot = spot;
        (spot.line, spot.column)
    }
}
