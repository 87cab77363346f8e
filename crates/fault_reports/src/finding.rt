//! What a report tells.

ghost use Rattle.std.specs.Prelude.{◌≡◌, ◌++◌, [], None, IfOk, OnOk};
ghost use Rattle.std.specs.Option.{option_and_then, option_map};
ghost use Rattle.std.specs.String.{string_bytes};
ghost use Rattle.fault_reports.specs.Findings.{
  column_at,
  end_of,
  level_of,
  line_at,
  met_text,
  named_text,
  point_in,
  related_of,
  said_of,
  start_of,
  word_of,
};

use diagnostics::{LineCounter, push_met, push_quoted};
use std::alloc::{AllocError, Global};
use std::marker::Model;

/// What a finding is.
#[derive(Clone, Copy, Debug, PartialEq, Eq)]
pub enum FindingKind {
    /// For it a run is refused.
    Fault,
    /// A file is left out for it.
    Skipped,
    /// An import or a use names nothing.
    Unresolved,
    /// A use names something, but may name something else once a file can be read.
    Uncertain,
}

/// An offset of a text: how many bytes come before it, its line from 1, and its column from 1 in characters.
#[derive(Clone, Copy, Debug, PartialEq, Eq)]
pub(crate) struct Point {
    pub(crate) at: usize,
    pub(crate) line: usize,
    pub(crate) column: usize,
}

/// A file, and a place in it.
///
/// Contracts see its path, also as it is in bytes, and its text as lists of bytes, and of where it begins and where it
/// ends how many bytes come before.
#[derive(Drop)]
pub struct Place<'a> {
    path: &'a str,
    bytes: &'a [u8],
    text: &'a [u8],
    start: Option<Point>,
    end: Option<Point>,
}

impl<'a> Model for Place<'a> {
    ghost use Rattle.std.specs.Option.{option_map};
    ghost use Rattle.fault_reports.specs.Findings.{FoundPlace};
    ghost use Rattle.fault_reports.specs.Points.{ArePointsOf};

    ghost Value = { FoundPlace };

    ghost view = { λ place. record {
      path = place.path.now;
      bytes = place.bytes.now;
      text = place.text.now;
      offset = option_map (λ point. point.at) place.start;
      end = option_map (λ point. point.at) place.end;
    } };

    ghost invariant = { λ place. ArePointsOf place.text.now place.start place.end };
}

/// One thing that a report tells.
///
/// Contracts see its texts as lists of bytes.
#[derive(Drop)]
pub struct Finding<'a> {
    /// What it is.
    pub kind: FindingKind,
    /// The name of the fault.
    pub name: &'a str,
    /// A sentence about it.
    pub message: &'a str,
    /// Where it is, if it is of a file.
    pub place: Option<Place<'a>>,
    /// The bytes of its file from the token on that the parser met.
    pub met: Option<&'a [u8]>,
    /// The bytes of what is named there: a name, or the string literals of an import.
    pub named: Option<&'a [u8]>,
    /// Where a full name is first given that is given again here; of an uncertain use, the file that can't be read.
    pub first: Option<Place<'a>>,
    /// The string literals of an import that names no file, as the source has them: they spell its path together.
    pub import: Option<&'a [u8]>,
}

impl<'a> Model for Finding<'a> {
    ghost use Rattle.std.specs.Option.{option_map};
    ghost use Rattle.fault_reports.specs.Findings.{Found};

    ghost Value = { Found };

    ghost view = { λ finding. record {
      kind = finding.kind;
      name = finding.name.now;
      message = finding.message.now;
      place = finding.place;
      met = option_map (λ bytes. bytes.now) finding.met;
      named = option_map (λ bytes. bytes.now) finding.named;
      first = finding.first;
      imported = option_map (λ path. path.now) finding.import;
    } };
}

/// How many sources and lacks a run has, and how it ends.
#[derive(Clone, Copy, Debug, PartialEq, Eq)]
pub struct Counts {
    /// How many sources are indexed.
    pub sources: usize,
    /// How many files are left out, or would be.
    pub skipped: usize,
    /// How many imports name nothing.
    pub imports: usize,
    /// How many uses name nothing.
    pub uses: usize,
    /// The exit status of the run.
    pub status: u8,
}

impl FindingKind {
    /// The word for it in a line of JSON.
    pub(crate) fn word(self) -> &'static str
        ensures { result.now ≡ word_of self }
    {
        match self {
            FindingKind::Fault => "fault",
            FindingKind::Skipped => "skipped",
            FindingKind::Unresolved => "no target",
            FindingKind::Uncertain => "uncertain",
        }
    }

    /// The level that a result in SARIF has for it.
    pub(crate) fn level(self) -> &'static str
        ensures { result.now ≡ level_of self }
    {
        match self {
            FindingKind::Fault | FindingKind::Skipped => "error",
            FindingKind::Unresolved | FindingKind::Uncertain => "warning",
        }
    }

    /// A sentence about the first place of such a finding.
    pub(crate) fn related(self) -> &'static str
        ensures { result.now ≡ related_of self }
    {
        match self {
            FindingKind::Fault | FindingKind::Skipped | FindingKind::Unresolved => {
                "it is given here"
            }
            FindingKind::Uncertain => "it can't be read",
        }
    }
}

/// The point of an offset of the counter's text.
fn point_at(counter: &mut LineCounter<'_>, at: usize) -> Point
    ensures point { result ≡ point_in counter.old at }
    ensures same { counter.new ≡ counter.old }
{
    let (line, column) = counter.line_and_column(at);
    Point { at, line, column }
}

/// The same, if there is an offset.
fn point_of(counter: &mut LineCounter<'_>, at: Option<usize>) -> Option<Point>
    ensures point { result ≡ option_map (point_in counter.old) at }
    ensures same { counter.new ≡ counter.old }
{
    match at {
        Some(at) => Some(point_at(counter, at)),
        None => None,
    }
}

impl<'a> Place<'a> {
    /// A place of the file with this path below its root, and with the counter's text, which is empty if the file
    /// couldn't be read. It begins behind `offset` bytes of the text, and ends behind `end`, if that is known. Without
    /// an offset, the whole file is meant.
    pub fn new(
        path: &'a str,
        counter: &mut LineCounter<'a>,
        offset: Option<usize>,
        end: Option<usize>,
    ) -> Place<'a>
        ensures path { result.path ≡ path.now }
        ensures bytes { result.bytes ≡ path.now }
        ensures text { result.text ≡ counter.old }
        ensures offset { result.offset ≡ offset }
        ensures end { result.end ≡ end }
        ensures same { counter.new ≡ counter.old }
    {
        let start = point_of(counter, offset);
        let end = point_of(counter, end);
        Place {
            path,
            bytes: path.as_bytes(),
            text: counter.text(),
            start,
            end,
        }
    }

    /// The whole of what has a path below its root that needn't be UTF-8: as it is shown, and its bytes.
    pub fn of_entry(shown: &'a str, bytes: &'a [u8]) -> Place<'a>
        ensures { result ≡ record { path = shown.now; bytes = bytes.now; text = []; offset = None; end = None } }
    {
        Place {
            path: shown,
            bytes,
            text: &[],
            start: None,
            end: None,
        }
    }

    /// The path of the file.
    pub(crate) fn path(&self) -> &'a str
        ensures { result.now ≡ self.now.path }
    {
        self.path
    }

    /// The bytes of its path.
    pub(crate) fn bytes(&self) -> &'a [u8]
        ensures { result.now ≡ self.now.bytes }
    {
        self.bytes
    }

    /// Where it begins.
    pub(crate) fn start(&self) -> Option<Point>
        ensures { result ≡ start_of self.now }
    {
        self.start
    }

    /// Where it ends, if that is known.
    pub(crate) fn end(&self) -> Option<Point>
        ensures { result ≡ end_of self.now }
    {
        self.end
    }

    /// How many bytes come before it.
    pub(crate) fn offset(&self) -> Option<usize>
        ensures { result ≡ self.now.offset }
    {
        offset_of(self.start)
    }

    /// How many bytes come before its end, if that is known.
    pub(crate) fn end_offset(&self) -> Option<usize>
        ensures { result ≡ self.now.end }
    {
        offset_of(self.end)
    }

    /// Its line, from 1.
    pub(crate) fn line(&self) -> Option<usize>
        ensures { result ≡ line_at self.now }
    {
        line_of(self.start())
    }

    /// Its column, from 1 in characters.
    pub(crate) fn column(&self) -> Option<usize>
        ensures { result ≡ column_at self.now }
    {
        column_of(self.start())
    }
}

/// Appends which token was met, if the parser met one.
fn push_met_token(out: &mut String, met: Option<&[u8]>) -> Result<(), AllocError>
    ensures { OnOk result (string_bytes out.new
        ≡ string_bytes out.old ++ met_text (option_map (λ bytes. bytes.now) met.entry)) }
{
    match met {
        Some(bytes) => push_met(out, bytes),
        None => Ok(()),
    }
}

/// Appends what is named, if anything is.
fn push_named(out: &mut String, named: Option<&[u8]>) -> Result<(), AllocError>
    ensures { OnOk result (string_bytes out.new
        ≡ string_bytes out.old ++ named_text (option_map (λ bytes. bytes.now) named.entry)) }
{
    match named {
        Some(bytes) => {
            out.push_str(": ")?;
            push_quoted(out, bytes)
        }
        None => Ok(()),
    }
}

/// The offset of a point.
fn offset_of(point: Option<Point>) -> Option<usize>
    ensures { result ≡ option_map (λ point. point.at) point }
{
    match point {
        Some(point) => Some(point.at),
        None => None,
    }
}

/// Its line.
fn line_of(point: Option<Point>) -> Option<usize>
    ensures { result ≡ option_map (λ point. point.line) point }
{
    match point {
        Some(point) => Some(point.line),
        None => None,
    }
}

/// Its column.
fn column_of(point: Option<Point>) -> Option<usize>
    ensures { result ≡ option_map (λ point. point.column) point }
{
    match point {
        Some(point) => Some(point.column),
        None => None,
    }
}

impl<'a> Finding<'a> {
    /// Its name.
    pub(crate) fn name(&self) -> &'a str
        ensures { result.now ≡ self.now.name }
    {
        self.name
    }

    /// What is said of it: the token that was met, the sentence, and what is named there.
    pub(crate) fn said(&self, alloc: Global) -> Result<String, AllocError>
        ensures { IfOk result (λ text. string_bytes text ≡ said_of self.now) }
    {
        let mut text = String::new(alloc);
        push_met_token(&mut text, self.met)?;
        text.push_str(self.message)?;
        push_named(&mut text, self.named)?;
        Ok(text)
    }

    /// The path of its file.
    pub(crate) fn path(&self) -> Option<&str>
        ensures { option_map (λ path. path.now) result ≡ option_map (λ place. place.path) self.now.place }
    {
        match &self.place {
            Some(place) => Some(place.path()),
            None => None,
        }
    }

    /// The offset of its place.
    pub(crate) fn offset(&self) -> Option<usize>
        ensures { result ≡ option_and_then (λ place. place.offset) self.now.place }
    {
        match &self.place {
            Some(place) => place.offset(),
            None => None,
        }
    }

    /// The offset of its place's end.
    pub(crate) fn end(&self) -> Option<usize>
        ensures { result ≡ option_and_then (λ place. place.end) self.now.place }
    {
        match &self.place {
            Some(place) => place.end_offset(),
            None => None,
        }
    }

    /// The line of its place, from 1.
    pub(crate) fn line(&self) -> Option<usize>
        ensures { result ≡ option_and_then line_at self.now.place }
    {
        match &self.place {
            Some(place) => place.line(),
            None => None,
        }
    }

    /// The column of its place, from 1 in characters.
    pub(crate) fn column(&self) -> Option<usize>
        ensures { result ≡ option_and_then column_at self.now.place }
    {
        match &self.place {
            Some(place) => place.column(),
            None => None,
        }
    }
}
