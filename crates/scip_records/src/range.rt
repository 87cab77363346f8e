//! Where an occurrence is.

ghost use Rattle.std.specs.Prelude.{◌≡◌, ◌≤◌, SomeIff};
ghost use Rattle.scip_records.specs.Range.{RangeNumbers, IsRange};

use std::marker::Model;

/// The greatest number of a range: that of a SCIP `int32`.
pub const MAX_RANGE_NUMBER: u32 = 2147483647;

/// A half-open range of a document: from a place up to, and without, another.
///
/// Lines and columns are zero-based, and columns count the units of the document's position
/// encoding (`scip.proto`, `Occurrence.range`). Each of the four numbers is at most
/// `MAX_RANGE_NUMBER`, whatever a range is made of.
#[derive(Clone, Copy, Debug)]
pub struct Range {
    start_line: u32,
    start_column: u32,
    end_line: u32,
    end_column: u32,
}

impl Model for Range {
    ghost use Rattle.scip_records.specs.Range.{RangeNumbers, IsRange};

    ghost Value = { RangeNumbers };

    ghost use Rattle.scip_records.specs.RangeFields.{numbers_of, fields_of};

    ghost view = { numbers_of };

    ghost invariant = { λ r. IsRange (numbers_of r) };

    ghost inverse = { fields_of };
}

impl Range {
    /// The range of four numbers, if each of them fits a SCIP `int32`. The end may be before the start.
    pub fn new(start_line: u32, start_column: u32, end_line: u32, end_column: u32) -> Option<Range>
        ensures { SomeIff result (IsRange (record {
          start_line = start_line;
          start_column = start_column;
          end_line =
              end_line;
          end_column = end_column;
        })) (record {
          start_line = start_line;
          start_column = start_column;
          end_line = end_line;
          end_column = end_column;
        }) }
    {
        if start_line <= MAX_RANGE_NUMBER
            && start_column <= MAX_RANGE_NUMBER
            && end_line <= MAX_RANGE_NUMBER
            && end_column <= MAX_RANGE_NUMBER
        {
            Some(Range {
                start_line,
                start_column,
                end_line,
                end_column,
            })
        } else {
            None
        }
    }

    /// The line where it begins.
    pub fn start_line(&self) -> u32
        ensures value { result ≡ self.now.start_line }
        ensures known { IsRange self.now }
    {
        self.start_line
    }

    /// The column where it begins.
    pub fn start_column(&self) -> u32
        ensures { result ≡ self.now.start_column }
    {
        self.start_column
    }

    /// The line where it ends.
    pub fn end_line(&self) -> u32
        ensures { result ≡ self.now.end_line }
    {
        self.end_line
    }

    /// The column where it ends.
    pub fn end_column(&self) -> u32
        ensures { result ≡ self.now.end_column }
    {
        self.end_column
    }
}
