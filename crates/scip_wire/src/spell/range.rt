//! The record of a range (`scip.proto`, `Occurrence.range`): its numbers, packed.

ghost use Rattle.std.specs.Prelude.{◌≡◌, ◌≤◌, [], ◌∷◌, cond, flat_map, length, nat_eq, IfSome};
ghost use Rattle.scip_records.specs.Range.{IsRange};
ghost use Rattle.scip_wire.specs.Fields.{max_field_number};
ghost use Rattle.scip_wire.specs.Spelling.{bytes_of, varint, range_numbers, range_field, optional_range_fields};
ghost use Rattle.scip_wire.specs.Saturated.{saturated, fields_len};
ghost use Rattle.scip_wire.specs.Outputs.{IsPut};

use super::fields::record_len;
use super::output::Output;
use super::varint::{encode_varint, varint_len};
use scip_records::Range;

/// The length of a range's record.
pub(super) fn range_len(number: u64, range: &Range) -> u64
    requires { number ≤ max_field_number }
    ensures value { result ≡ saturated (fields_len (range_field number range.now ∷ [])) }
    ensures fit { IsRange range.now }
{
    record_len(number, numbers_len(range))
}

/// The length of the record of a range that may be absent.
pub(super) fn optional_range_len(number: u64, range: &Option<Range>) -> u64
    requires { number ≤ max_field_number }
    ensures value { result ≡ saturated (fields_len (optional_range_fields number range.now)) }
    ensures fit { IfSome range.now IsRange }
{
    match range {
        Some(range) => range_len(number, range),
        None => 0,
    }
}

/// Puts the record of a range that may be absent.
pub(super) fn encode_optional_range<W, O: Output<W>>(
    out: &mut O,
    sink: &mut W,
    number: u64,
    range: &Option<Range>,
)
    requires { number ≤ max_field_number }
    ensures { IsPut O.holds sink.old out.old sink.new out.new (bytes_of (optional_range_fields number range.now)) }
{
    if let Some(range) = range {
        encode_range(out, sink, number, range);
    }
}

/// Puts a range's record.
pub(super) fn encode_range<W, O: Output<W>>(out: &mut O, sink: &mut W, number: u64, range: &Range)
    requires { number ≤ max_field_number }
    ensures { IsPut O.holds sink.old out.old sink.new out.new (bytes_of (range_field number range.now ∷ [])) }
{
    encode_varint(out, sink, 8 * number + 2);
    encode_varint(out, sink, numbers_len(range));
    encode_numbers(out, sink, range);
}

/// The length of a range's numbers: three if both ends are on one line, otherwise four.
fn numbers_len(range: &Range) -> u64
    ensures value { result ≡ length (flat_map varint (range_numbers range.now)) }
    ensures bound { result ≤ 40 }
    ensures fit { IsRange range.now }
{
    let start = varint_len(u64::from(range.start_line()))
        + varint_len(u64::from(range.start_column()));
    let end_column = varint_len(u64::from(range.end_column()));
    if is_on_one_line(range) {
        start + end_column
    } else {
        start + varint_len(u64::from(range.end_line())) + end_column
    }
}

/// Puts a range's numbers: three if both ends are on one line, otherwise four.
fn encode_numbers<W, O: Output<W>>(out: &mut O, sink: &mut W, range: &Range)
    ensures { IsPut O.holds sink.old out.old sink.new out.new (flat_map varint (range_numbers range.now)) }
{
    encode_varint(out, sink, u64::from(range.start_line()));
    encode_varint(out, sink, u64::from(range.start_column()));
    encode_end_line(out, sink, range);
    encode_varint(out, sink, u64::from(range.end_column()));
}

/// Puts the line of the end, unless it is that of the start.
fn encode_end_line<W, O: Output<W>>(out: &mut O, sink: &mut W, range: &Range)
    ensures { IsPut O.holds sink.old out.old sink.new out.new
        (cond (nat_eq range.now.start_line range.now.end_line) [] (varint range.now.end_line)) }
{
    if !is_on_one_line(range) {
        encode_varint(out, sink, u64::from(range.end_line()));
    }
}

/// Whether both ends are on one line.
fn is_on_one_line(range: &Range) -> bool
    ensures { result ≡ nat_eq range.now.start_line range.now.end_line }
{
    range.start_line() == range.end_line()
}
