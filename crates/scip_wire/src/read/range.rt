//! Ranges.

ghost use Rattle.std.specs.Prelude.{◌≡◌, ◌++◌, IfErr, OnOk, is_some};
ghost use Rattle.scip_wire.specs.Gives.{Blames, Gives};
ghost use Rattle.scip_wire.specs.Fields.{max_varint_len};
ghost use Rattle.scip_wire.specs.Reading.{fold_at, varint_at, packed_step, packed_at, readable, range_at};
ghost use Rattle.scip_wire.specs.Blamed.{packed_fault};

use crate::read::numbers::Numbers;
use crate::read::text::low_bits;
use crate::read::varint::one_varint_of;
use crate::wire_fault::WireFault;
use scip_records::Range;

/// Adds the numbers of a packed field, whose record is at `start` in the input (Protocol Buffers
/// encoding, Packed Repeated Fields). After an error the numbers are of no use.
pub fn add_packed(numbers: &mut Numbers, bytes: &[u8], start: usize) -> Result<(), WireFault>
    ensures reads { Gives (λ _. numbers.new) result (fold_at (varint_at max_varint_len) packed_step bytes.now
        numbers.old) }
    ensures fault { Blames result (packed_fault start bytes.now numbers.old) }
{
    let mut rest = bytes;
    'varints: while !rest.is_empty() {
        let (value, after) = one_varint_of(rest, start)?;
        numbers.push(low_bits(value))?;
        rest = after;
    }
    Ok(())
}

/// Whether the bytes are packed numbers.
fn are_packed(bytes: &[u8]) -> bool
    ensures { result ≡ is_some (packed_at bytes.now) }
{
    let mut rest = bytes;
    'varints: while !rest.is_empty() {
        match one_varint_of(rest, 0) {
            Ok(read) => rest = read.1,
            Err(_) => return false,
        }
    }
    true
}

/// Adds the numbers of a packed field, if they can be read. After an error the numbers are of no use.
pub fn add_readable(numbers: &mut Numbers, bytes: &[u8]) -> Result<(), WireFault>
    ensures reads { OnOk result (numbers.new ≡ numbers.old ++ readable (packed_at bytes.now)) }
    ensures memory { IfErr result (λ fault. fault ≡ WireFault.Memory) }
{
    if are_packed(bytes) {
        add_packed(numbers, bytes, 0)
    } else {
        Ok(())
    }
}

/// The range of three numbers, `[line, column, end column]`, or of four, `[line, column, end line,
/// end column]` (`scip.proto`, `Occurrence.range`).
///
/// None for any other count, and where a number is negative as an int32.
#[tactic(auto, unfolding(crate::specs::Reading::range_at), using(crate::proofs::DecodesLemmas::checked_of))]
fn range_of(numbers: &[u32]) -> Option<Range>
    ensures { result ≡ range_at numbers.now }
{
    match numbers {
        [line, column, end_column] => Range::new(*line, *column, *line, *end_column),
        [line, column, end_line, end_column] => Range::new(*line, *column, *end_line, *end_column),
        _ => None,
    }
}

/// The range of numbers: that of three or of four.
#[tactic(auto, using(crate::proofs::NumberLemmas::no_range_of_more))]
pub fn range_in(numbers: &Numbers) -> Option<Range>
    ensures { result ≡ range_at numbers.now }
{
    match numbers.few() {
        Some(few) => range_of(few),
        None => None,
    }
}
