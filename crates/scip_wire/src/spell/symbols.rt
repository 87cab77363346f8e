//! The record of a symbol that is lent in two parts.

ghost use Rattle.std.specs.Prelude.{◌≡◌, ◌<◌, ◌≤◌, ◌^◌, ◌++◌, length, IsUtf8};
ghost use Rattle.scip_wire.specs.Fields.{max_field_number};
ghost use Rattle.scip_wire.specs.Spelling.{bytes_of, text_fields};
ghost use Rattle.scip_wire.specs.Saturated.{saturated, fields_len};
ghost use Rattle.scip_wire.specs.Outputs.{IsPut};

use super::fields::record_len;
use super::output::Output;
use super::varint::encode_varint;
use scip_records::SymbolRef;

/// How many bytes two parts of a text have together, up to `u64::MAX`.
fn parts_len(front: &str, rest: &str) -> u64
    ensures value { result ≡ saturated (length (front.now ++ rest.now)) }
    ensures fit { IsUtf8 (front.now ++ rest.now) }
{
    (front.len() as u64).saturating_add(rest.len() as u64)
}

/// The length of a lent symbol's record, which an empty symbol doesn't have.
pub(super) fn symbol_len(number: u64, symbol: &SymbolRef<'_>) -> u64
    requires { number ≤ max_field_number }
    ensures value { result ≡ saturated (fields_len (text_fields number symbol.now)) }
    ensures fit { IsUtf8 symbol.now }
{
    let len = parts_len(symbol.front, symbol.rest);
    if len == 0 { 0 } else { record_len(number, len) }
}

/// Puts a lent symbol's record, which an empty symbol doesn't have. Each part is put by itself.
pub(super) fn encode_symbol<W, O: Output<W>>(
    out: &mut O,
    sink: &mut W,
    number: u64,
    symbol: &SymbolRef<'_>,
)
    requires number { number ≤ max_field_number }
    requires short { length symbol.now < 2 ^ 64 }
    ensures { IsPut O.holds sink.old out.old sink.new out.new (bytes_of (text_fields number symbol.now)) }
{
    let len = parts_len(symbol.front, symbol.rest);
    if len != 0 {
        encode_varint(out, sink, 8 * number + 2);
        encode_varint(out, sink, len);
        out.put(sink, symbol.front.as_bytes());
        out.put(sink, symbol.rest.as_bytes());
    }
}
