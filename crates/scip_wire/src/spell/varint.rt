//! Shortest varints (Protocol Buffers encoding, Base 128 Varints).

ghost use Rattle.std.specs.Prelude.{◌≡◌, ◌≤◌, length};
ghost use Rattle.scip_wire.specs.Spelling.{varint};
ghost use Rattle.scip_wire.specs.Outputs.{IsPut};

use super::output::Output;

/// How many bytes the varint has: 1 to 10.
pub(super) fn varint_len(number: u64) -> u64
    ensures value { result ≡ length (varint number) }
    ensures bound { result ≤ 10 }
{
    let mut len = 1;
    let mut rest = number;
    'groups: while rest >= 128 {
        len += 1;
        rest /= 128;
    }
    len
}

/// Puts the varint.
pub(super) fn encode_varint<W, O: Output<W>>(out: &mut O, sink: &mut W, number: u64)
    ensures { IsPut O.holds sink.old out.old sink.new out.new (varint number) }
{
    let mut rest = number;
    'groups: while rest >= 128 {
        out.put_byte(sink, (rest % 128) as u8 + 128);
        rest /= 128;
    }
    out.put_byte(sink, rest as u8);
}
