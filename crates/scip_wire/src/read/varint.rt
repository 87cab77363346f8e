//! Varints.

ghost use Rattle.std.specs.Prelude.{◌<◌, IfErr};
ghost use Rattle.scip_wire.specs.Gives.{Gives, Names};
ghost use Rattle.scip_wire.specs.Fields.{max_varint_len};
ghost use Rattle.scip_wire.specs.Reading.{varint_at};
ghost use Rattle.scip_wire.specs.Blamed.{varint_fault};

use crate::wire_fault::WireFault;

/// The most bytes that a varint has.
const MAX_VARINT_LEN: usize = 10;

/// The varint of at most `limit` bytes that the bytes begin with, in a record at `start` in the input, and the bytes
/// after it (Protocol Buffers encoding, Base 128 Varints). It may be longer than its value needs.
#[tactic(auto, unfolding(crate::specs::Reading::varint_at, crate::specs::Blamed::varint_fault))]
fn varint_of(bytes: &[u8], limit: usize, start: usize) -> Result<(u64, &[u8]), WireFault>
    requires { 0 < limit }
    ensures reads { Gives (λ x. (x.0, x.1.now)) result (varint_at limit bytes.now) }
    ensures fault { IfErr result (Names (varint_at limit bytes.now) (varint_fault start limit bytes.now)) }
{
    let [byte, rest @ ..] = bytes else {
        return Err(WireFault::Truncated(start));
    };
    if *byte < 128 {
        return Ok((u64::from(*byte), rest));
    }
    if limit == 1 {
        return Err(WireFault::Varint(start));
    }
    let (high, rest) = varint_of(rest, limit - 1, start)?;
    if high >= 1 << 57 {
        return Err(WireFault::Varint(start));
    }
    Ok((u64::from(*byte - 128) + 128 * high, rest))
}

/// The varint that the bytes begin with, in a record at `start` in the input, and the bytes after it. Most have one
/// byte.
#[tactic(auto, unfolding(crate::specs::Reading::varint_at, crate::specs::Blamed::varint_fault))]
pub fn one_varint_of(bytes: &[u8], start: usize) -> Result<(u64, &[u8]), WireFault>
    ensures reads { Gives (λ x. (x.0, x.1.now)) result (varint_at max_varint_len bytes.now) }
    ensures fault { IfErr result (Names (varint_at max_varint_len bytes.now)
        (varint_fault start max_varint_len bytes.now)) }
{
    match bytes {
        [byte, rest @ ..] if *byte < 128 => Ok((u64::from(*byte), rest)),
        _ => varint_of(bytes, MAX_VARINT_LEN, start),
    }
}
