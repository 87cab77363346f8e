//! Records: a field's number and what it holds.

ghost use Rattle.std.specs.Prelude.{IfErr};
ghost use Rattle.scip_wire.specs.Gives.{Gives, Names};
ghost use Rattle.scip_wire.specs.Reading.{piece_at, payload_at, field_at};
ghost use Rattle.scip_wire.specs.Blamed.{payload_fault, field_fault};
ghost use Rattle.scip_wire.specs.Views.{payload_view, field_view};

use crate::read::varint::one_varint_of;
use crate::wire_fault::WireFault;

/// What a record holds, by its wire type (Protocol Buffers encoding, Message Structure).
#[derive(Clone, Copy, Debug)]
pub enum Payload<'a> {
    Varint(u64),
    Fixed64(&'a [u8]),
    Delimited(&'a [u8]),
    Fixed32(&'a [u8]),
}

/// A record: its field's number, 1 to 536,870,911, and what it holds.
#[derive(Clone, Copy, Debug)]
pub struct Field<'a> {
    pub number: u32,
    pub payload: Payload<'a>,
}

/// The first `size` bytes, in a record at `start` in the input, and those after them.
#[tactic(auto, unfolding(crate::specs::Reading::piece_at))]
fn piece_of(bytes: &[u8], size: u64, start: usize) -> Result<(&[u8], &[u8]), WireFault>
    ensures reads { Gives (λ x. (x.0.now, x.1.now)) result (piece_at size bytes.now) }
    ensures fault { IfErr result (Names (piece_at size bytes.now) (WireFault.Truncated start)) }
{
    if size > bytes.len() as u64 {
        return Err(WireFault::Truncated(start));
    }
    Ok(bytes.split_at(size as usize))
}

/// The payload of a wire type that the bytes begin with, in a record at `start` in the input, and the bytes after it.
#[tactic(auto, unfolding(crate::specs::Reading::payload_at, crate::specs::Blamed::payload_fault))]
fn payload_of(bytes: &[u8], wire_type: u64, start: usize) -> Result<(Payload<'_>, &[u8]), WireFault>
    ensures reads { Gives (λ x. (payload_view x.0, x.1.now)) result (payload_at wire_type bytes.now) }
    ensures fault { IfErr result (Names (payload_at wire_type bytes.now) (payload_fault start wire_type bytes.now)) }
{
    match wire_type {
        0 => {
            let (value, rest) = one_varint_of(bytes, start)?;
            Ok((Payload::Varint(value), rest))
        }
        1 => {
            let (inside, rest) = piece_of(bytes, 8, start)?;
            Ok((Payload::Fixed64(inside), rest))
        }
        2 => {
            let (size, rest) = one_varint_of(bytes, start)?;
            let (inside, rest) = piece_of(rest, size, start)?;
            Ok((Payload::Delimited(inside), rest))
        }
        5 => {
            let (inside, rest) = piece_of(bytes, 4, start)?;
            Ok((Payload::Fixed32(inside), rest))
        }
        3 | 4 => Err(WireFault::Group(start)),
        _ => Err(WireFault::WireType(start)),
    }
}

/// The record that the bytes begin with, which is at `start` in the input, and the bytes after it (Protocol Buffers
/// encoding, Message Structure).
#[tactic(auto, unfolding(crate::specs::Reading::field_at, crate::specs::Blamed::field_fault))]
pub fn read_field(bytes: &[u8], start: usize) -> Result<(Field<'_>, &[u8]), WireFault>
    ensures reads { Gives (λ x. (field_view x.0, x.1.now)) result (field_at bytes.now) }
    ensures fault { IfErr result (Names (field_at bytes.now) (field_fault start bytes.now)) }
{
    let (tag, rest) = one_varint_of(bytes, start)?;
    if tag >= 1 << 32 {
        return Err(WireFault::Varint(start));
    }
    if tag < 8 {
        return Err(WireFault::FieldZero(start));
    }
    let (payload, rest) = payload_of(rest, tag % 8, start)?;
    let field = Field {
        number: (tag / 8) as u32,
        payload,
    };
    Ok((field, rest))
}
