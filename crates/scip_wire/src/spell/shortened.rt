//! Bytes that are kept without the prefix that many of their texts have.

ghost use Rattle.std.specs.Prelude.{◌≡◌, ◌≤◌, IfOk, length};
ghost use Rattle.scip_wire.specs.Shortened.{in_full, distance_sum, bytes_in, IsBegun, LeavesOut};
ghost use Rattle.scip_wire.specs.Outputs.{IsPut};

use super::output::Output;
use std::alloc::{AllocError, Global};

/// The most bytes between two prefixes that are left out: a distance is a `u16`.
const MAX_DISTANCE: usize = 65_535;

/// Bytes that are kept without a text, the prefix, at places where they have it.
#[derive(Debug, Drop)]
pub(super) struct Shortened {
    prefix: Vec<u8>,
    /// The bytes without the prefixes that are left out.
    rest: Vec<u8>,
    /// For each prefix that is left out, in order, how many bytes of the rest are between it and the one before.
    distances: Vec<u16>,
    /// How many bytes of the rest come before the last of them.
    last: usize,
}

impl Shortened {
    /// No bytes yet, with room for this many, and for this many places at which the prefix is left out.
    pub(super) fn with_room(
        alloc: Global,
        prefix: &[u8],
        room: usize,
        places: usize,
    ) -> Result<Shortened, AllocError>
        ensures { IfOk result (IsBegun room) }
    {
        let prefix = Vec::from_slice(alloc, prefix)?;
        let rest = Vec::with_capacity(alloc, room)?;
        let distances = Vec::with_capacity(alloc, places)?;
        Ok(Shortened {
            prefix,
            rest,
            distances,
            last: 0,
        })
    }

    /// Notes that the prefix is left out here, if these bytes begin with it and there is room for the note. Gives what
    /// is still to be kept of them.
    fn leave_out<'b>(&mut self, bytes: &'b [u8]) -> &'b [u8]
        ensures { LeavesOut self.old self.new bytes.now result.now }
    {
        let Some(behind) = bytes.strip_prefix(self.prefix.as_slice()) else {
            return bytes;
        };
        let at = self.rest.as_slice().len();
        let distance = at.saturating_sub(self.last);
        if distance <= MAX_DISTANCE && self.distances.len() < self.distances.capacity() {
            self.distances.push_reserved(distance as u16);
            self.last = at;
            return behind;
        }
        bytes
    }

    /// Gives back the room that isn't needed.
    pub(super) fn shrink(&mut self)
        ensures prefix { self.new.prefix ≡ self.old.prefix }
        ensures rest { self.new.rest.items ≡ self.old.rest.items }
        ensures distances { self.new.distances.items ≡ self.old.distances.items }
        ensures last { self.new.last ≡ self.old.last }
    {
        self.rest.shrink_to(0);
        self.distances.shrink_to(0);
    }

    /// Puts the bytes in full.
    pub(super) fn put_into<W, O: Output<W>>(&self, out: &mut O, sink: &mut W)
        requires { distance_sum self.now.distances.items ≤ length self.now.rest.items }
        ensures { IsPut O.holds sink.old out.old sink.new out.new (bytes_in self.now) }
    {
        let prefix = self.prefix.as_slice();
        put_in_full(
            out,
            sink,
            prefix,
            self.rest.as_slice(),
            self.distances.as_slice(),
        );
    }
}

/// Puts in full the bytes of which these are the prefix, the rest and the distances.
fn put_in_full<W, O: Output<W>>(
    out: &mut O,
    sink: &mut W,
    prefix: &[u8],
    rest: &[u8],
    distances: &[u16],
)
    requires { distance_sum distances.now ≤ length rest.now }
    ensures { IsPut O.holds sink.old out.old sink.new out.new (in_full prefix.now rest.now distances.now) }
{
    let mut left = rest;
    'distances: for distance in distances {
        let (before, behind) = left.split_at(*distance as usize);
        out.put(sink, before);
        out.put(sink, prefix);
        left = behind;
    }
    out.put(sink, left);
}

/// It is begun with room for all that is put. Of one that has less, nothing is said.
impl<W> Output<W> for Shortened {
    ghost use Rattle.scip_wire.specs.Shortened.{IsShortened};

    ghost holds = { IsShortened };

    fn put_byte(&mut self, _sink: &mut W, byte: u8) {
        if self.rest.len() < self.rest.capacity() {
            self.rest.push_reserved(byte);
        }
    }

    fn put(&mut self, _sink: &mut W, bytes: &[u8]) {
        let behind = self.leave_out(bytes);
        let _ = self.rest.extend_from_slice(behind);
    }
}
