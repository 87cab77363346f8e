//! Documents, spelled.

ghost use Rattle.std.specs.Prelude.{◌≡◌, length};
ghost use Rattle.scip_wire.specs.Shortened.{bytes_in, IsPlaced};
ghost use Rattle.scip_wire.specs.Outputs.{IsPut};

use super::output::Output;
use super::shortened::Shortened;
use std::marker::Model;

/// A document's record, as in the spelling of an index, with its tag and length. What most of its symbols begin with is
/// kept once.
///
/// Contracts see the list of its bytes.
#[derive(Debug, Drop)]
pub struct DocumentRecord {
    bytes: Shortened,
    len: usize,
}

impl Model for DocumentRecord {
    ghost use Rattle.std.specs.Prelude.{◌≡◌, ◌≤◌, ℕ, List, length};
    ghost use Rattle.scip_wire.specs.Shortened.{bytes_in, distance_sum};

    ghost Value = { List ℕ };

    ghost view = { λ inside. bytes_in inside.bytes };

    ghost invariant = { λ inside. (inside.len ≡ length (bytes_in inside.bytes))
        × (distance_sum inside.bytes.distances.items ≤ length inside.bytes.rest.items) };
}

impl DocumentRecord {
    /// The record with these bytes, which are this many.
    pub(super) fn new(bytes: Shortened, len: usize) -> DocumentRecord
        requires placed { IsPlaced bytes }
        requires len { len ≡ length (bytes_in bytes) }
        ensures { result ≡ bytes_in bytes }
    {
        let mut bytes = bytes;
        bytes.shrink();
        DocumentRecord { bytes, len }
    }

    /// The number of its bytes.
    pub(super) fn len(&self) -> usize
        ensures { result ≡ length self.now }
    {
        self.len
    }

    /// Puts its bytes.
    pub(super) fn put<W, O: Output<W>>(&self, out: &mut O, sink: &mut W)
        ensures { IsPut O.holds sink.old out.old sink.new out.new self.now }
    {
        self.bytes.put_into(out, sink);
    }
}
