//! What bytes are read from.

ghost use Rattle.std.specs.Prelude.{◌≡◌, ℕ, List, Option};
ghost use Rattle.std.specs.Io.{ReadsAtMost};
ghost use Rattle.std.specs.Io.KnownBytes.{ReadConsumes};
ghost use Rattle.streams.specs.Streams.{failures_after_read, reads_after_read, ends_after_read};

use crate::failed::Failed;

/// The most reads into room for bytes that reading to an end takes: the end has to come within
/// them.
pub const MAX_READS: u32 = 16_777_216;

/// A reader that counts its failures, its reads and its ends.
///
/// An `Err` is a failure, whatever its cause. Reads into room for no byte aren't counted; of the
/// others, those that give `Ok(0)` are ends.
pub trait Feed {
    // The bytes that it has left to give, if they are known.
    ghost remaining: { Self → Option (List ℕ) };

    // How many reads failed, up to `u64::MAX`.
    ghost failures: { Self → ℕ };

    // How many reads had room for a byte, up to `u64::MAX`.
    ghost reads: { Self → ℕ };

    // How many of them met the end of the bytes, up to `u64::MAX`.
    ghost ends: { Self → ℕ };

    /// Reads some bytes to the front of the room, and gives how many: 0 only at the end of the bytes, or if there is
    /// no room. `Failed` takes no byte from those left.
    fn read(&mut self, room: &mut [u8]) -> Result<usize, Failed>
        ensures bound { ReadsAtMost result room.new }
        ensures bytes { ReadConsumes (remaining self.old) (remaining self.new) result room.new }
        ensures failures { failures self.new ≡ failures_after_read (failures self.old) result }
        ensures reads { reads self.new ≡ reads_after_read (reads self.old) room.new }
        ensures ends { ends self.new ≡ ends_after_read (ends self.old) result room.new };
}
