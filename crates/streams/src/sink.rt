//! What bytes are written to.

ghost use Rattle.std.specs.Prelude.{◌≡◌, ℕ, ◌≤◌, List, length, Option, IfOk};
ghost use Rattle.std.specs.Io.KnownBytes.{WriteAppends};
ghost use Rattle.streams.specs.Streams.{failures_after_write};

use crate::failed::Failed;

/// A writer that counts its failures.
///
/// An `Err` is a failure, whatever its cause, and so is `Ok(0)` for bytes that aren't empty. A short
/// write isn't.
pub trait Sink {
    // The bytes that it holds, if they are known.
    ghost contents: { Self → Option (List ℕ) };

    // How many writes failed, up to `u64::MAX`.
    ghost failures: { Self → ℕ };

    /// Writes some of the bytes, from the first on, and gives how many. `Failed` writes none.
    fn write(&mut self, bytes: &[u8]) -> Result<usize, Failed>
        ensures bound { IfOk result (λ n. n ≤ length bytes.now) }
        ensures bytes { WriteAppends (contents self.old) (contents self.new) result bytes.now }
        ensures failures { failures self.new ≡ failures_after_write (failures self.old) result bytes.now };
}
