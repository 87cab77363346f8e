//! A place where a file is to be.

ghost use Rattle.std.specs.Prelude.{◌≡◌, ℕ, List, Option, Bool, false, IfOk};
ghost use Rattle.source_files.specs.Places.{IsBegun, Puts};

use std::alloc::{AllocError, Global};
use streams::{Failed, Sink};

/// A place where a file is to be. What it is to hold is written to a part, which is put there once it is whole. So
/// what was there stays if it never is.
///
/// Some places can't be filled so, as pipes and devices: there the part is the place itself, and what is written to it
/// is there at once.
pub trait OutPlace {
    /// What is written, before it is put there.
    type Part: Sink + Drop;

    // What the place holds, if that is known.
    ghost holds: { Self → Option (List ℕ) };

    // What asking whether the file with a path is the one that is there may answer.
    ghost same: { Self → List ℕ → Bool → Type 0 };

    // What asking whether a source may be what is there may answer.
    ghost suspects: { Self → Bool → Type 0 };

    // What is known of a part that the place refuses, and of one that it is told to give up.
    ghost refuses: { Self → Self.Part → Type 0 };

    ghost gives_up: { Self → Self.Part → Type 0 };

    /// Whether a file that is read as a source may be the one that is there. If not, none needs to be asked about.
    fn may_be_source(&self) -> bool
        ensures told { suspects self.now result }
        ensures none { result ≡ false → (path : List ℕ) → same self.now path false };

    /// Whether the file with a path is the one that is there, however the path is spelled.
    fn is_file(&self, path: &str) -> bool
        ensures { same self.now path.now result };

    /// A part, to which nothing was written yet. From then on writing takes no memory.
    fn begin(&self, alloc: Global) -> Result<Self::Part, AllocError>
        ensures { IfOk result (IsBegun Self.Part.contents Self.Part.failures) };

    /// Puts a part there, in place of what is there. `Failed`: the system refuses it.
    fn put(&mut self, part: Self::Part) -> Result<(), Failed>
        ensures { Puts holds refuses Self.Part.contents self.old self.new part result };

    /// Gives a part up.
    fn leave(&self, part: Self::Part)
        ensures { gives_up self.now part };
}
