//! What tells whether a file is there.

ghost use Rattle.std.specs.Prelude.{ℕ, List, Bool, IfOk};

use std::alloc::AllocError;

/// Tells whether files are there.
pub trait FindFiles {
    // What asking whether a regular file has a path may answer.
    ghost finds: { Self → List ℕ → Bool → Type 0 };

    /// Whether a regular file has a path, or a link there leads to one. False of what the system doesn't find.
    fn is_there(&self, path: &str) -> Result<bool, AllocError>
        ensures { IfOk result (λ there. finds self.now path.now there) };
}
