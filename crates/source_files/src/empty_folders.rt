//! What tells whether a folder is free.

ghost use Rattle.std.specs.Prelude.{ℕ, List, Bool, IfOk};

use std::alloc::AllocError;

/// Tells whether files may go below a folder without meeting others.
pub trait EmptyFolders {
    // What asking about a path may answer.
    ghost frees: { Self → List ℕ → Bool → Type 0 };

    /// Whether nothing is there, or a folder without entries; the empty path is the folder where the program runs.
    /// False of all else: of a folder with an entry, of a file, and of what the system doesn't list.
    fn is_free(&self, path: &str) -> Result<bool, AllocError>
        ensures { IfOk result (λ free. frees self.now path.now free) };
}
