//! What folders are looked through a second time for.

ghost use Rattle.std.specs.Prelude.{ℕ, List, Option, IfOk, map, string_bytes};
ghost use Rattle.std.specs.Option.{option_map};
ghost use Rattle.source_files.specs.declared.look_again.PassedOver.{PassedOver};

use std::alloc::AllocError;

/// What a walk below a root passes over.
#[derive(Clone, Copy, Debug, PartialEq, Eq)]
pub struct PassedOver {
    /// Symbolic links.
    pub links: u64,
    /// Regular files whose names don't end in `.proto`.
    pub others: u64,
}

/// Looks a second time at what is listed and read, to tell a person more about it. What is there may have changed.
pub trait LookAgain {
    // What counting that which a walk below a root passes over may give.
    ghost passes: { Self → List ℕ → PassedOver → Type 0 };

    // What may be said of why the folder with a path among these, or the file with this path below one of them, can't
    // be read, without what patterns exclude; none if nothing is found.
    ghost blames: { Self → List (List ℕ) → List (List ℕ) → List ℕ → Option (List ℕ) → Type 0 };

    /// What a walk below a root passes over, as far as the folders can be read. Both counts stop at the last u64.
    fn passed_over(&self, root: &str) -> Result<PassedOver, AllocError>
        ensures { IfOk result (passes self.now root.now) };

    /// Why a path can't be read, without a line end: a path, and the system's words for the cause. Of one of these
    /// folders it is that of the first folder or entry found in it that can't be read, but for what these patterns
    /// exclude; else that of the file with this path below the first of the folders where there is one, or, without
    /// folders, of the file with the path itself. Bytes of a name that aren't UTF-8, and those of characters that a
    /// terminal obeys, have the form `\xe9`. None if nothing is found.
    fn why_unread(
        &self,
        folders: &[String],
        excluded: &[String],
        path: &str,
    ) -> Result<Option<String>, AllocError>
        ensures { IfOk result (λ why. blames self.now (map string_bytes folders.now) (map string_bytes excluded.now)
            path.now (option_map string_bytes why)) };
}
