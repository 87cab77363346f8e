//! What tells what files import.

ghost use Rattle.std.specs.Prelude.{ℕ, List, IfOk};
ghost use Rattle.source_files.specs.Reached.{Import};

use std::alloc::{AllocError, Global};
use std::marker::Model;

/// An import of a file.
///
/// Contracts see the bytes of its path, and whether it is a public one.
#[derive(Debug, Drop)]
pub struct FoundImport {
    /// The path that it names.
    pub path: String,
    /// Whether those who import the file see what it names, too.
    pub is_public: bool,
}

impl Model for FoundImport {
    ghost use Rattle.std.specs.String.{string_bytes};
    ghost use Rattle.source_files.specs.Reached.{Import};

    ghost Value = { Import };

    ghost view = { λ import. record { path = string_bytes import.path; is_public = import.is_public } };
}

/// Tells what files import.
pub trait FindImports {
    // What may be said that a file with these bytes imports.
    ghost tells: { Self → List ℕ → List Import → Type 0 };

    /// What a file with these bytes imports.
    fn imports_of(&self, alloc: Global, bytes: &[u8]) -> Result<Vec<FoundImport>, AllocError>
        ensures { IfOk result (λ imports. tells self.now bytes.now imports.items) };
}
