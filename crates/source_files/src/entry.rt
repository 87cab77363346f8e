//! The entries of folders.

ghost use Rattle.std.specs.Prelude.{◌≡◌};

use std::marker::Model;

/// What the names of sources end in.
pub(crate) const ENDING: &str = ".proto";

/// An entry of a folder.
///
/// Contracts see the bytes of its name, and whether it is a regular file.
#[derive(Debug, Drop)]
pub struct FolderEntry {
    /// Its name.
    pub name: String,
    /// Whether it is a regular file. What is none may be a folder: listing it tells.
    pub is_file: bool,
}

impl Model for FolderEntry {
    ghost use Rattle.std.specs.String.{string_bytes};
    ghost use Rattle.source_files.specs.Entries.{Entry};

    ghost Value = { Entry };

    ghost view = { λ entry. record { name = string_bytes entry.name; is_file = entry.is_file } };
}

impl FolderEntry {
    /// Its name.
    pub(crate) fn name(&self) -> &str
        ensures { result.now ≡ self.now.name }
    {
        self.name.as_str()
    }
}
