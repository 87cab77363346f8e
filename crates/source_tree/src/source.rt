//! Files as they are handed in.

ghost use Rattle.std.specs.Prelude.{◌≡◌, ◌↔◌, IsTrue};
ghost use Rattle.source_tree.specs.Path.{IsGoodPath};
ghost use Rattle.source_tree.specs.Files.{path_cmp};

use crate::path::is_good_path;
use std::cmp::Ordering;
use std::marker::Model;

/// A file: its path below its root, with `/` between components, its bytes, and whether it couldn't be read.
///
/// Contracts see the bytes of its path, its bytes, and that mark.
#[derive(Debug, Drop)]
pub struct Source {
    /// Its path below its root.
    ///
    /// A tree takes only good paths: at most 4,096 bytes, no character below U+0020, `.proto` at the end, and no
    /// component that is empty, `.` or `..`. So a good path neither begins nor ends with `/`.
    pub path: String,
    /// What the file holds: any bytes.
    pub bytes: Vec<u8>,
    /// Whether it couldn't be read: then nothing is known of what it holds, and its bytes are none.
    pub is_unread: bool,
}

impl Model for Source {
    ghost use Rattle.std.specs.String.{string_bytes};
    ghost use Rattle.source_tree.specs.Files.{SourceFile};

    ghost Value = { SourceFile };

    ghost view = { λ source. record {
      path = string_bytes source.path;
      bytes = source.bytes.items;
      is_unread = source.is_unread;
    } };
}

impl Source {
    /// The path of the file.
    pub(crate) fn path(&self) -> &str
        ensures { result.now ≡ self.now.path }
    {
        self.path.as_str()
    }

    /// What the file holds.
    pub(crate) fn bytes(&self) -> &[u8]
        ensures { result.now ≡ self.now.bytes }
    {
        self.bytes.as_slice()
    }

    /// Whether it couldn't be read.
    pub(crate) fn is_unread(&self) -> bool
        ensures { result ≡ self.now.is_unread }
    {
        self.is_unread
    }

    /// Whether its path is a good one.
    pub(crate) fn has_good_path(&self) -> bool
        ensures { IsTrue result ↔ IsGoodPath self.now.path }
    {
        is_good_path(self.path())
    }

    /// By path.
    pub(crate) fn compare_paths(&self, other: &Source) -> Ordering
        ensures { result ≡ path_cmp self.now other.now }
    {
        self.path().cmp(other.path())
    }

    /// Whether both have one path.
    pub(crate) fn has_path_of(&self, other: &Source) -> bool
        ensures { IsTrue result ↔ (self.now.path ≡ other.now.path) }
    {
        self.path() == other.path()
    }
}
