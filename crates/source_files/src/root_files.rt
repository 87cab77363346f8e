//! What is read below a root.

use crate::unread_entry::UnreadEntry;
use source_tree::Source;
use std::marker::Model;

/// What is read below a root.
///
/// Contracts see its files, and what is left out.
#[derive(Debug, Drop)]
pub struct RootFiles {
    /// The sources, by path; those that are left out without what they hold.
    pub files: Vec<Source>,
    /// What is left out since it can't be read, by its path below the root, be it a source or not.
    pub unread: Vec<UnreadEntry>,
}

impl Model for RootFiles {
    ghost use Rattle.std.specs.Prelude.{map};
    ghost use Rattle.source_files.specs.Roots.{FilesBelow};
    ghost use Rattle.source_files.specs.Unread.{unread_of};

    ghost Value = { FilesBelow };

    ghost view = { λ below. record { files = below.files.items; unread = map unread_of below.unread.items } };
}
