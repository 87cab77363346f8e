//! What files are read by.

ghost use Rattle.std.specs.Prelude.{ℕ, Bool, List, Option, IfOk};
ghost use Rattle.std.specs.Option.{option_map};
ghost use Rattle.source_files.specs.Listings.{Listing, listing_of};
ghost use Rattle.source_files.specs.Source.{MayKeep};

use crate::listing::FolderListing;
use std::alloc::{AllocError, Global};

/// Lists the folders below roots, finds files there by their paths, and reads files.
///
/// A file or a folder can't be read if there is none, or the system doesn't open it, or a read of it fails.
pub trait ReadFiles {
    // What listing a folder below a root may give: what it lists, or none.
    ghost lists: { Self → List ℕ → List ℕ → Option Listing → Type 0 };

    // What reading the file with a path may give: its bytes, or none.
    ghost gives: { Self → List ℕ → Option (List ℕ) → Type 0 };

    // What asking whether a regular file with a path is below a root may answer.
    ghost finds: { Self → List ℕ → List ℕ → Bool → Type 0 };

    /// The entries of a folder. None if it can't be read.
    ///
    /// The folder is the root itself if its path below the root is empty; else this ends in `/`. A root may be a link
    /// to a folder, and can't be read if it is neither. Below it what is no folder has no entries. All regular files
    /// whose names end in `.proto` are said to be files. Others may be left out, as may links, or all links are
    /// followed, and each folder then has its identity.
    fn list_folder(
        &self,
        alloc: Global,
        root: &str,
        folder: &str,
    ) -> Result<Option<FolderListing>, AllocError>
        ensures { IfOk result (λ listed. lists self.now root.now folder.now (option_map listing_of listed)) };

    /// Whether a regular file with a path is below a root, or a link there leads to one. False of what the system
    /// doesn't find; true where it doesn't let one look: then there may be one, and it can't be read. It may be that
    /// listing the folders below the root doesn't show it, since it is behind a link.
    fn is_below(&self, alloc: Global, root: &str, path: &str) -> Result<bool, AllocError>
        ensures { IfOk result (λ there. finds self.now root.now path.now there) };

    /// The bytes of the file with a path. None if it can't be read.
    fn read_file(&self, alloc: Global, path: &str) -> Result<Option<Vec<u8>>, AllocError>
        ensures { IfOk result (λ read. gives self.now path.now (option_map (λ bytes. bytes.items) read)) };

    /// The bytes of the source with a path, up to one more than a text may have. None if it can't be read.
    fn read_source(&self, alloc: Global, path: &str) -> Result<Option<Vec<u8>>, AllocError>
        ensures { IfOk result (λ read. MayKeep (gives self.now path.now) (option_map (λ bytes. bytes.items) read)) };
}
