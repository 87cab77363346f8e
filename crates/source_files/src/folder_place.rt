//! Places where folders are to be.

ghost use Rattle.std.specs.Prelude.{ℕ, List, Option, IfOk};
ghost use Rattle.source_files.specs.Made.{MadeFile};
ghost use Rattle.source_files.specs.FolderPlaces.{IsEmpty, PutsFolder};

use crate::make_files::MakeFiles;
use std::alloc::{AllocError, Global};
use streams::Failed;

/// Where folders are to be. Files are made in a folder that isn't at its place yet, and it is put there once it is
/// whole. So the place is as it was if it never is.
///
/// Some places can't be filled so: there the folder is the place itself, and what is made in it is there at once, until
/// it is given up.
pub trait FolderPlace {
    /// A folder, in which files are made, by their paths in it.
    type Folder: MakeFiles + Drop;

    // The files of the folder at the place with a path, by their paths in it and in the order in which they were made,
    // if these are known.
    ghost filed: { Self → List ℕ → Option (List MadeFile) };

    // What is known of a folder that the place with a path refuses, and of one that is told to be given up.
    ghost refuses_folder: { Self → List ℕ → Self.Folder → Type 0 };

    ghost gives_up_folder: { Self → Self.Folder → Type 0 };

    /// A folder for the place with a path, where nothing is, or an empty folder; in it nothing is made yet. The empty
    /// path is the folder where the program runs.
    fn begin_folder(&self, alloc: Global, path: &str) -> Result<Self::Folder, AllocError>
        ensures { IfOk result (λ folder. IsEmpty (Self.Folder.made folder)) };

    /// Puts a folder at the place with the path for which it was begun. `Failed`: the system refuses it, and the folder
    /// is given up.
    fn put_folder(&mut self, path: &str, folder: Self::Folder) -> Result<(), Failed>
        ensures { PutsFolder filed refuses_folder Self.Folder.made self.old self.new path.now folder result };

    /// Gives a folder up: what was made in it goes.
    fn leave_folder(&self, folder: Self::Folder)
        ensures { gives_up_folder self.now folder };
}
