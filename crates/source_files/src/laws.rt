//! Laws about what is listed and read below roots, each the contract of an empty function.

ghost use Rattle.source_files.specs.RootLaws.{WholeRoots};
ghost use Rattle.source_files.specs.WalkLaws.{ListedStayBelow, OneListing, PlainListing};

use crate::read_files::ReadFiles;

/// What is listed below a root has a path of names that doesn't leave the root, and whose last name ends in `.proto`.
pub fn listed_paths_stay_below<F: ReadFiles>(files: &F)
    ensures { ListedStayBelow (F.lists files.now) }
{}

/// If each folder has one listing at most, what is listed below a root is one list at most.
pub fn roots_have_one_listing<F: ReadFiles>(files: &F)
    ensures { OneListing (F.lists files.now) }
{}

/// If no folder says which it is, what is listed below a root is found folder by folder.
pub fn unknown_folders_are_listed_plainly<F: ReadFiles>(files: &F)
    ensures { PlainListing (F.lists files.now) }
{}

/// Where nothing was left out below a root, its files are the same whether what can't be read is to be left out or not.
pub fn whole_roots_are_alike<F: ReadFiles>(files: &F)
    ensures { WholeRoots (F.lists files.now) (F.gives files.now) }
{}
