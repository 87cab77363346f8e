//! Files with a root that has the well-known files alone.

ghost use Rattle.std.specs.Prelude.{◌≡◌, ◌≢◌, ◌∷◌, [], ◌↔◌, All, IfOk, IsTrue, None, Some, map, string_bytes};
ghost use Rattle.std.specs.Option.{option_map};
ghost use Rattle.source_files.specs.Listings.{listing_of};
ghost use Rattle.source_files.specs.WellKnown.{FindsKnown, IsKnownPath, ListsKnown, with_folder, without_entries};

use crate::empty_folders::EmptyFolders;
use crate::entry::FolderEntry;
use crate::listing::FolderListing;
use crate::look_again::{LookAgain, PassedOver};
use crate::read_files::ReadFiles;
use std::alloc::{AllocError, Global};

/// The folder of the well-known files.
const KNOWN_FOLDER: &str = "google/protobuf/";

/// The files of a system. Of one root it shows the well-known files alone, `google/protobuf/*.proto`.
#[derive(Drop)]
pub struct WithWellKnown<'a, F> {
    /// The system of files.
    pub files: &'a F,
    /// The system of files that lists the well-known ones, as one that follows links.
    pub linked: &'a F,
    /// The root, if there is one.
    pub known: Option<&'a str>,
}

/// A folder without entries.
fn no_entries(alloc: Global) -> FolderListing
    ensures { listing_of result ≡ without_entries }
{
    FolderListing {
        entries: Vec::new(alloc),
        identity: None,
        unnamed: Vec::new(alloc),
    }
}

/// A folder in which is this one alone.
fn folder_alone(alloc: Global, name: &str) -> Result<FolderListing, AllocError>
    ensures { IfOk result (λ listing. listing_of listing ≡ with_folder name.now) }
{
    let name = String::from_str(alloc, name)?;
    let mut listing = no_entries(alloc);
    listing.entries.push(FolderEntry {
        name,
        is_file: false,
    })?;
    Ok(listing)
}

/// The entries of a folder below the root with the well-known files.
fn list_known<F: ReadFiles>(
    alloc: Global,
    files: &F,
    root: &str,
    folder: &str,
) -> Result<Option<FolderListing>, AllocError>
    ensures { IfOk result (λ listed. ListsKnown (F.lists files.now root.now) folder.now
        (option_map listing_of listed)) }
{
    match folder {
        "" => Ok(Some(folder_alone(alloc, "google")?)),
        "google/" => Ok(Some(folder_alone(alloc, "protobuf")?)),
        "google/protobuf/" => files.list_folder(alloc, root, folder),
        _ => Ok(Some(no_entries(alloc))),
    }
}

/// Whether this is the path of a well-known file: `google/protobuf/` and a name.
fn is_well_known(path: &str) -> bool
    ensures { IsTrue result ↔ IsKnownPath path.now }
{
    match path.strip_prefix(KNOWN_FOLDER) {
        Some(name) => has_no_slash(name),
        None => false,
    }
}

/// Whether a name has no `/`.
fn has_no_slash(name: &str) -> bool
    ensures { IsTrue result ↔ All (λ byte. byte ≢ 47) name.now }
{
    name.as_bytes().iter().all(|byte| *byte != b'/')
}

/// Whether a file with a path is below the root with the well-known files.
fn find_known<F: ReadFiles>(
    alloc: Global,
    files: &F,
    root: &str,
    path: &str,
) -> Result<bool, AllocError>
    ensures { IfOk result (FindsKnown (F.finds files.now root.now) path.now) }
{
    if is_well_known(path) {
        files.is_below(alloc, root, path)
    } else {
        Ok(false)
    }
}

impl<'a, F> WithWellKnown<'a, F> {
    /// Whether this is the root with the well-known files.
    fn is_known(&self, root: &str) -> bool
        ensures { IsTrue result ↔ (option_map (λ known. known.now) self.now.known ≡ Some root.now) }
    {
        match self.known {
            Some(known) => known == root,
            None => false,
        }
    }
}

impl<'a, F: ReadFiles> ReadFiles for WithWellKnown<'a, F> {
    ghost use Rattle.std.specs.Prelude.{option_map};
    ghost use Rattle.source_files.specs.WellKnown.{FindsBeside, ListsBeside};

    ghost lists = { λ s. ListsBeside (F.lists s.files.now) (F.lists s.linked.now)
        (option_map (λ known. known.now) s.known) };

    ghost gives = { λ s. F.gives s.files.now };

    ghost finds = { λ s. FindsBeside (F.finds s.files.now) (F.finds s.linked.now)
        (option_map (λ known. known.now) s.known) };

    fn list_folder(
        &self,
        alloc: Global,
        root: &str,
        folder: &str,
    ) -> Result<Option<FolderListing>, AllocError> {
        if self.is_known(root) {
            list_known(alloc, self.linked, root, folder)
        } else {
            self.files.list_folder(alloc, root, folder)
        }
    }

    fn is_below(&self, alloc: Global, root: &str, path: &str) -> Result<bool, AllocError> {
        if !self.is_known(root) {
            return self.files.is_below(alloc, root, path);
        }
        find_known(alloc, self.linked, root, path)
    }

    fn read_file(&self, alloc: Global, path: &str) -> Result<Option<Vec<u8>>, AllocError> {
        self.files.read_file(alloc, path)
    }

    fn read_source(&self, alloc: Global, path: &str) -> Result<Option<Vec<u8>>, AllocError> {
        self.files.read_source(alloc, path)
    }
}

impl<'a, F: EmptyFolders> EmptyFolders for WithWellKnown<'a, F> {
    ghost frees = { λ s. F.frees s.files.now };

    fn is_free(&self, path: &str) -> Result<bool, AllocError> {
        self.files.is_free(path)
    }
}

// All is looked at below the root with the well-known files, too.
impl<'a, F: LookAgain> LookAgain for WithWellKnown<'a, F> {
    ghost passes = { λ s. F.passes s.files.now };

    ghost blames = { λ s. F.blames s.files.now };

    fn passed_over(&self, root: &str) -> Result<PassedOver, AllocError> {
        self.files.passed_over(root)
    }

    fn why_unread(
        &self,
        folders: &[String],
        excluded: &[String],
        path: &str,
    ) -> Result<Option<String>, AllocError> {
        self.files.why_unread(folders, excluded, path)
    }
}
