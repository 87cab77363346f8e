//! Files without what patterns exclude.

ghost use Rattle.std.specs.Prelude.{◌≡◌, ◌↔◌, ℕ, List, [], ◌∷◌, ◌++◌, IfOk, IsTrue, OnOk, Some, map, string_bytes};
ghost use Rattle.std.specs.Borrow.{Bor};
ghost use Rattle.source_files.specs.Exclusions.{AddsLeft, HasExcluded, IsLeftOf, IsPathExcluded, Stay, names_of};
ghost use Rattle.source_files.specs.Listings.{listing_of};

use crate::empty_folders::EmptyFolders;
use crate::entry::FolderEntry;
use crate::listing::FolderListing;
use crate::look_again::{LookAgain, PassedOver};
use crate::read_files::ReadFiles;
use crate::unread_entry::UnreadEntry;
use globs::is_excluded;
use std::alloc::{AllocError, Global};

/// The files of a system without what patterns exclude below roots: such folders aren't searched, and such files aren't
/// sources.
#[derive(Drop)]
pub struct Excluding<'a, F> {
    /// The system of files.
    pub files: &'a F,
    /// The patterns, as `is_excluded` says.
    pub patterns: &'a [String],
}

/// What has a name.
trait Named {
    // The name.
    ghost name_of: { Self → List ℕ };

    /// The name.
    fn name(&self) -> &str
        ensures { result.now ≡ name_of self.now };
}

impl Named for FolderEntry {
    ghost name_of = { λ entry. entry.name };

    fn name(&self) -> &str {
        FolderEntry::name(self)
    }
}

impl Named for UnreadEntry {
    ghost use Rattle.std.specs.Prelude.{string_bytes};

    ghost name_of = { λ entry. string_bytes entry.shown };

    fn name(&self) -> &str {
        self.shown.as_str()
    }
}

/// Adds what has a name in a folder to what is left, if it isn't excluded.
fn keep_one<N: Named + Drop>(
    alloc: Global,
    patterns: &[String],
    folder: &str,
    one: N,
    left: &mut Vec<N>,
) -> Result<(), AllocError>
    ensures { OnOk result (AddsLeft N.name_of (map string_bytes patterns.now) folder.now (one ∷ []) left.old.items
        left.new.items) }
{
    if is_excluded(alloc, patterns, folder, one.name())? {
        return Ok(());
    }
    left.push(one)?;
    Ok(())
}

/// What isn't excluded of what has names in a folder.
fn left_of<N: Named + Drop>(
    alloc: Global,
    patterns: &[String],
    folder: &str,
    all: Vec<N>,
) -> Result<Vec<N>, AllocError>
    ensures { IfOk result (λ left. Stay N.name_of (map string_bytes patterns.now) folder.now all.items left.items) }
{
    let mut left = Vec::new(alloc);
    for one in all {
        keep_one(alloc, patterns, folder, one, &mut left)?;
    }
    Ok(left)
}

/// What a folder lists that isn't excluded.
fn listing_left(
    alloc: Global,
    patterns: &[String],
    folder: &str,
    listing: FolderListing,
) -> Result<FolderListing, AllocError>
    ensures { IfOk result (λ left. IsLeftOf (map string_bytes patterns.now) folder.now
        (Some (listing_of listing)) (Some (listing_of left))) }
{
    let entries = left_of(alloc, patterns, folder, listing.entries)?;
    let unnamed = left_of(alloc, patterns, folder, listing.unnamed)?;
    Ok(FolderListing {
        entries,
        identity: listing.identity,
        unnamed,
    })
}

/// Adds a name with a `/` behind it to the path of a folder.
fn push_folder(folder: &mut String, name: &str) -> Result<(), AllocError>
    ensures { OnOk result (string_bytes folder.new ≡ string_bytes folder.old ++ (name.now ++ 47 ∷ [])) }
{
    folder.push_str(name)?;
    folder.push('/')?;
    Ok(())
}

/// The names in a path.
fn names_in(alloc: Global, path: &str) -> Result<Vec<&str>, AllocError>
    ensures { IfOk result (λ names. map (λ (name : Bor (List ℕ)). name.now) names.items ≡ names_of path.now) }
{
    path.split('/').collect(alloc)
}

/// Whether one of these names is excluded, each in the folder that those before it make.
fn has_excluded(alloc: Global, patterns: &[String], names: &[&str]) -> Result<bool, AllocError>
    ensures { IfOk result (λ yes. IsTrue yes ↔ HasExcluded (map string_bytes patterns.now) []
        (map (λ (name : Bor (List ℕ)). name.now) names.now)) }
{
    let mut folder = String::new(alloc);
    let mut rest = names;
    while let [name, others @ ..] = rest {
        if is_excluded(alloc, patterns, folder.as_str(), *name)? {
            return Ok(true);
        }
        push_folder(&mut folder, *name)?;
        rest = others;
    }
    Ok(false)
}

/// Whether the file with a path, or a folder on the way to it, is excluded.
pub fn is_path_excluded(alloc: Global, patterns: &[String], path: &str) -> Result<bool, AllocError>
    ensures { IfOk result (λ yes. IsTrue yes ↔ IsPathExcluded (map string_bytes patterns.now) path.now) }
{
    let names = names_in(alloc, path)?;
    has_excluded(alloc, patterns, &names)
}

impl<'a, F: ReadFiles> ReadFiles for Excluding<'a, F> {
    ghost use Rattle.std.specs.Prelude.{map, string_bytes};
    ghost use Rattle.source_files.specs.Exclusions.{FindsWithout, ListsWithout};

    ghost lists = { λ s. ListsWithout (F.lists s.files.now) (map string_bytes s.patterns.now) };

    ghost gives = { λ s. F.gives s.files.now };

    ghost finds = { λ s. FindsWithout (F.finds s.files.now) (map string_bytes s.patterns.now) };

    fn list_folder(
        &self,
        alloc: Global,
        root: &str,
        folder: &str,
    ) -> Result<Option<FolderListing>, AllocError> {
        match self.files.list_folder(alloc, root, folder)? {
            Some(listing) => Ok(Some(listing_left(alloc, self.patterns, folder, listing)?)),
            None => Ok(None),
        }
    }

    fn is_below(&self, alloc: Global, root: &str, path: &str) -> Result<bool, AllocError> {
        if is_path_excluded(alloc, self.patterns, path)? {
            Ok(false)
        } else {
            self.files.is_below(alloc, root, path)
        }
    }

    fn read_file(&self, alloc: Global, path: &str) -> Result<Option<Vec<u8>>, AllocError> {
        self.files.read_file(alloc, path)
    }

    fn read_source(&self, alloc: Global, path: &str) -> Result<Option<Vec<u8>>, AllocError> {
        self.files.read_source(alloc, path)
    }
}

impl<'a, F: EmptyFolders> EmptyFolders for Excluding<'a, F> {
    ghost frees = { λ s. F.frees s.files.now };

    fn is_free(&self, path: &str) -> Result<bool, AllocError> {
        self.files.is_free(path)
    }
}

// What is excluded is looked at, too, but for what is asked for.
impl<'a, F: LookAgain> LookAgain for Excluding<'a, F> {
    ghost passes = { λ s. F.passes s.files.now };

    ghost blames = { λ s. F.blames s.files.now };

    fn passed_over(&self, root: &str) -> Result<PassedOver, AllocError> {
        self.files.passed_over(root)
    }

    fn why_unread(
        &self,
        folders: &[String],
        excluded: &[String],
        path: &str,
    ) -> Result<Option<String>, AllocError> {
        self.files.why_unread(folders, excluded, path)
    }
}
