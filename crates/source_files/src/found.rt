//! What the entries of a folder give.

ghost use Rattle.std.specs.Prelude.{◌≡◌, ◌≢◌, ◌↔◌, ◌++◌, [], ◌∷◌, All, IfOk, IsTrue, OnOk, Some, None};
ghost use Rattle.std.specs.Prelude.{map, string_bytes};
ghost use Rattle.source_files.specs.Entries.{Give, IsFolder, IsName, IsSource};
ghost use Rattle.source_files.specs.Listings.{listing_of};
ghost use Rattle.source_files.specs.Unread.{at_path, in_folder, unread_of};
ghost use Rattle.source_files.specs.Walks.{Has, Holds};
ghost use Rattle.source_files.specs.WalkSteps.{AddsEntries, had_of};

use crate::entry::{ENDING, FolderEntry};
use crate::listing::{FolderIdentity, FolderListing};
use crate::read_files::ReadFiles;
use crate::unread_entry::{UnreadEntry, entry_at, entry_in};
use std::alloc::{AllocError, Global};

/// What a folder has, by paths below the root.
#[derive(Drop)]
pub(crate) struct Found {
    /// What may be folders, each with a `/` at its end.
    pub(crate) folders: Vec<String>,
    /// The sources.
    pub(crate) paths: Vec<String>,
    /// What can't be read.
    pub(crate) unread: Vec<UnreadEntry>,
    /// Which folder it is.
    pub(crate) identity: Option<FolderIdentity>,
}

/// Whether a name has no `/`.
fn is_whole(name: &str) -> bool
    ensures { IsTrue result ↔ All (λ byte. byte ≢ 47) name.now }
{
    name.as_bytes().iter().all(|byte| *byte != b'/')
}

/// Whether a path may have this between its `/`.
fn is_name(name: &str) -> bool
    ensures { IsTrue result ↔ IsName name.now }
{
    !matches!(name, "" | "." | "..") && is_whole(name)
}

/// Whether an entry is a source.
fn is_source(entry: &FolderEntry) -> bool
    ensures { IsTrue result ↔ IsSource entry.now }
{
    entry.is_file && is_name(entry.name()) && entry.name().ends_with(ENDING)
}

/// Whether an entry may be a folder.
fn is_folder(entry: &FolderEntry) -> bool
    ensures { IsTrue result ↔ IsFolder entry.now }
{
    !entry.is_file && is_name(entry.name())
}

/// The path of an entry of a folder.
pub(crate) fn path_in(alloc: Global, folder: &str, name: &str) -> Result<String, AllocError>
    ensures { IfOk result (λ path. string_bytes path ≡ folder.now ++ name.now) }
{
    let mut path = String::from_str(alloc, folder)?;
    path.push_str(name)?;
    Ok(path)
}

/// The path of a folder in a folder.
fn folder_in(alloc: Global, folder: &str, name: &str) -> Result<String, AllocError>
    ensures { IfOk result (λ path. string_bytes path ≡ folder.now ++ (name.now ++ 47 ∷ [])) }
{
    let mut path = path_in(alloc, folder, name)?;
    path.push('/')?;
    Ok(path)
}

/// Adds what an entry of a folder gives.
fn add_entry(
    alloc: Global,
    folder: &str,
    entry: &FolderEntry,
    folders: &mut Vec<String>,
    paths: &mut Vec<String>,
) -> Result<(), AllocError>
    ensures { OnOk result (AddsEntries folder.now (entry.now ∷ [])
        (map string_bytes folders.old.items) (map string_bytes folders.new.items)
        (map string_bytes paths.old.items) (map string_bytes paths.new.items)) }
{
    if is_source(entry) {
        paths.push(path_in(alloc, folder, entry.name())?)?;
    } else if is_folder(entry) {
        folders.push(folder_in(alloc, folder, entry.name())?)?;
    }
    Ok(())
}

/// What the entries of a folder give: folders, and the sources.
fn found_in(
    alloc: Global,
    folder: &str,
    entries: &[FolderEntry],
) -> Result<(Vec<String>, Vec<String>), AllocError>
    ensures { IfOk result (λ found. Give folder.now entries.now
        (map string_bytes found.0.items) (map string_bytes found.1.items)) }
{
    let mut folders = Vec::new(alloc);
    let mut paths = Vec::new(alloc);
    for entry in entries {
        add_entry(alloc, folder, entry, &mut folders, &mut paths)?;
    }
    Ok((folders, paths))
}

/// What has these names in a folder.
fn entries_in(
    alloc: Global,
    folder: &str,
    names: &[UnreadEntry],
) -> Result<Vec<UnreadEntry>, AllocError>
    ensures { IfOk result (λ entries. map unread_of entries.items
        ≡ map (λ named. in_folder folder.now (unread_of named)) names.now) }
{
    let mut entries = Vec::new(alloc);
    for named in names {
        entries.push(entry_in(alloc, folder, named)?)?;
    }
    Ok(entries)
}

/// What is found by listing a folder.
fn found_by(alloc: Global, folder: &str, listing: &FolderListing) -> Result<Found, AllocError>
    ensures { IfOk result (λ found. Holds folder.now (Some (listing_of listing.now)) (had_of found)) }
{
    let found = found_in(alloc, folder, &listing.entries)?;
    let unread = entries_in(alloc, folder, &listing.unnamed)?;
    Ok(Found {
        folders: found.0,
        paths: found.1,
        unread,
        identity: listing.identity,
    })
}

/// What has a path alone.
fn one_entry(alloc: Global, path: &str) -> Result<Vec<UnreadEntry>, AllocError>
    ensures { IfOk result (λ entries. map unread_of entries.items ≡ at_path path.now ∷ []) }
{
    let mut entries = Vec::new(alloc);
    entries.push(entry_at(alloc, path)?)?;
    Ok(entries)
}

/// What is found of a folder that can't be listed.
fn found_unlisted(alloc: Global, folder: &str) -> Result<Found, AllocError>
    ensures { IfOk result (λ found. Holds folder.now None (had_of found)) }
{
    let folders = Vec::new(alloc);
    let paths = Vec::new(alloc);
    let unread = one_entry(alloc, folder)?;
    Ok(Found {
        folders,
        paths,
        unread,
        identity: None,
    })
}

/// What a folder below a root has. Its path is empty for the root itself, and else ends in `/`.
pub(crate) fn list_one<F: ReadFiles>(
    alloc: Global,
    files: &F,
    root: &str,
    folder: &str,
) -> Result<Found, AllocError>
    ensures { IfOk result (λ found. Has (F.lists files.now root.now) folder.now (had_of found)) }
{
    match files.list_folder(alloc, root, folder)? {
        Some(listing) => found_by(alloc, folder, &listing),
        None => found_unlisted(alloc, folder),
    }
}
