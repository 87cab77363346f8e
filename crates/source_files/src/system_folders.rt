//! The entries of the system's folders.

use crate::entry::{ENDING, FolderEntry};
use crate::found::path_in;
use crate::listing::{FolderIdentity, FolderListing};
use crate::reading::path_below;
use crate::second_look::push_name;
use crate::unread_entry::UnreadEntry;
use std::alloc::{AllocError, Global};
use std::fs::{FileType, Metadata};
use std::io::{Error, ErrorKind};
use std::os::unix::fs::MetadataExt;
use std::rt::Files;
use std::{fs, io};
use streams::read_again;

/// So many bytes of a folder's names are read at once.
const NAMES_LENGTH: usize = 16_384;

/// What comes before the names of a folder's entries in their paths, whether links are followed, and what is listed so
/// far.
#[derive(Drop)]
struct Listing {
    front: String,
    follows: bool,
    listed: FolderListing,
}

/// What comes before the names of the entries of a folder below a root: for the system a path, with a `/` at its end.
pub(crate) fn front_of(alloc: Global, root: &str, folder: &str) -> Result<String, AllocError> {
    let mut front = String::from_str(alloc, root)?;
    if !root.is_empty() && !root.ends_with('/') {
        front.push('/')?;
    }
    front.push_str(folder)?;
    Ok(front)
}

/// Whether this is said of what is no folder: of a file, or of a link, also one to a folder.
fn is_of_no_folder(error: &Error) -> bool {
    matches!(
        error.kind(),
        ErrorKind::NotADirectory | ErrorKind::FilesystemLoop
    )
}

/// A name, with each byte that isn't UTF-8, and each control character, in the form `\xe9`.
pub(crate) fn shown_name(alloc: Global, name: &[u8]) -> Result<String, AllocError> {
    let mut text = String::new(alloc);
    push_name(&mut text, name)?;
    Ok(text)
}

/// What is at a path, or what the link there leads to. None if it leads nowhere: to nothing, or back to itself.
pub(crate) fn followed<S: Files>(
    system: &S,
    alloc: Global,
    path: &str,
) -> io::Result<Option<Metadata>> {
    match fs::metadata(system, path) {
        Ok(there) => Ok(Some(there)),
        Err(error) => match error.kind() {
            ErrorKind::NotFound | ErrorKind::NotADirectory => Ok(None),
            ErrorKind::FilesystemLoop if leads_back(system, alloc, path)? => Ok(None),
            _ => Err(error),
        },
    }
}

/// Whether a link isn't followed though no other is on the way to it: the system follows so many in all.
fn leads_back<S: Files>(system: &S, alloc: Global, path: &str) -> io::Result<bool> {
    let (folder, name) = match path.rsplit_once('/') {
        Some(parts) => parts,
        None => return Ok(true),
    };
    let folder = system.canonicalize(alloc, folder)?;
    let alone = path_below(alloc, folder.as_path().as_str(), name)?;
    Ok(fs::metadata(system, alone.as_str()).is_err())
}

/// What is at a path, or, if links are followed, what the link there leads to. None if it leads nowhere.
pub(crate) fn seen<S: Files>(
    system: &S,
    alloc: Global,
    follows: bool,
    path: &str,
) -> io::Result<Option<Metadata>> {
    if follows {
        followed(system, alloc, path)
    } else {
        Ok(Some(system.symlink_metadata(path)?))
    }
}

/// Whether what has a name is a file, and no folder. None if it is left out.
fn kind_by(kind: FileType, name: &str) -> Option<bool> {
    if kind.is_dir() {
        return Some(false);
    }
    let is_source = kind.is_file() && name.ends_with(ENDING);
    if is_source { Some(true) } else { None }
}

impl Listing {
    /// Adds the entries of an open folder.
    fn add_all<S: Files + AllocGlobal>(
        &mut self,
        system: &S,
        mut folder: S::Dir,
    ) -> io::Result<()> {
        let mut buffer = [0u8; NAMES_LENGTH];
        // A bound for the proof: the names end.
        for _ in 0..usize::MAX {
            let count = read_again(&mut folder, &mut buffer)?;
            if count == 0 {
                break;
            }
            self.add_names(system, &buffer[..count])?;
        }
        Ok(())
    }

    /// Adds entries, whose names each end in a NUL.
    fn add_names<S: Files + AllocGlobal>(&mut self, system: &S, names: &[u8]) -> io::Result<()> {
        for name in names.split(|byte| *byte == 0) {
            self.add_name(system, name)?;
        }
        Ok(())
    }

    /// Adds the entry with a name, but not the folder itself nor the one that it is in.
    fn add_name<S: Files + AllocGlobal>(&mut self, system: &S, name: &[u8]) -> io::Result<()> {
        match str::from_utf8(name) {
            Ok("" | "." | "..") => Ok(()),
            Ok(name) => self.add_entry(system, name),
            Err(_) => self.add_unnamed(system, name),
        }
    }

    /// Adds an entry whose name isn't UTF-8. Which folder it is in is asked where it isn't known yet.
    fn add_unnamed<S: Files + AllocGlobal>(&mut self, system: &S, name: &[u8]) -> io::Result<()> {
        let alloc = system.alloc();
        let folder = match self.listed.identity {
            Some(identity) => Some(identity),
            None => identity_of(system, self.front.as_str()).ok(),
        };
        self.listed.unnamed.push(UnreadEntry {
            shown: shown_name(alloc, name)?,
            bytes: Vec::from_slice(alloc, name)?,
            folder,
            has_bad_path: false,
        })?;
        Ok(())
    }

    /// Adds an entry, whatever it is by its kind.
    fn add_entry<S: Files + AllocGlobal>(&mut self, system: &S, name: &str) -> io::Result<()> {
        if let Some(is_file) = self.kind_of(system, name)? {
            let name = String::from_str(system.alloc(), name)?;
            self.listed.entries.push(FolderEntry { name, is_file })?;
        }
        Ok(())
    }

    /// Whether an entry is a file. None if it is left out.
    fn kind_of<S: Files + AllocGlobal>(&self, system: &S, name: &str) -> io::Result<Option<bool>> {
        if !self.follows && !name.ends_with(ENDING) {
            // Whether it is a folder is seen when it is listed.
            return Ok(Some(false));
        }
        let path = path_in(system.alloc(), self.front.as_str(), name)?;
        match seen(system, system.alloc(), self.follows, path.as_str())? {
            Some(there) => Ok(kind_by(there.file_type(), name)),
            None => Ok(None),
        }
    }
}

/// Opens the folder whose entries have this front, below the root, if links aren't followed. None if it is no folder,
/// or a link.
fn opened<S: Files>(system: &S, front: &str) -> io::Result<Option<S::Dir>> {
    match system.open_dir(front.trim_end_matches('/')) {
        Ok(folder) => Ok(Some(folder)),
        Err(error) if is_of_no_folder(&error) => Ok(None),
        Err(error) => Err(error),
    }
}

/// Which folder is at a path.
pub(crate) fn identity_of<S: Files>(system: &S, path: &str) -> io::Result<FolderIdentity> {
    let there = fs::metadata(system, path)?;
    Ok(FolderIdentity {
        device: there.dev(),
        number: there.ino(),
    })
}

impl Listing {
    /// Opens the folder. By the `/` a root that is a link is followed, and any, if links are followed.
    fn open<S: Files>(&mut self, system: &S, is_root: bool) -> io::Result<Option<S::Dir>> {
        let front = self.front.as_str();
        if self.follows {
            self.listed.identity = Some(identity_of(system, front)?);
        } else if !is_root {
            return opened(system, front);
        }
        Ok(Some(system.open_dir(front)?))
    }
}

/// The entries of a folder below a root, as `ReadFiles` says; with links followed, or not.
pub(crate) fn entries_of<S: Files + AllocGlobal>(
    system: &S,
    follows: bool,
    root: &str,
    folder: &str,
) -> io::Result<FolderListing> {
    let alloc = system.alloc();
    let mut listing = Listing {
        front: front_of(alloc, root, folder)?,
        follows,
        listed: FolderListing {
            entries: Vec::new(alloc),
            identity: None,
            unnamed: Vec::new(alloc),
        },
    };
    if let Some(open) = listing.open(system, folder.is_empty())? {
        listing.add_all(system, open)?;
    }
    Ok(listing.listed)
}
