//! Files of a folder that are made at its place.

use crate::out_file::opened_with_folders;
use std::alloc::{AllocError, Global};
use std::fs::OpenOptions;
use std::io;
use std::io::Write;
use std::rt::Files;

/// A place where the files of a folder are made.
#[derive(Drop)]
pub(crate) struct FolderInPlace {
    /// Its path.
    place: String,
    /// Whether something was there.
    was_there: bool,
    /// The paths of what is made there.
    made: Vec<String>,
}

/// Makes a file where nothing is, and the folders on the way to it if one isn't there. If that fails, no file is there,
/// but one that another has made.
pub(crate) fn make_new<S: Files>(system: &S, path: &str, bytes: &[u8]) -> io::Result<()> {
    let mut how = OpenOptions::new();
    how.write(true).create_new(true);
    let mut file = opened_with_folders(system, &how, path)?;
    let done = file.write_all(bytes);
    if done.is_err() {
        let _ = system.remove_file(path);
    }
    done
}

/// Removes the folders on the way to what was at a path below a place, the last one first, as long as they are empty.
fn remove_empty<S: Files>(system: &S, place: &str, path: &str) {
    let mut below = path;
    for _ in 0..path.len() {
        let Some((folder, _)) = below.rsplit_once('/') else {
            return;
        };
        if folder.len() <= place.len() || system.remove_dir(folder).is_err() {
            return;
        }
        below = folder;
    }
}

impl FolderInPlace {
    /// The place with a path, at which nothing is made yet.
    pub(crate) fn at<S: Files>(
        system: &S,
        alloc: Global,
        path: &str,
    ) -> Result<FolderInPlace, AllocError> {
        let folder = if path.is_empty() { "." } else { path };
        Ok(FolderInPlace {
            place: String::from_str(alloc, folder)?,
            was_there: system.metadata(folder).is_ok(),
            made: Vec::new(alloc),
        })
    }

    /// Makes a file where nothing is.
    pub(crate) fn make<S: Files>(
        &mut self,
        system: &S,
        alloc: Global,
        path: &str,
        bytes: &[u8],
    ) -> Result<io::Result<()>, AllocError> {
        let mut file = String::from_str(alloc, self.place.as_str())?;
        file.push('/')?;
        file.push_str(path)?;
        self.made.reserve(1)?;
        let done = make_new(system, file.as_str(), bytes);
        if done.is_ok() {
            self.made.push(file)?;
        }
        Ok(done)
    }

    /// Removes what was made, and the folders that it was in, but not what others have made.
    pub(crate) fn leave<S: Files>(&self, system: &S) {
        for path in self.made.iter().rev() {
            let _ = system.remove_file(path.as_str());
            remove_empty(system, self.place.as_str(), path.as_str());
        }
        if !self.was_there {
            let _ = system.remove_dir(self.place.as_str());
        }
    }
}
