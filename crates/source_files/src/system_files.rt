//! The system's files.

ghost use Rattle.source_files.specs.SystemFiles.{IsGiven};

use crate::empty_folders::EmptyFolders;
use crate::find_files::FindFiles;
use crate::listing::FolderListing;
use crate::look_again::{LookAgain, PassedOver};
use crate::read_files::ReadFiles;
use crate::reading::path_below;
use crate::second_look::{SecondLook, why_unread};
use crate::system_folders::entries_of;
use proto_lex::MAX_TEXT_LENGTH;
use source_tree::read_source;
use std::alloc::{AllocError, Global};
use std::fs::{File, OpenFile};
use std::io::{Error, ErrorKind, Read};
use std::rt::Files;
use std::{fs, io};
use streams::Std;

/// The most bytes of a file that is read whole: those that an index may have.
const MOST_BYTES: u64 = 2_147_483_647;

/// One byte more than a source may have: by these it is known to be too long, and no more are read.
const MOST_OF_SOURCE: u64 = MAX_TEXT_LENGTH as u64 + 1;

/// The system's files. Nothing is known of what they hold. One of more than `MOST_BYTES` bytes can't be read whole.
#[derive(Drop)]
pub struct SystemFiles<'a, S: Files + AllocGlobal + Clone + Drop> {
    system: &'a S,
    follows: bool,
}

impl<'a, S: Files + AllocGlobal + Clone + Drop> SystemFiles<'a, S> {
    /// Those that the system opens. Below a root no link is followed.
    pub fn new(system: &'a S) -> SystemFiles<'a, S> {
        SystemFiles::following(system, false)
    }

    /// Those that the system opens. Below a root links are followed, or not.
    pub fn following(system: &'a S, follows: bool) -> SystemFiles<'a, S> {
        SystemFiles { system, follows }
    }
}

/// What the system gave, or none if it refused for another reason than lack of memory.
pub(crate) fn given<T: Drop>(answer: io::Result<T>) -> Result<Option<T>, AllocError>
    ensures { IsGiven answer result }
{
    match answer {
        Ok(value) => Ok(Some(value)),
        Err(error) => {
            if error.kind() == ErrorKind::OutOfMemory {
                Err(AllocError)
            } else {
                Ok(None)
            }
        }
    }
}

/// The bytes of the file with a path, if it hasn't too many: of a regular file, that is seen before it is read.
fn whole_file<S: Files + AllocGlobal>(system: &S, path: &str) -> io::Result<Vec<u8>> {
    let file = File::open(system, path)?;
    let there = file.metadata()?;
    if there.is_file() && there.len() > MOST_BYTES {
        return Err(Error::from(ErrorKind::FileTooLarge));
    }
    let mut bytes = Vec::new(system.alloc());
    file.take(MOST_BYTES + 1).read_to_end(&mut bytes)?;
    if bytes.len() as u64 > MOST_BYTES {
        return Err(Error::from(ErrorKind::FileTooLarge));
    }
    Ok(bytes)
}

impl<'a, S: Files + AllocGlobal + Clone + Drop> ReadFiles for SystemFiles<'a, S> {
    ghost use Rattle.std.specs.Prelude.{⊤};

    ghost lists = { λ _ _ _ _. ⊤ };

    ghost gives = { λ _ _ _. ⊤ };

    ghost finds = { λ _ _ _ _. ⊤ };

    fn list_folder(
        &self,
        _alloc: Global,
        root: &str,
        folder: &str,
    ) -> Result<Option<FolderListing>, AllocError> {
        given(entries_of(self.system, self.follows, root, folder))
    }

    fn is_below(&self, alloc: Global, root: &str, path: &str) -> Result<bool, AllocError> {
        let below = path_below(alloc, root, path)?;
        match fs::metadata(self.system, below.as_str()) {
            Err(error) if error.kind() == ErrorKind::PermissionDenied => Ok(true),
            answer => match given(answer)? {
                Some(there) => Ok(there.is_file()),
                None => Ok(false),
            },
        }
    }

    fn read_file(&self, _alloc: Global, path: &str) -> Result<Option<Vec<u8>>, AllocError> {
        given(whole_file(self.system, path))
    }

    fn read_source(&self, alloc: Global, path: &str) -> Result<Option<Vec<u8>>, AllocError> {
        match given(File::open(self.system, path))? {
            Some(file) => read_source(alloc, &mut Std::new(file.take(MOST_OF_SOURCE))),
            None => Ok(None),
        }
    }
}

/// Whether a folder has no entries.
fn has_no_entries<S: Files + AllocGlobal + Clone + Drop>(
    system: &S,
    path: &str,
) -> io::Result<bool> {
    match fs::read_dir(system, path)?.next() {
        None => Ok(true),
        Some(Ok(_)) => Ok(false),
        Some(Err(error)) => Err(error),
    }
}

impl<'a, S: Files + AllocGlobal + Clone + Drop> EmptyFolders for SystemFiles<'a, S> {
    ghost use Rattle.std.specs.Prelude.{⊤};

    ghost frees = { λ _ _ _. ⊤ };

    fn is_free(&self, path: &str) -> Result<bool, AllocError> {
        let folder = if path.is_empty() { "." } else { path };
        match has_no_entries(self.system, folder) {
            Err(error) if error.kind() == ErrorKind::NotFound => Ok(true),
            answer => Ok(given(answer)? == Some(true)),
        }
    }
}

impl<'a, S: Files + AllocGlobal + Clone + Drop> FindFiles for SystemFiles<'a, S> {
    ghost use Rattle.std.specs.Prelude.{⊤};

    ghost finds = { λ _ _ _. ⊤ };

    fn is_there(&self, path: &str) -> Result<bool, AllocError> {
        match given(fs::metadata(self.system, path))? {
            Some(there) => Ok(there.is_file()),
            None => Ok(false),
        }
    }
}

impl<'a, S: Files + AllocGlobal + Clone + Drop> LookAgain for SystemFiles<'a, S> {
    ghost use Rattle.std.specs.Prelude.{⊤};

    ghost passes = { λ _ _ _. ⊤ };

    ghost blames = { λ _ _ _ _ _. ⊤ };

    fn passed_over(&self, root: &str) -> Result<PassedOver, AllocError> {
        Ok(SecondLook::below(self.system, self.system.alloc(), self.follows, root, &[])?.passed)
    }

    fn why_unread(
        &self,
        folders: &[String],
        excluded: &[String],
        path: &str,
    ) -> Result<Option<String>, AllocError> {
        why_unread(
            self.system,
            self.system.alloc(),
            self.follows,
            folders,
            excluded,
            path,
        )
    }
}
