//! The file that an index goes to, and files that are made whole.

ghost use Rattle.std.specs.Prelude.{◌≡◌};

use crate::cause::{Blamed, Cause, Caused};
use crate::folder_place::FolderPlace;
use crate::make_files::MakeFiles;
use crate::out_folder::OutFolder;
use crate::out_part::OutPart;
use crate::out_place::OutPlace;
use crate::out_way::Way;
use crate::system_files::given;
use crate::system_stream::cause_in;
use std::alloc::{AllocError, Global};
use std::cell::Cell;
use std::fs::{Metadata, OpenOptions};
use std::io::{ErrorKind, Write};
use std::os::unix::fs::MetadataExt;
use std::rt::Files;
use std::{fs, io};
use streams::Failed;

/// The place of the file with a path. What it holds isn't known, nor what is made by other paths.
///
/// A regular file, and one that isn't there, is written beside its place and then moved there. A link to a regular
/// file stays a link. What is there keeps its owner, its group and its mode. In place are written: what is no regular
/// file; what can't be moved there, for want of rights to its folder, or since it is a file system of its own.
#[derive(Drop)]
pub struct OutFile<'a, S: Files> {
    system: &'a S,
    path: &'a str,
    follows: bool,
    syncs: bool,
    refusals: u64,
    cause: Cell<Option<Cause>>,
}

impl<'a, S: Files> OutFile<'a, S> {
    /// The place of the file with a path. No source is read through a link.
    pub fn new(system: &'a S, path: &'a str) -> OutFile<'a, S>
        ensures { result.refusals ≡ 0 }
    {
        OutFile::following(system, path, false)
    }

    /// The place of the file with a path. If `follows`, sources are read through links, too. Then each file may be one,
    /// whatever its name is.
    pub fn following(system: &'a S, path: &'a str, follows: bool) -> OutFile<'a, S>
        ensures { result.refusals ≡ 0 }
    {
        OutFile {
            system,
            path,
            follows,
            syncs: false,
            refusals: 0,
            cause: Cell::new(None),
        }
    }

    /// The same place. If `syncs`, the disk has what is put there, and the entry of its folder, before it is said to be
    /// put (POSIX, `fsync`). Files that are made, and folders, aren't waited for.
    pub fn syncing(self, syncs: bool) -> OutFile<'a, S>
        ensures { result.refusals ≡ self.entry.refusals }
    {
        OutFile { syncs, ..self }
    }
}

/// Whether a path may be that of a source, also in a file system to which small and capital letters are alike.
fn may_name_source(path: &str) -> bool {
    let bytes = path.as_bytes();
    match bytes.split_last_chunk::<6>() {
        Some((_, ending)) => ending.eq_ignore_ascii_case(b".proto"),
        None => false,
    }
}

/// Whether two are one file.
pub(crate) fn are_one(one: &Metadata, other: &Metadata) -> bool {
    one.dev() == other.dev() && one.ino() == other.ino()
}

/// The folder that a path names something in, and the name.
fn folder_and_name(path: &str) -> (&str, &str) {
    match path.rsplit_once('/') {
        Some(("", name)) => ("/", name),
        Some(parts) => parts,
        None => (".", path),
    }
}

/// Whether two paths, where nothing is yet, name one file: they have one name in one folder.
fn would_be_one<S: Files>(system: &S, one: &str, other: &str) -> bool {
    let (folder, name) = folder_and_name(one);
    let (other_folder, other_name) = folder_and_name(other);
    if name != other_name {
        return false;
    }
    match (system.metadata(folder), system.metadata(other_folder)) {
        (Ok(there), Ok(other)) => are_one(&there, &other),
        _ => false,
    }
}

impl<'a, S: Files> OutPlace for OutFile<'a, S> {
    ghost use Rattle.std.specs.Prelude.{None, ⊤};

    type Part = OutPart<'a, S>;

    ghost holds = { λ _. None };

    ghost same = { λ _ _ _. ⊤ };

    ghost suspects = { λ _ _. ⊤ };

    ghost refuses = { λ _ _. ⊤ };

    ghost gives_up = { λ _ _. ⊤ };

    fn may_be_source(&self) -> bool {
        match self.system.symlink_metadata(self.path) {
            Ok(there) if there.is_file() => {
                self.follows || there.nlink() > 1 || may_name_source(self.path)
            }
            Ok(there) => there.is_symlink(),
            Err(_) => false,
        }
    }

    fn is_file(&self, path: &str) -> bool {
        match (self.system.metadata(self.path), self.system.metadata(path)) {
            (Ok(there), Ok(file)) => are_one(&there, &file),
            (Err(_), Err(_)) => would_be_one(self.system, self.path, path),
            _ => false,
        }
    }

    fn begin(&self, alloc: Global) -> Result<OutPart<'a, S>, AllocError> {
        let way = Way::to(self.system, alloc, self.path)?;
        Ok(OutPart::new(self.system, self.path, way, self.syncs))
    }

    fn put(&mut self, part: OutPart<'a, S>) -> Result<(), Failed> {
        let mut part = part;
        let done = part.finish();
        self.cause.set(cause_in(&done));
        if done.is_err() {
            part.leave();
        }
        done.map_err(|_| Failed)
    }

    fn leave(&self, part: OutPart<'a, S>) {
        self.cause.set(part.cause());
        part.leave();
    }
}

impl<'a, S: Files> FolderPlace for OutFile<'a, S> {
    ghost use Rattle.std.specs.Prelude.{None, ⊤};

    type Folder = OutFolder<'a, S>;

    ghost filed = { λ _ _. None };

    ghost refuses_folder = { λ _ _ _. ⊤ };

    ghost gives_up_folder = { λ _ _. ⊤ };

    fn begin_folder(&self, alloc: Global, path: &str) -> Result<OutFolder<'a, S>, AllocError> {
        OutFolder::begin(self.system, alloc, path)
    }

    fn put_folder(&mut self, _path: &str, folder: OutFolder<'a, S>) -> Result<(), Failed> {
        let done = folder.finish();
        self.cause.set(cause_in(&done));
        if done.is_err() {
            folder.leave();
        }
        done.map_err(|_| Failed)
    }

    fn leave_folder(&self, folder: OutFolder<'a, S>) {
        self.cause.set(folder.cause());
        folder.leave();
    }
}

/// A folder that is there already is made.
fn unless_there(made: io::Result<()>) -> io::Result<()> {
    match made {
        Err(error) if error.kind() == ErrorKind::AlreadyExists => Ok(()),
        answer => answer,
    }
}

/// Makes a folder, and those on the way to it that aren't there, at most `room`. Begins with the folder itself, since
/// most of the way is there mostly.
fn make_folder<S: Files>(system: &S, folder: &str, room: usize) -> io::Result<()> {
    if folder.is_empty() {
        return Ok(());
    }
    match (
        unless_there(fs::create_dir(system, folder)),
        folder.rsplit_once('/'),
    ) {
        (Err(error), Some((above, _))) if room > 0 && error.kind() != ErrorKind::OutOfMemory => {
            make_folder(system, above, room - 1)?;
            unless_there(fs::create_dir(system, folder))
        }
        (answer, _) => answer,
    }
}

/// Makes the folders on the way to a file.
fn make_folders<S: Files>(system: &S, path: &str) -> io::Result<()> {
    match path.rsplit_once('/') {
        Some((folder, _)) => make_folder(system, folder, folder.len()),
        None => Ok(()),
    }
}

/// Opens a file in this way, and makes the folders on the way to it if one isn't there.
pub(crate) fn opened_with_folders<S: Files>(
    system: &S,
    how: &OpenOptions,
    path: &str,
) -> io::Result<S::File> {
    match how.open(system, path) {
        Err(error) if error.kind() == ErrorKind::NotFound => {
            make_folders(system, path)?;
            how.open(system, path)
        }
        answer => answer,
    }
}

/// Makes a file, and the folders on the way to it if one isn't there. What is there already is replaced.
fn make_whole<S: Files>(system: &S, path: &str, bytes: &[u8]) -> io::Result<()> {
    let mut how = OpenOptions::new();
    how.write(true).create(true).truncate(true);
    opened_with_folders(system, &how, path)?.write_all(bytes)
}

impl<'a, S: Files> MakeFiles for OutFile<'a, S> {
    ghost use Rattle.std.specs.Prelude.{None};

    ghost made = { λ s. record { files = None; refusals = s.refusals } };

    fn make_file(&mut self, path: &str, bytes: &[u8]) -> Result<bool, AllocError> {
        let made = make_whole(self.system, path, bytes);
        let cause = cause_in(&made);
        let is_made = given(made)?.is_some();
        self.cause.set(cause);
        if is_made {
            return Ok(true);
        }
        self.refusals = self.refusals.saturating_add(1);
        Ok(false)
    }
}

impl<'a, S: Files> Blamed for OutFile<'a, S> {
    ghost use Rattle.std.specs.Prelude.{⊤};

    ghost reasons = { λ _ _. ⊤ };

    fn reason(&self) -> Option<Cause> {
        self.cause.get()
    }
}
