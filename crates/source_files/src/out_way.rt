//! How the bytes of a file get to its place.

use crate::system_files::given;
use std::alloc::{AllocError, Global};
use std::fmt::Write;
use std::fs::{File, Metadata, OpenFile, OpenOptions, Permissions};
use std::io::{Error, ErrorKind};
use std::os::unix::fs::{MetadataExt, OpenOptionsExt, PermissionsExt};
use std::rt::Files;
use std::{fs, io};

/// The most bytes of a name that another file's name has in it: a file system's names have 255 at most.
const LONGEST: usize = 200;

/// What is behind it in the other file's name, before a number.
const MARK: &str = ".protoscip-";

/// The numbers that are tried, and how many digits they have at most.
pub(crate) const NUMBERS: u32 = 100_000;

pub(crate) const DIGITS: usize = 5;

/// Where the bytes of a file go until they are whole.
#[derive(Drop)]
pub(crate) enum Way {
    /// To the place itself.
    InPlace,
    /// To another file in its folder.
    Beside(Beside),
}

/// A file that is made beside a place, and then moved there.
#[derive(Drop)]
pub(crate) struct Beside {
    /// The path of the place.
    place: String,
    /// What is there.
    there: Option<Metadata>,
    /// What the path of the other file begins with, up to a number.
    front: String,
    /// The path of the other file.
    path: String,
}

/// Whether a path is one of the system's own links, as `/dev/stdout`: these lead to what is open.
fn is_of_system(path: &str) -> bool {
    path.starts_with("/dev/") || path.starts_with("/proc/")
}

/// Whether the system says that a folder takes no other file, or that one can't be moved to a place: it isn't allowed,
/// or the place is one of a file system of its own, or the name is too long.
fn is_closed(error: &Error) -> bool {
    matches!(
        error.kind(),
        ErrorKind::PermissionDenied
            | ErrorKind::ReadOnlyFilesystem
            | ErrorKind::InvalidFilename
            | ErrorKind::ResourceBusy
            | ErrorKind::CrossesDevices
    )
}

/// What the path of another file in the folder of a file begins with.
pub(crate) fn front_of(alloc: Global, path: &str, name: &str) -> Result<String, AllocError> {
    let mut front = String::new(alloc);
    if let Some((folder, _)) = path.rsplit_once('/') {
        front.push_str(folder)?;
        front.push('/')?;
    }
    if name.len() <= LONGEST {
        front.push('.')?;
        front.push_str(name)?;
    }
    front.push_str(MARK)?;
    Ok(front)
}

/// The disk has what was written to a file, or the entries of a folder (POSIX, `fsync`). What no disk has, as a pipe,
/// isn't waited for: the system says of it that the call means nothing there.
pub(crate) fn sync<F: OpenFile>(file: &F) -> io::Result<()> {
    match file.sync_all() {
        Err(error) if error.kind() == ErrorKind::InvalidInput => Ok(()),
        done => done,
    }
}

/// A path is the one with a front and a number.
pub(crate) fn put_number(path: &mut String, front: &str, number: u32) -> Result<(), AllocError> {
    path.clear();
    path.push_str(front)?;
    if write!(path, "{number}").is_err() {
        return Err(AllocError);
    }
    Ok(())
}

/// The way to a file that isn't there, or is a regular one.
fn way_beside(alloc: Global, path: &str, there: Option<Metadata>) -> Result<Way, AllocError> {
    let name = match path.rsplit_once('/') {
        Some((_, name)) => name,
        None => path,
    };
    if name.is_empty() {
        return Ok(Way::InPlace);
    }
    let front = front_of(alloc, path, name)?;
    let room = String::with_capacity(alloc, front.len().saturating_add(DIGITS))?;
    let place = String::from_str(alloc, path)?;
    Ok(Way::Beside(Beside {
        place,
        there,
        front,
        path: room,
    }))
}

/// The way to what a link leads to.
fn way_of_link<S: Files>(system: &S, alloc: Global, path: &str) -> Result<Way, AllocError> {
    let there = match system.metadata(path) {
        Ok(there) if there.is_file() && !is_of_system(path) => there,
        _ => return Ok(Way::InPlace),
    };
    match given(system.canonicalize(alloc, path))? {
        Some(place) => way_beside(alloc, place.as_path().as_str(), Some(there)),
        None => Ok(Way::InPlace),
    }
}

impl Way {
    /// The way to the file with a path.
    pub(crate) fn to<S: Files>(system: &S, alloc: Global, path: &str) -> Result<Way, AllocError> {
        match system.symlink_metadata(path) {
            Ok(there) if there.is_symlink() => way_of_link(system, alloc, path),
            Ok(there) if there.is_file() => way_beside(alloc, path, Some(there)),
            Err(error) if error.kind() == ErrorKind::NotFound => way_beside(alloc, path, None),
            _ => Ok(Way::InPlace),
        }
    }

    /// Makes the file that the bytes go to. If the folder takes no other file, they go to the place itself.
    pub(crate) fn make<S: Files>(&mut self, system: &S, path: &str) -> io::Result<S::File> {
        if let Way::Beside(beside) = self {
            match beside.make(system) {
                Err(error) if is_closed(&error) => {}
                made => return made,
            }
        }
        *self = Way::InPlace;
        fs::create(system, path)
    }

    /// Brings the file that was made to its place. If `syncs`, the disk has it there then.
    pub(crate) fn finish<S: Files>(&self, system: &S, syncs: bool) -> io::Result<()> {
        match self {
            Way::InPlace => Ok(()),
            Way::Beside(beside) => beside.finish(system, syncs),
        }
    }

    /// Removes the file that was made, if it isn't at its place.
    pub(crate) fn leave<S: Files>(&self, system: &S) {
        if let Way::Beside(beside) = self {
            beside.remove(system);
        }
    }
}

impl Beside {
    /// Makes the other file, if that which is there may be written. It gets its owner, its group and its mode.
    fn make<S: Files>(&mut self, system: &S) -> io::Result<S::File> {
        if self.there.is_some() {
            let _there = OpenOptions::new()
                .write(true)
                .open(system, self.place.as_str())?;
        }
        let file = self.make_free(system)?;
        match self.take_after(system, &file) {
            Ok(()) => Ok(file),
            Err(_) => {
                self.remove(system);
                Err(Error::from(ErrorKind::PermissionDenied))
            }
        }
    }

    /// Makes a file with the first number with which there is none.
    fn make_free<S: Files>(&mut self, system: &S) -> io::Result<S::File> {
        for number in 0..NUMBERS {
            put_number(&mut self.path, self.front.as_str(), number)?;
            match self.make_new(system) {
                Err(error) if error.kind() == ErrorKind::AlreadyExists => {}
                made => return made,
            }
        }
        Err(Error::from(ErrorKind::AlreadyExists))
    }

    /// Makes it where nothing is. Nobody may do more with it than with what is there.
    fn make_new<S: Files>(&self, system: &S) -> io::Result<S::File> {
        let mode = match &self.there {
            Some(there) => there.mode() & 0o777,
            None => 0o666,
        };
        OpenOptions::new()
            .write(true)
            .create_new(true)
            .mode(mode)
            .open(system, self.path.as_str())
    }

    /// Gives it the owner, the group and the mode of what is there.
    fn take_after<S: Files>(&self, system: &S, file: &S::File) -> io::Result<()> {
        let Some(there) = &self.there else {
            return Ok(());
        };
        let made = file.metadata()?;
        if made.uid() != there.uid() || made.gid() != there.gid() {
            system.lchown(self.path.as_str(), Some(there.uid()), Some(there.gid()))?;
        }
        if made.mode() != there.mode() {
            file.set_permissions(Permissions::from_mode(there.mode()))?;
        }
        Ok(())
    }

    /// Moves it to the place. If that isn't allowed, the bytes are written there.
    fn finish<S: Files>(&self, system: &S, syncs: bool) -> io::Result<()> {
        match system.rename(self.path.as_str(), self.place.as_str()) {
            Err(error) if self.there.is_some() && is_closed(&error) => self.copy(system, syncs),
            Ok(()) if syncs => self.sync_folder(system),
            moved => moved,
        }
    }

    /// The disk has the entries of the folder that the place is in.
    fn sync_folder<S: Files>(&self, system: &S) -> io::Result<()> {
        let folder = match self.place.rsplit_once('/') {
            Some(("", _)) => "/",
            Some((folder, _)) => folder,
            None => ".",
        };
        sync(&File::open(system, folder)?)
    }

    /// Writes its bytes to what is there.
    fn copy<S: Files>(&self, system: &S, syncs: bool) -> io::Result<()> {
        let mut made = File::open(system, self.path.as_str())?;
        let mut there = fs::create(system, self.place.as_str())?;
        io::copy(&mut made, &mut there)?;
        if syncs {
            sync(&there)?;
        }
        self.remove(system);
        Ok(())
    }

    /// Removes it.
    fn remove<S: Files>(&self, system: &S) {
        let _ = system.remove_file(self.path.as_str());
    }
}
