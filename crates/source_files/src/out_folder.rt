//! A folder that is made beside its place, and then moved there.

ghost use Rattle.std.specs.Prelude.{◌≡◌, IfOk};

use crate::cause::Cause;
use crate::folder_in_place::{FolderInPlace, make_new};
use crate::found::path_in;
use crate::make_files::MakeFiles;
use crate::out_file::are_one;
use crate::out_way::{DIGITS, NUMBERS, front_of, put_number};
use crate::system_files::given;
use crate::system_stream::cause_in;
use std::alloc::{AllocError, Global};
use std::fs::{Metadata, Permissions};
use std::io::{Error, ErrorKind};
use std::os::unix::fs::{MetadataExt, PermissionsExt};
use std::rt::Files;
use std::{fs, io};

/// What those who own a folder need so that files can be made in it.
const OPEN: u32 = 0o700;

/// A folder that was made beside a place, and isn't moved there yet.
#[derive(Drop)]
struct Beside {
    /// Its path.
    path: String,
    /// The path of the place, or of the first folder on the way to it that isn't there.
    place: String,
    /// What is behind its path in the place's: the folders on the way.
    behind: String,
}

/// Where the files of a folder are made.
#[derive(Drop)]
enum Way {
    Beside(Beside),
    InPlace(FolderInPlace),
    /// Nowhere: another one has made something in the place, which was free.
    Taken,
}

/// A folder in which files are made. What it holds isn't known.
///
/// It is made beside its place, with all folders on the way that aren't there, and moved by one step. If an empty
/// folder is there, it takes that one's place, with its owner, its group and its mode. In place are made: the folder
/// where the program runs; one beside which nothing can be made, or which can't be replaced, for want of rights or
/// since it is a file system of its own. What another one makes there meanwhile is never replaced.
#[derive(Drop)]
pub struct OutFolder<'a, S: Files> {
    system: &'a S,
    alloc: Global,
    way: Way,
    refusals: u64,
    cause: Option<Cause>,
}

/// Whether a name in a path is that of an entry.
fn is_entry(name: &str) -> bool {
    !matches!(name, "" | "." | "..")
}

/// The last name in a path.
fn last_name(path: &str) -> &str {
    match path.rsplit_once('/') {
        Some((_, name)) => name,
        None => path,
    }
}

/// Whether nothing is at a path.
fn is_nothing<S: Files>(system: &S, path: &str) -> bool {
    match system.symlink_metadata(path) {
        Ok(_) => false,
        Err(error) => error.kind() == ErrorKind::NotFound,
    }
}

/// The first of the folders on the way to a path that isn't there, or the path itself, after at most `room` steps up.
fn first_missing<'p, S: Files>(system: &S, path: &'p str, room: usize) -> &'p str {
    match path.rsplit_once('/') {
        Some((above, _)) if room > 0 => {
            let above = above.trim_end_matches('/');
            if !above.is_empty() && is_nothing(system, above) {
                first_missing(system, above, room - 1)
            } else {
                path
            }
        }
        _ => path,
    }
}

/// Makes a folder whose path has the first number behind a front with which nothing is there. False if the system
/// refuses that.
fn make_numbered<S: Files>(system: &S, front: &str, path: &mut String) -> Result<bool, AllocError> {
    for number in 0..NUMBERS {
        put_number(path, front, number)?;
        match fs::create_dir(system, path.as_str()) {
            Err(error) if error.kind() == ErrorKind::AlreadyExists => {}
            made => return Ok(given(made)?.is_some()),
        }
    }
    Ok(false)
}

/// Makes a folder beside a path, with the first number with which nothing is there. None if the system refuses that.
fn make_beside<S: Files>(
    system: &S,
    alloc: Global,
    place: &str,
) -> Result<Option<String>, AllocError> {
    let front = front_of(alloc, place, last_name(place))?;
    let mut path = String::with_capacity(alloc, front.len().saturating_add(DIGITS))?;
    if make_numbered(system, front.as_str(), &mut path)? {
        Ok(Some(path))
    } else {
        Ok(None)
    }
}

/// Gives a folder the owner, the group and the mode of one that is there.
fn take_after<S: Files>(system: &S, path: &str, there: &Metadata) -> io::Result<()> {
    let made = system.symlink_metadata(path)?;
    if made.uid() != there.uid() || made.gid() != there.gid() {
        system.lchown(path, Some(there.uid()), Some(there.gid()))?;
    }
    if system.symlink_metadata(path)?.mode() != there.mode() {
        system.set_permissions(path, Permissions::from_mode(there.mode()))?;
    }
    Ok(())
}

/// Makes a folder beside an empty one, as that is. None if the system refuses that.
fn make_like<S: Files>(
    system: &S,
    alloc: Global,
    place: &str,
    there: &Metadata,
) -> Result<Option<String>, AllocError> {
    let Some(path) = make_beside(system, alloc, place)? else {
        return Ok(None);
    };
    if take_after(system, path.as_str(), there).is_err() {
        let _ = system.remove_dir(path.as_str());
        return Ok(None);
    }
    Ok(Some(path))
}

/// Whether files may be made in a folder by its mode, and it isn't the one where the program runs.
fn is_open<S: Files>(system: &S, there: &Metadata) -> bool {
    let runs_here = match system.metadata(".") {
        Ok(here) => are_one(&here, there),
        Err(_) => true,
    };
    there.is_dir() && there.mode() & OPEN == OPEN && !runs_here
}

/// Whether it says that the folder at a place has an entry.
fn is_of_entry(error: &Error) -> bool {
    matches!(
        error.kind(),
        ErrorKind::DirectoryNotEmpty | ErrorKind::AlreadyExists
    )
}

/// What comes of replacing an empty folder by another one.
enum Replaced {
    Done,
    /// The system refuses it.
    Refused,
    /// It isn't empty any more.
    Taken,
}

/// Whether a folder can take the place of an empty one: that is tried with an empty folder.
fn try_to_replace<S: Files>(
    system: &S,
    alloc: Global,
    place: &str,
    there: &Metadata,
) -> Result<Replaced, AllocError> {
    let Some(tried) = make_like(system, alloc, place, there)? else {
        return Ok(Replaced::Refused);
    };
    match system.rename(tried.as_str(), place) {
        Ok(()) => Ok(Replaced::Done),
        Err(error) => {
            let _ = system.remove_dir(tried.as_str());
            if is_of_entry(&error) {
                Ok(Replaced::Taken)
            } else {
                Ok(Replaced::Refused)
            }
        }
    }
}

/// Makes a folder that is to take the place of an empty one. None if it can't.
fn beside_folder<S: Files>(
    system: &S,
    alloc: Global,
    place: &str,
    there: &Metadata,
) -> Result<Option<Way>, AllocError> {
    if !is_entry(last_name(place)) || !is_open(system, there) {
        return Ok(None);
    }
    match try_to_replace(system, alloc, place, there)? {
        Replaced::Done => {}
        Replaced::Refused => return Ok(None),
        Replaced::Taken => return Ok(Some(Way::Taken)),
    }
    let at = String::from_str(alloc, place)?;
    match make_like(system, alloc, place, there)? {
        Some(path) => Ok(Some(Way::Beside(Beside {
            path,
            place: at,
            behind: String::new(alloc),
        }))),
        None => Ok(None),
    }
}

/// Makes a folder for a place where nothing is. None if it can't be moved there.
fn beside_nothing<S: Files>(
    system: &S,
    alloc: Global,
    path: &str,
) -> Result<Option<Way>, AllocError> {
    let first = first_missing(system, path, path.len());
    let behind = path.strip_prefix(first).unwrap_or("");
    if !is_entry(last_name(first)) || behind.split('/').any(|name| matches!(name, "." | "..")) {
        return Ok(None);
    }
    let place = String::from_str(alloc, first)?;
    let behind = String::from_str(alloc, behind)?;
    match make_beside(system, alloc, first)? {
        Some(path) => Ok(Some(Way::Beside(Beside {
            path,
            place,
            behind,
        }))),
        None => Ok(None),
    }
}

/// Makes a folder that is to be where a link leads. None if it can't be moved there.
fn beside_link<S: Files>(system: &S, alloc: Global, path: &str) -> Result<Option<Way>, AllocError> {
    let (Some(place), Some(there)) = (
        given(system.canonicalize(alloc, path))?,
        given(system.metadata(path))?,
    ) else {
        return Ok(None);
    };
    beside_folder(system, alloc, place.as_path().as_str(), &there)
}

/// Makes a folder beside a place. None if it can't be moved there.
fn made_beside<S: Files>(system: &S, alloc: Global, path: &str) -> Result<Option<Way>, AllocError> {
    match system.symlink_metadata(path) {
        Ok(there) if there.is_symlink() => beside_link(system, alloc, path),
        Ok(there) => beside_folder(system, alloc, path, &there),
        Err(error) if error.kind() == ErrorKind::NotFound => beside_nothing(system, alloc, path),
        Err(_) => Ok(None),
    }
}

/// Where the files of the folder with a path are made.
fn way_to<S: Files>(system: &S, alloc: Global, path: &str) -> Result<Way, AllocError> {
    match made_beside(system, alloc, path.trim_end_matches('/'))? {
        Some(way) => Ok(way),
        None => Ok(Way::InPlace(FolderInPlace::at(system, alloc, path)?)),
    }
}

/// Moves a folder to a place, on the way to which folders are made if they aren't there.
fn move_to<S: Files>(system: &S, made: &str, place: &str) -> io::Result<()> {
    if let Some((above, _)) = place.rsplit_once('/') {
        fs::create_dir_all(system, above)?;
    }
    system.rename(made, place)
}

impl Beside {
    /// Moves it to its place. Where another one made folders on the way meanwhile, what is behind them is moved.
    fn finish<S: Files>(&self, system: &S, alloc: Global) -> io::Result<()> {
        let moved = system.rename(self.path.as_str(), self.place.as_str());
        if moved.is_err() && !self.behind.is_empty() {
            return self.finish_behind(system, alloc);
        }
        moved
    }

    /// Moves what is behind the folders on the way, which are made if they aren't there, and removes the other ones.
    fn finish_behind<S: Files>(&self, system: &S, alloc: Global) -> io::Result<()> {
        let made = path_in(alloc, self.path.as_str(), self.behind.as_str())?;
        let place = path_in(alloc, self.place.as_str(), self.behind.as_str())?;
        move_to(system, made.as_str(), place.as_str())?;
        let _ = system.remove_dir_all(alloc, self.path.as_str());
        Ok(())
    }
}

impl Beside {
    /// The path of a file in it.
    fn path_of(&self, alloc: Global, path: &str) -> Result<String, AllocError> {
        let mut file = String::from_str(alloc, self.path.as_str())?;
        file.push_str(self.behind.as_str())?;
        file.push('/')?;
        file.push_str(path)?;
        Ok(file)
    }
}

impl<'a, S: Files> OutFolder<'a, S> {
    /// The folder for the place with a path.
    pub(crate) fn begin(
        system: &'a S,
        alloc: Global,
        path: &str,
    ) -> Result<OutFolder<'a, S>, AllocError>
        ensures { IfOk result (λ folder. folder.refusals ≡ 0) }
    {
        let way = way_to(system, alloc, path)?;
        Ok(OutFolder {
            system,
            alloc,
            way,
            refusals: 0,
            cause: None,
        })
    }

    /// Makes a file. False if the system refuses that.
    fn make(&mut self, path: &str, bytes: &[u8]) -> Result<bool, AllocError>
        ensures { self.new.refusals ≡ self.old.refusals }
    {
        let made = match &mut self.way {
            Way::Beside(beside) => {
                let file = beside.path_of(self.alloc, path)?;
                make_new(self.system, file.as_str(), bytes)
            }
            Way::InPlace(here) => here.make(self.system, self.alloc, path, bytes)?,
            Way::Taken => Err(Error::from(ErrorKind::DirectoryNotEmpty)),
        };
        self.cause = cause_in(&made);
        Ok(given(made)?.is_some())
    }

    /// Why the last file couldn't be made, if the system said why.
    pub(crate) fn cause(&self) -> Option<Cause> {
        self.cause
    }

    /// Brings the folder to its place.
    pub(crate) fn finish(&self) -> io::Result<()> {
        match &self.way {
            Way::Beside(beside) => beside.finish(self.system, self.alloc),
            Way::InPlace(_) => Ok(()),
            Way::Taken => Err(Error::from(ErrorKind::DirectoryNotEmpty)),
        }
    }

    /// Removes what was made.
    pub(crate) fn leave(&self) {
        match &self.way {
            Way::Beside(beside) => {
                let _ = self.system.remove_dir_all(self.alloc, beside.path.as_str());
            }
            Way::InPlace(here) => here.leave(self.system),
            Way::Taken => {}
        }
    }
}

impl<'a, S: Files> MakeFiles for OutFolder<'a, S> {
    ghost use Rattle.std.specs.Prelude.{None};

    ghost made = { λ s. record { files = None; refusals = s.refusals } };

    fn make_file(&mut self, path: &str, bytes: &[u8]) -> Result<bool, AllocError> {
        if self.make(path, bytes)? {
            return Ok(true);
        }
        self.refusals = self.refusals.saturating_add(1);
        Ok(false)
    }
}
