//! A second look through the system's folders.

use crate::cause::Cause;
use crate::entry::ENDING;
use crate::found::path_in;
use crate::listing::FolderIdentity;
use crate::look_again::PassedOver;
use crate::system_folders::{front_of, identity_of, seen, shown_name};
use crate::unread_entry::push_character;
use crate::walk::meet;
use globs::is_excluded;
use std::alloc::{AllocError, Global};
use std::fmt::Write;
use std::fs::{File, FileType};
use std::io;
use std::rt::Files;
use streams::read_again;

/// So many bytes of a folder's names are read at once.
const NAMES_LENGTH: usize = 16_384;

/// What is seen below a folder.
#[derive(Drop)]
pub(crate) struct SecondLook<'a, S: Files> {
    system: &'a S,
    alloc: Global,
    /// Whether links are followed.
    follows: bool,
    /// The path of the first folder, with a `/` at its end, and the patterns of what isn't seen below it.
    root: String,
    excluded: &'a [String],
    /// The folders that were met, if they are.
    met: Vec<FolderIdentity>,
    /// The paths of the folders that are left.
    left: Vec<String>,
    /// What a walk passes over.
    pub(crate) passed: PassedOver,
    /// The first of what can't be read, and why.
    pub(crate) blamed: Option<String>,
}

/// Appends bytes in the form `\xe9`.
fn push_escaped(out: &mut String, bytes: &[u8]) -> Result<(), AllocError> {
    for byte in bytes {
        if write!(out, "\\x{byte:02x}").is_err() {
            return Err(AllocError);
        }
    }
    Ok(())
}

/// Appends a name, with its bytes that aren't UTF-8 and its control characters in the form `\xe9`.
pub(crate) fn push_name(out: &mut String, name: &[u8]) -> Result<(), AllocError> {
    for chunk in name.utf8_chunks() {
        for character in chunk.valid().chars() {
            push_character(out, character)?;
        }
        push_escaped(out, chunk.invalid())?;
    }
    Ok(())
}

/// Whether a terminal obeys the character, or it turns the direction in which others are shown.
fn is_obeyed(character: char) -> bool {
    (character.is_control() && character != '\t')
        || matches!(
            character,
            '\u{61c}'
                | '\u{200e}'..='\u{200f}'
                | '\u{202a}'..='\u{202e}'
                | '\u{2066}'..='\u{2069}'
        )
}

/// Appends a path, with the bytes of characters that a terminal obeys in the form `\x1b`.
fn push_shown(alloc: Global, out: &mut String, path: &str) -> Result<(), AllocError> {
    for character in path.chars() {
        if is_obeyed(character) {
            let mut obeyed = String::new(alloc);
            obeyed.push(character)?;
            push_escaped(out, obeyed.as_bytes())?;
        } else {
            out.push(character)?;
        }
    }
    Ok(())
}

/// A path, as it is shown, and what is said of it.
fn said_of(alloc: Global, path: &str, words: &str) -> Result<String, AllocError> {
    let mut text = String::new(alloc);
    push_shown(alloc, &mut text, path)?;
    text.push_str(": ")?;
    text.push_str(words)?;
    Ok(text)
}

impl<'a, S: Files> SecondLook<'a, S> {
    /// Looks through a folder and all below it that patterns don't exclude, as far as they can be read.
    pub(crate) fn below(
        system: &'a S,
        alloc: Global,
        follows: bool,
        root: &str,
        excluded: &'a [String],
    ) -> Result<SecondLook<'a, S>, AllocError> {
        let front = front_of(alloc, root, "")?;
        let mut look = SecondLook {
            system,
            alloc,
            follows,
            root: front,
            excluded,
            met: Vec::new(alloc),
            left: Vec::new(alloc),
            passed: PassedOver {
                links: 0,
                others: 0,
            },
            blamed: None,
        };
        look.leave(root)?;
        look.see_all()?;
        Ok(look)
    }

    /// Looks through the folders that are left, and all below them.
    fn see_all(&mut self) -> Result<(), AllocError> {
        // A bound for the proof: there aren't so many folders.
        for _ in 0..usize::MAX {
            let Some(front) = self.left.pop() else {
                break;
            };
            self.see_once(front.as_str())?;
        }
        Ok(())
    }

    /// Sees the folder whose path has a `/` at its end, if it is new.
    fn see_once(&mut self, front: &str) -> Result<(), AllocError> {
        if self.is_new(front)? {
            self.see_folder(front)?;
        }
        Ok(())
    }

    /// Whether the folder whose path has a `/` at its end is to be seen: if links are followed, only the first time.
    fn is_new(&mut self, front: &str) -> Result<bool, AllocError> {
        if !self.follows {
            return Ok(true);
        }
        match identity_of(self.system, front) {
            Ok(identity) => meet(&mut self.met, identity),
            // Why it can't be read is seen then.
            Err(_) => Ok(true),
        }
    }

    /// Blames a path, if none is blamed yet.
    fn blame(&mut self, path: &str, words: &str) -> Result<(), AllocError> {
        if self.blamed.is_none() {
            self.blamed = Some(said_of(self.alloc, path, words)?);
        }
        Ok(())
    }

    /// Sees the entries of a folder whose path has a `/` at its end.
    fn see_folder(&mut self, front: &str) -> Result<(), AllocError> {
        if let Err(error) = self.see_names(front)? {
            let path = if front.len() > 1 {
                front.trim_end_matches('/')
            } else {
                front
            };
            self.blame(path, Cause::of(&error).words())?;
        }
        Ok(())
    }

    /// The same, or why they can't be read.
    fn see_names(&mut self, front: &str) -> Result<io::Result<()>, AllocError> {
        let mut folder = match self.system.open_dir(front) {
            Ok(folder) => folder,
            Err(error) => return Ok(Err(error)),
        };
        let mut buffer = [0u8; NAMES_LENGTH];
        // A bound for the proof: the names end.
        for _ in 0..usize::MAX {
            match read_again(&mut folder, &mut buffer) {
                Ok(0) => break,
                Ok(count) => self.see_each(front, &buffer[..count])?,
                Err(error) => return Ok(Err(error)),
            }
        }
        Ok(Ok(()))
    }

    /// Sees entries, whose names each end in a NUL.
    fn see_each(&mut self, front: &str, names: &[u8]) -> Result<(), AllocError> {
        for name in names.split(|byte| *byte == 0) {
            self.see_name(front, name)?;
        }
        Ok(())
    }

    /// Whether what has a name in the folder whose path has a `/` at its end isn't seen.
    fn is_passed(&self, front: &str, name: &str) -> Result<bool, AllocError> {
        let folder = front.strip_prefix(self.root.as_str()).unwrap_or("");
        is_excluded(self.alloc, self.excluded, folder, name)
    }

    /// Sees an entry, which isn't the folder itself nor the one that it is in.
    fn see_name(&mut self, front: &str, name: &[u8]) -> Result<(), AllocError> {
        if matches!(name, b"" | b"." | b"..") {
            return Ok(());
        }
        match str::from_utf8(name) {
            Ok(name) => self.see_shown(front, name, true),
            Err(_) => {
                let shown = shown_name(self.alloc, name)?;
                self.see_shown(front, shown.as_str(), false)
            }
        }
    }

    /// Sees an entry with a name, or whose name, which isn't UTF-8, is shown so, if it isn't excluded.
    fn see_shown(&mut self, front: &str, shown: &str, is_utf8: bool) -> Result<(), AllocError> {
        if self.is_passed(front, shown)? {
            return Ok(());
        }
        let path = path_in(self.alloc, front, shown)?;
        if is_utf8 {
            self.see_entry(path.as_str())
        } else {
            self.blame(path.as_str(), "the name isn't UTF-8")
        }
    }

    /// Sees the entry with a path.
    fn see_entry(&mut self, path: &str) -> Result<(), AllocError> {
        match seen(self.system, self.alloc, self.follows, path) {
            Ok(Some(there)) => self.see_kind(path, there.file_type()),
            Ok(None) => {
                self.passed.links = self.passed.links.saturating_add(1);
                Ok(())
            }
            Err(error) => self.blame(path, Cause::of(&error).words()),
        }
    }

    /// A folder is left to be seen.
    fn leave(&mut self, path: &str) -> Result<(), AllocError> {
        let front = front_of(self.alloc, path, "")?;
        self.left.push(front)?;
        Ok(())
    }

    /// Sees what is of this kind at a path.
    fn see_kind(&mut self, path: &str, kind: FileType) -> Result<(), AllocError> {
        if kind.is_symlink() {
            self.passed.links = self.passed.links.saturating_add(1);
        } else if kind.is_dir() {
            return self.leave(path);
        } else if kind.is_file() && !path.ends_with(ENDING) {
            self.passed.others = self.passed.others.saturating_add(1);
        }
        Ok(())
    }
}

/// Reads a byte of the file with a path.
fn read_byte<S: Files>(system: &S, path: &str) -> io::Result<()> {
    let mut file = File::open(system, path)?;
    let mut room = [0u8; 1];
    read_again(&mut file, &mut room)?;
    Ok(())
}

/// Whether a path leads to a pipe or the like, which is neither a file nor a folder: to open it may take forever.
fn may_wait<S: Files>(system: &S, path: &str) -> bool {
    match system.metadata(path) {
        Ok(there) => {
            let kind = there.file_type();
            !kind.is_file() && !kind.is_dir()
        }
        Err(_) => false,
    }
}

/// Why the file with a path can't be read, if it can't; none is known of a pipe or the like.
fn why_no_file<S: Files>(
    system: &S,
    alloc: Global,
    path: &str,
) -> Result<Option<String>, AllocError> {
    if may_wait(system, path) {
        return Ok(None);
    }
    match read_byte(system, path) {
        Ok(()) => Ok(None),
        Err(error) => Ok(Some(said_of(alloc, path, Cause::of(&error).words())?)),
    }
}

/// Why the file with a path below the first of the folders where there is one can't be read, if it can't.
fn why_no_file_below<S: Files>(
    system: &S,
    alloc: Global,
    folders: &[String],
    path: &str,
) -> Result<Option<String>, AllocError> {
    for folder in folders {
        let whole = front_of(alloc, folder.as_str(), path)?;
        if system.symlink_metadata(whole.as_str()).is_ok() {
            return why_no_file(system, alloc, whole.as_str());
        }
    }
    Ok(None)
}

/// Whether a path is that of one of the folders.
fn is_among(folders: &[String], path: &str) -> bool {
    for folder in folders {
        if folder.as_str() == path {
            return true;
        }
    }
    false
}

/// Why a path can't be read, as `LookAgain` says.
pub(crate) fn why_unread<S: Files>(
    system: &S,
    alloc: Global,
    follows: bool,
    folders: &[String],
    excluded: &[String],
    path: &str,
) -> Result<Option<String>, AllocError> {
    if is_among(folders, path) {
        Ok(SecondLook::below(system, alloc, follows, path, excluded)?.blamed)
    } else if folders.is_empty() {
        why_no_file(system, alloc, path)
    } else {
        why_no_file_below(system, alloc, folders, path)
    }
}
