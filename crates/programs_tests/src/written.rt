//! Where an index goes in these tests, and files and folders that are made: to room in memory.

ghost use Rattle.std.specs.Prelude.{◌≡◌};

use crate::runs::ROOM;
use source_files::{Blamed, Cause, FolderPlace, MakeFiles, OutPlace};
use std::alloc::{AllocError, Global};
use std::cell::Cell;
use streams::{Failed, Sink, Std, write_all};

/// What is written before it is put at its place: so many bytes more fit.
#[derive(Drop)]
pub(crate) struct Part {
    bytes: Vec<u8>,
    fits: usize,
    failures: u64,
}

impl Part {
    /// Takes the first bytes, as many as fit. Whether any did.
    fn take(&mut self, bytes: &[u8]) -> bool
        ensures { self.new.failures ≡ self.old.failures }
    {
        self.fits = self.fits.saturating_sub(bytes.len());
        bytes.is_empty() || self.bytes.extend_from_slice(bytes).is_ok()
    }
}

impl Sink for Part {
    ghost use Rattle.std.specs.Prelude.{None};

    ghost contents = { λ _. None };

    ghost failures = { λ part. part.failures };

    fn write(&mut self, bytes: &[u8]) -> Result<usize, Failed> {
        let count = bytes.len().min(self.fits);
        let is_full = count == 0 && !bytes.is_empty();
        if is_full || !self.take(bytes.split_at(count).0) {
            self.failures = self.failures.saturating_add(1);
            return Err(Failed);
        }
        Ok(count)
    }
}

/// The place that an index is put at, by its path, and room for it, and also for the files that are made, each behind
/// its path in brackets, and for folders, each a path and its files; of the files of pages the path alone.
#[derive(Drop)]
pub(crate) struct Written<'r, 'p> {
    pub(crate) room: Std<&'r mut [u8]>,
    pub(crate) path: &'p str,
    /// How many bytes of a part, or of a folder, fit.
    pub(crate) fits: usize,
    /// Whether no part, and no folder, may be put there.
    pub(crate) is_refused: bool,
    /// How many files were refused.
    pub(crate) refusals: u64,
    /// Why the last call failed.
    pub(crate) cause: Cell<Option<Cause>>,
}

/// A path without what may be before it that changes nothing.
fn plain(path: &str) -> &str {
    path.trim_start_matches("./")
}

impl<'r, 'p> OutPlace for Written<'r, 'p> {
    ghost use Rattle.std.specs.Prelude.{None, ⊤};

    type Part = Part;

    ghost holds = { λ _. None };

    ghost same = { λ _ _ _. ⊤ };

    ghost suspects = { λ _ _. ⊤ };

    ghost refuses = { λ _ _. ⊤ };

    ghost gives_up = { λ _ _. ⊤ };

    fn may_be_source(&self) -> bool {
        true
    }

    fn is_file(&self, path: &str) -> bool {
        plain(path) == plain(self.path)
    }

    fn begin(&self, alloc: Global) -> Result<Part, AllocError> {
        Ok(Part {
            bytes: Vec::with_capacity(alloc, ROOM)?,
            fits: self.fits,
            failures: 0,
        })
    }

    fn put(&mut self, part: Part) -> Result<(), Failed> {
        if self.is_refused {
            self.cause.set(Some(Cause::NotAllowed));
            return Err(Failed);
        }
        let _ = write_all(&mut self.room, part.bytes.as_slice());
        Ok(())
    }

    fn leave(&self, part: Part) {
        if part.failures > 0 {
            self.cause.set(Some(Cause::NoSpace));
        }
    }
}

/// What is kept of a file.
fn kept<'a>(path: &str, bytes: &'a [u8]) -> &'a [u8] {
    if path.ends_with(".txt") { bytes } else { b"" }
}

/// Writes what is kept of a file behind its path. Whether there was room for it.
fn keep<W: Sink>(room: &mut W, path: &str, bytes: &[u8]) -> bool {
    let mut is_kept = true;
    for part in [
        b"[".as_slice(),
        path.as_bytes(),
        b"]".as_slice(),
        kept(path, bytes),
    ] {
        is_kept = is_kept && write_all(room, part).is_ok();
    }
    is_kept
}

impl<'r, 'p> MakeFiles for Written<'r, 'p> {
    ghost use Rattle.std.specs.Prelude.{None};

    ghost made = { λ w. record { files = None; refusals = w.refusals } };

    fn make_file(&mut self, path: &str, bytes: &[u8]) -> Result<bool, AllocError> {
        if keep(&mut self.room, path, bytes) {
            return Ok(true);
        }
        self.refusals = self.refusals.saturating_add(1);
        self.cause.set(Some(Cause::NoSpace));
        Ok(false)
    }
}

impl<'r, 'p> Blamed for Written<'r, 'p> {
    ghost use Rattle.std.specs.Prelude.{⊤};

    ghost reasons = { λ _ _. ⊤ };

    fn reason(&self) -> Option<Cause> {
        self.cause.get()
    }
}

/// The files of a folder, before it is put at its place.
#[derive(Drop)]
pub(crate) struct Folder {
    part: Part,
    refusals: u64,
}

impl MakeFiles for Folder {
    ghost use Rattle.std.specs.Prelude.{None};

    ghost made = { λ f. record { files = None; refusals = f.refusals } };

    fn make_file(&mut self, path: &str, bytes: &[u8]) -> Result<bool, AllocError> {
        if keep(&mut self.part, path, bytes) {
            return Ok(true);
        }
        self.refusals = self.refusals.saturating_add(1);
        Ok(false)
    }
}

impl<'r, 'p> FolderPlace for Written<'r, 'p> {
    ghost use Rattle.std.specs.Prelude.{None, ⊤};

    type Folder = Folder;

    ghost filed = { λ _ _. None };

    ghost refuses_folder = { λ _ _ _. ⊤ };

    ghost gives_up_folder = { λ _ _. ⊤ };

    fn begin_folder(&self, alloc: Global, _path: &str) -> Result<Folder, AllocError> {
        Ok(Folder {
            part: self.begin(alloc)?,
            refusals: 0,
        })
    }

    fn put_folder(&mut self, path: &str, folder: Folder) -> Result<(), Failed> {
        if self.is_refused {
            self.cause.set(Some(Cause::NotAllowed));
            return Err(Failed);
        }
        let _ = write_all(&mut self.room, path.as_bytes());
        let _ = write_all(&mut self.room, folder.part.bytes.as_slice());
        Ok(())
    }

    fn leave_folder(&self, folder: Folder) {
        if folder.refusals > 0 {
            self.cause.set(Some(Cause::NoSpace));
        }
    }
}
