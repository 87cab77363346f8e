//! Files in memory.

use source_files::{FolderListing, MakeFiles, ReadFiles};
use std::alloc::{AllocError, Global};
use streams::{Std, write_all};

/// Sources below `src`.
pub(crate) struct Files;

/// What the file with a path holds, where it can be read.
fn bytes_at(path: &str) -> Option<&'static [u8]> {
    match path {
        "src/b/x" => Some(b"S".as_slice()),
        "src/a/y" => Some(b"S\n".as_slice()),
        "src/b/a%/z" => Some(b"".as_slice()),
        "src/bytes" => Some(b"\xff".as_slice()),
        "src/unit" => Some(b"".as_slice()),
        "src/short" => Some(b"a".as_slice()),
        _ => None,
    }
}

impl ReadFiles for Files {
    ghost use Rattle.std.specs.Prelude.{⊤};

    ghost lists = { λ _ _ _ _. ⊤ };

    ghost gives = { λ _ _ _. ⊤ };

    ghost finds = { λ _ _ _ _. ⊤ };

    fn list_folder(
        &self,
        _alloc: Global,
        _root: &str,
        _folder: &str,
    ) -> Result<Option<FolderListing>, AllocError> {
        Ok(None)
    }

    fn is_below(&self, _alloc: Global, _root: &str, _path: &str) -> Result<bool, AllocError> {
        Ok(false)
    }

    fn read_file(&self, alloc: Global, path: &str) -> Result<Option<Vec<u8>>, AllocError> {
        match bytes_at(path) {
            Some(bytes) => Ok(Some(Vec::from_slice(alloc, bytes)?)),
            None => Ok(None),
        }
    }

    fn read_source(&self, _alloc: Global, _path: &str) -> Result<Option<Vec<u8>>, AllocError> {
        Ok(None)
    }
}

/// Room for the files that are made, each behind its path in brackets; of those that are the same for each index the
/// path alone.
#[derive(Drop)]
pub(crate) struct Made<'a> {
    pub room: Std<&'a mut [u8]>,
    /// How many files were refused.
    pub refusals: u64,
}

/// What is kept of a file.
fn kept<'a>(path: &str, bytes: &'a [u8]) -> &'a [u8] {
    if path.ends_with(".css") || path.ends_with("search.js") {
        b"\n"
    } else {
        bytes
    }
}

/// Writes what is kept of a file behind its path. Whether there was room for it.
fn keep(room: &mut Std<&mut [u8]>, path: &str, bytes: &[u8]) -> bool {
    let mut is_kept = true;
    for part in [
        b"[".as_slice(),
        path.as_bytes(),
        b"]".as_slice(),
        kept(path, bytes),
    ] {
        is_kept = is_kept && write_all(room, part).is_ok();
    }
    is_kept
}

impl<'a> MakeFiles for Made<'a> {
    ghost use Rattle.std.specs.Prelude.{None};

    ghost made = { λ m. record { files = None; refusals = m.refusals } };

    fn make_file(&mut self, path: &str, bytes: &[u8]) -> Result<bool, AllocError> {
        if keep(&mut self.room, path, bytes) {
            return Ok(true);
        }
        self.refusals = self.refusals.saturating_add(1);
        Ok(false)
    }
}
