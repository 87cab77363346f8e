//! A system whose files have numbers, and take and give a few bytes at once.

use std::alloc::{Allocator, Global};
use std::cell::Cell;
use std::fs::{Metadata, OpenFile, OpenOptions, Permissions};
use std::io;
use std::io::{Error, ErrorKind, PipeReader, PipeWriter, Read, Seek, SeekFrom, Write};
use std::os::fd::BorrowedFd;
use std::os::unix::net::SocketAddr;
use std::path::PathBuf;
use std::rt::Files;

/// No read and no write takes more bytes at once.
const MOST_AT_ONCE: usize = 3;

/// Which of the numbers of the standard streams are taken: a bit for each.
pub(crate) type Taken = Cell<u8>;

/// The least number of a standard stream that is free, if one is.
fn least_free(taken: &Taken) -> Option<u8> {
    let bits = taken.get();
    for number in 0..3u8 {
        if bits >> number & 1 == 0 {
            return Some(number);
        }
    }
    None
}

/// An open file, which has a number of a standard stream until it is let go, or another number.
pub(crate) struct Numbered<'a, F> {
    file: F,
    bit: u8,
    taken: &'a Taken,
}

impl<'a, F> Numbered<'a, F> {
    /// Gives a file this number.
    fn new(file: F, number: Option<u8>, taken: &'a Taken) -> Numbered<'a, F> {
        let bit = match number {
            Some(0) => 1,
            Some(1) => 2,
            Some(2) => 4,
            _ => 0,
        };
        taken.set(taken.get() | bit);
        Numbered { file, bit, taken }
    }
}

impl<'a, F: Drop> Drop for Numbered<'a, F> {
    fn drop(self) {
        self.taken.set(self.taken.get() & !self.bit);
        let Numbered {
            file,
            bit: _,
            taken: _,
        } = self;
        drop(file);
    }
}

impl<'a, F: Read> Read for Numbered<'a, F> {
    fn read(&mut self, buf: &mut [u8]) -> io::Result<usize> {
        let most = buf.len().min(MOST_AT_ONCE);
        self.file.read(&mut buf[..most])
    }
}

impl<'a, F: Write> Write for Numbered<'a, F> {
    fn write(&mut self, buf: &[u8]) -> io::Result<usize> {
        let most = buf.len().min(MOST_AT_ONCE);
        self.file.write(&buf[..most])
    }

    fn flush(&mut self) -> io::Result<()> {
        self.file.flush()
    }
}

impl<'a, F: Seek> Seek for Numbered<'a, F> {
    fn seek(&mut self, to: SeekFrom) -> io::Result<u64> {
        self.file.seek(to)
    }
}

impl<'a, F: OpenFile> OpenFile for Numbered<'a, F> {
    fn metadata(&self) -> io::Result<Metadata> {
        self.file.metadata()
    }

    fn set_len(&self, size: u64) -> io::Result<()> {
        self.file.set_len(size)
    }

    fn sync_all(&self) -> io::Result<()> {
        self.file.sync_all()
    }

    fn sync_data(&self) -> io::Result<()> {
        self.file.sync_data()
    }
}

/// A system that gives each file the least number that is free, and it is free again once the file is let go. What
/// is written to a number of a standard stream is said: it goes to the file `said`.
#[derive(Clone, Copy)]
pub(crate) struct Counting<'a, S: Files> {
    pub(crate) system: &'a S,
    pub(crate) taken: &'a Taken,
    /// Whether it makes no other file.
    pub(crate) is_closed: bool,
    /// How it refuses to move one.
    pub(crate) stays: Option<ErrorKind>,
}

impl<'a, S: Files + Alloc<A = Global>> Alloc for Counting<'a, S> {
    type A = Global;

    fn alloc(&self) -> Global {
        self.system.alloc()
    }
}

impl<'a, S: Files> Files for Counting<'a, S> {
    type File = Numbered<'a, S::File>;

    type Dir = S::Dir;

    fn open_file(&self, how: &OpenOptions, path: &str) -> io::Result<Numbered<'a, S::File>> {
        if self.is_closed && how.asks_create_new() {
            return Err(Error::from(ErrorKind::PermissionDenied));
        }
        let number = least_free(self.taken);
        let path = match number {
            Some(_) if path != "/dev/null" => "said",
            _ => path,
        };
        let file = self.system.open_file(how, path)?;
        Ok(Numbered::new(file, number, self.taken))
    }

    fn open_dir(&self, path: &str) -> io::Result<S::Dir> {
        self.system.open_dir(path)
    }

    fn metadata(&self, path: &str) -> io::Result<Metadata> {
        self.system.metadata(path)
    }

    fn symlink_metadata(&self, path: &str) -> io::Result<Metadata> {
        self.system.symlink_metadata(path)
    }

    fn copy(&self, from: &str, to: &str) -> io::Result<u64> {
        self.system.copy(from, to)
    }

    fn rename(&self, from: &str, to: &str) -> io::Result<()> {
        match self.stays {
            Some(kind) => Err(Error::from(kind)),
            None => self.system.rename(from, to),
        }
    }

    fn remove_file(&self, path: &str) -> io::Result<()> {
        self.system.remove_file(path)
    }

    fn create_dir(&self, path: &str) -> io::Result<()> {
        self.system.create_dir(path)
    }

    fn remove_dir(&self, path: &str) -> io::Result<()> {
        self.system.remove_dir(path)
    }

    fn remove_dir_all<B: Allocator>(&self, alloc: B, path: &str) -> io::Result<()> {
        self.system.remove_dir_all(alloc, path)
    }

    // What it can't do, as the trait answers it. (Written out, each is proved in a quarter of the time.)
    fn canonicalize<B: Allocator>(&self, _alloc: B, _path: &str) -> io::Result<PathBuf<B>> {
        Err(Error::from(ErrorKind::Unsupported))
    }

    fn read_link<B: Allocator>(&self, _alloc: B, _path: &str) -> io::Result<PathBuf<B>> {
        Err(Error::from(ErrorKind::Unsupported))
    }

    fn hard_link(&self, _original: &str, _link: &str) -> io::Result<()> {
        Err(Error::from(ErrorKind::Unsupported))
    }

    fn set_permissions(&self, _path: &str, _perm: Permissions) -> io::Result<()> {
        Err(Error::from(ErrorKind::Unsupported))
    }

    fn symlink(&self, _original: &str, _link: &str) -> io::Result<()> {
        Err(Error::from(ErrorKind::Unsupported))
    }

    fn pipe(&self) -> io::Result<(PipeReader, PipeWriter)> {
        Err(Error::from(ErrorKind::Unsupported))
    }

    fn chown(&self, _path: &str, _uid: Option<u32>, _gid: Option<u32>) -> io::Result<()> {
        Err(Error::from(ErrorKind::Unsupported))
    }

    fn lchown(&self, _path: &str, _uid: Option<u32>, _gid: Option<u32>) -> io::Result<()> {
        Err(Error::from(ErrorKind::Unsupported))
    }

    fn create_dir_with_mode(&self, _path: &str, _mode: u32) -> io::Result<()> {
        Err(Error::from(ErrorKind::Unsupported))
    }

    fn bind_unix(&self, _socket: BorrowedFd<'_>, _addr: &SocketAddr) -> io::Result<()> {
        Err(Error::from(ErrorKind::Unsupported))
    }
}
