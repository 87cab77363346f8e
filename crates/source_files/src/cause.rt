//! Why the system refuses what it is asked for.

ghost use Rattle.std.specs.Prelude.{◌≡◌, ℕ, Option};
ghost use Rattle.std.specs.IoError.{error_kind};
ghost use Rattle.source_files.specs.declared.cause.Cause.{Cause};
ghost use Rattle.source_files.specs.Causes.{cause_of, words_of};

use std::io::{Error, ErrorKind};

/// Why the system refuses a call.
#[derive(Clone, Copy, Debug, PartialEq, Eq)]
pub enum Cause {
    /// The disk is full.
    NoSpace,
    /// The user's share of it is.
    NoShare,
    /// The user isn't allowed to.
    NotAllowed,
    /// There is no such file or folder.
    NotThere,
    /// The other end of the pipe is closed.
    ClosedPipe,
    /// There is a folder where a file is wanted.
    IsFolder,
    /// There is no folder where one is wanted.
    NoFolder,
    /// The file would be longer than a file may be.
    TooLong,
    /// Nothing can be written there.
    ReadOnly,
    /// The name is too long, or none.
    BadName,
    /// Links lead nowhere, or are too many.
    TooManyLinks,
    /// There is a file already.
    IsThere,
    /// There is something in the folder already.
    NotEmpty,
    /// Any other cause.
    Other,
}

impl Cause {
    /// That of an error.
    pub fn of(error: &Error) -> Cause
        ensures { result ≡ cause_of (error_kind error.now) }
    {
        match error.kind() {
            ErrorKind::StorageFull => Cause::NoSpace,
            ErrorKind::QuotaExceeded => Cause::NoShare,
            ErrorKind::PermissionDenied => Cause::NotAllowed,
            ErrorKind::NotFound => Cause::NotThere,
            ErrorKind::BrokenPipe => Cause::ClosedPipe,
            ErrorKind::IsADirectory => Cause::IsFolder,
            ErrorKind::NotADirectory => Cause::NoFolder,
            ErrorKind::FileTooLarge => Cause::TooLong,
            ErrorKind::ReadOnlyFilesystem => Cause::ReadOnly,
            ErrorKind::InvalidFilename => Cause::BadName,
            ErrorKind::FilesystemLoop => Cause::TooManyLinks,
            ErrorKind::AlreadyExists => Cause::IsThere,
            ErrorKind::DirectoryNotEmpty => Cause::NotEmpty,
            _ => Cause::Other,
        }
    }

    /// The system's usual words for it, in English.
    pub fn words(self) -> &'static str
        ensures { result.now ≡ words_of self }
    {
        match self {
            Cause::NoSpace => "no space left on device",
            Cause::NoShare => "disk quota exceeded",
            Cause::NotAllowed => "permission denied",
            Cause::NotThere => "no such file or directory",
            Cause::ClosedPipe => "broken pipe",
            Cause::IsFolder => "is a directory",
            Cause::NoFolder => "not a directory",
            Cause::TooLong => "file too large",
            Cause::ReadOnly => "read-only file system",
            Cause::BadName => "file name too long or invalid",
            Cause::TooManyLinks => "too many levels of symbolic links",
            Cause::IsThere => "file exists",
            Cause::NotEmpty => "directory not empty",
            Cause::Other => "input/output error, or another error of the system",
        }
    }
}

/// Tells why the last call that writes, makes or moves failed.
pub trait Caused {
    // Why it failed; none if it didn't, or if the system gave no cause.
    ghost cause: { Self → Option Cause };

    /// Why it failed; none if it didn't, or if the system gave no cause.
    fn cause(&self) -> Option<Cause>
        ensures { result ≡ cause self.now };
}

/// Tells why its last call that writes, makes or moves failed, if that isn't known before.
pub trait Blamed {
    // What may be told of why it failed.
    ghost reasons: { Self → Option Cause → Type 0 };

    /// Why it failed; none if it didn't, or if the system gave no cause.
    fn reason(&self) -> Option<Cause>
        ensures { reasons self.now result };
}
