//! What a second look through folders finds, and why a stream's last write failed.

use crate::left_out::list_of;
use crate::roots::{remove_again, see};
use source_files::{Cause, Caused, LookAgain, PassedOver, SystemFiles, SystemStream};
use std::alloc::{AllocError, Global};
use std::fs::Permissions;
use std::io::{Error, ErrorKind, Write};
use std::os::unix::fs::PermissionsExt;
use std::process::Abort;
use std::rt::Files;
use std::test::Fail;
use std::{fs, io};
use streams::Sink;

/// A writer that fails in this way, if in any.
#[derive(Drop)]
struct Failing {
    how: Option<ErrorKind>,
}

impl Write for Failing {
    fn write(&mut self, bytes: &[u8]) -> io::Result<usize> {
        match self.how {
            Some(kind) => Err(Error::from(kind)),
            None => Ok(bytes.len()),
        }
    }

    fn flush(&mut self) -> io::Result<()> {
        Ok(())
    }
}

/// How a write fails, if it does, and why that is said to be.
const CAUSES: [(Option<ErrorKind>, Option<Cause>); 7] = [
    (None, None),
    (Some(ErrorKind::BrokenPipe), Some(Cause::ClosedPipe)),
    (Some(ErrorKind::StorageFull), Some(Cause::NoSpace)),
    (Some(ErrorKind::PermissionDenied), Some(Cause::NotAllowed)),
    (Some(ErrorKind::AlreadyExists), Some(Cause::IsThere)),
    (Some(ErrorKind::DirectoryNotEmpty), Some(Cause::NotEmpty)),
    (Some(ErrorKind::Deadlock), Some(Cause::Other)),
];

#[test]
fn causes_of_failed_writes(rt: HostRuntime) {
    for (how, due) in &CAUSES {
        let mut stream = SystemStream::new(Failing { how: *how });
        let done = stream.write(b"ab");
        see(&rt, done.is_ok() == how.is_none(), "the write");
        see(&rt, stream.cause() == *due, "its cause");
    }
}

/// Folders that are made.
const FOLDERS: [&str; 3] = ["look", "look/deep", "look/deep/er.proto"];

/// Files that are made. Four of them have other names than sources.
const FILES: [&str; 5] = [
    "look/a.proto",
    "look/BUILD",
    "look/.hidden",
    "look/deep/er.proto/b.Proto",
    "look/deep/c.proto.txt",
];

/// A folder among which a path is looked for, if any, the path, and what is said of why it can't be read.
const BLAMED: [(&str, &str, &str); 7] = [
    ("look", "look", ""),
    (
        "look/none",
        "look/none",
        "look/none: no such file or directory",
    ),
    ("look/BUILD", "look/BUILD", "look/BUILD: not a directory"),
    (
        "",
        "look/none.scip",
        "look/none.scip: no such file or directory",
    ),
    ("look", "a.proto", ""),
    ("look", "deep", "look/deep: is a directory"),
    (
        "",
        "look/\u{1b}[31m\u{202e}é",
        "look/\\x1b[31m\\xe2\\x80\\xaeé: no such file or directory",
    ),
];

/// What is said of why a path can't be read; empty if nothing is, and `?` where memory ran out.
fn said_of<F: LookAgain>(
    alloc: Global,
    files: &F,
    folder: &str,
    excluded: &[String],
    path: &str,
) -> Result<String, AllocError> {
    let mut folders = Vec::new(alloc);
    if !folder.is_empty() {
        folders.push(String::from_str(alloc, folder)?)?;
    }
    match files.why_unread(&folders, excluded, path)? {
        Some(text) => Ok(text),
        None => Ok(String::new(alloc)),
    }
}

/// Makes the folders, the files and three links.
fn make<S: Files>(system: &S) -> io::Result<()> {
    for folder in &FOLDERS {
        fs::create_dir(system, *folder)?;
    }
    for file in &FILES {
        fs::write(system, *file, "")?;
    }
    system.symlink("a.proto", "look/link.proto")?;
    system.symlink("..", "look/deep/up")?;
    system.symlink("nowhere", "look/dangling")
}

/// Sees that this is passed over.
fn see_passed<F: LookAgain>(rt: &impl Abort, files: &F, due: PassedOver) {
    see(rt, files.passed_over("look") == Ok(due), "passed over");
}

/// Sees what is said of each path.
fn see_blamed<F: LookAgain>(rt: &impl Abort, alloc: Global, files: &F) -> Result<(), AllocError> {
    for (folder, path, due) in &BLAMED {
        let said = said_of(alloc, files, *folder, &[], *path)?;
        see(rt, said.as_str() == *due, path);
    }
    Ok(())
}

/// What is passed over, and what if links are followed.
const PASSED: PassedOver = PassedOver {
    links: 3,
    others: 4,
};

const PASSED_BY_LINKS: PassedOver = PassedOver {
    links: 1,
    others: 4,
};

#[test]
fn what_is_passed_over_and_why_nothing_is_read(rt: HostRuntime) -> Result<(), Fail> {
    // What an earlier run has left that didn't come to its end.
    let _ = remove_again(&rt, "look");
    make(&rt)?;
    see_passed(&rt, &SystemFiles::new(&rt), PASSED);
    see_passed(&rt, &SystemFiles::following(&rt, true), PASSED_BY_LINKS);
    see_blamed(&rt, rt.alloc(), &SystemFiles::new(&rt))?;
    Ok(remove_again(&rt, "look")?)
}

/// Makes a folder that is closed. Whether it is open all the same, as everything is to some users.
fn make_closed<S: Files + AllocGlobal + Clone>(system: &S) -> io::Result<bool> {
    fs::create_dir(system, "seek")?;
    fs::create_dir(system, "seek/deep")?;
    fs::create_dir(system, "seek/deep/closed")?;
    fs::set_permissions(system, "seek/deep/closed", Permissions::from_mode(0))?;
    Ok(fs::read_dir(system, "seek/deep/closed").is_ok())
}

/// Sees what is said of the folder that is closed.
fn see_closed<F: LookAgain>(
    rt: &impl Abort,
    alloc: Global,
    files: &F,
    is_open: bool,
) -> Result<(), AllocError> {
    let said = said_of(alloc, files, "seek", &[], "seek")?;
    let due = if is_open {
        ""
    } else {
        "seek/deep/closed: permission denied"
    };
    see(rt, said.as_str() == due, "the folder that is closed");
    Ok(())
}

/// Sees that nothing is said of it where it is excluded.
fn see_excluded<F: LookAgain>(rt: &impl Abort, alloc: Global, files: &F) -> Result<(), AllocError> {
    let excluded = list_of(alloc, "deep/closed")?;
    let said = said_of(alloc, files, "seek", &excluded, "seek")?;
    see(rt, said.is_empty(), "what is excluded");
    Ok(())
}

#[test]
fn what_is_excluded_is_not_blamed(rt: HostRuntime) -> Result<(), Fail> {
    let _ = remove_again(&rt, "seek");
    let is_open = make_closed(&rt)?;
    let files = SystemFiles::new(&rt);
    see_closed(&rt, rt.alloc(), &files, is_open)?;
    see_excluded(&rt, rt.alloc(), &files)?;
    fs::set_permissions(&rt, "seek/deep/closed", Permissions::from_mode(0o755))?;
    Ok(remove_again(&rt, "seek")?)
}
