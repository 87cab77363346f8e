//! Where the well-known files are, and a root that has these alone.

use crate::roots::{remove_again, see, see_read};
use source_files::{FindFiles, SystemFiles, WithWellKnown, well_known_folder};
use std::alloc::{AllocError, Global};
use std::fs;
use std::process::Abort;
use std::rt::Files;
use std::test::Fail;

/// Folders that are made.
const FOLDERS: [&str; 6] = [
    "known",
    "known/bin",
    "known/include",
    "known/include/google",
    "known/include/google/protobuf",
    "known/include/google/protobuf/compiler",
];

/// Files that are made.
const FILES: [&str; 6] = [
    "known/bin/protoc",
    "known/include/google/protobuf/descriptor.proto",
    "known/include/google/protobuf/any.proto",
    "known/include/google/protobuf/compiler/plugin.proto",
    "known/include/google/other.proto",
    "known/include/other.proto",
];

/// A PATH, and the folder that it leads to.
const FOUND: [(&str, &str); 3] = [
    ("known/bin", "known/bin/../include"),
    ("gone:known::known/bin:known", "known/bin/../include"),
    ("known/bin/", "known/bin//../include"),
];

/// Roots that have the well-known files alone, and what is read below them and below others.
const READ: [(&str, &str, &str); 3] = [
    (
        "known/include",
        "known/include",
        "google/protobuf/any.proto google/protobuf/descriptor.proto ",
    ),
    (
        "known",
        "known/include",
        "google/other.proto google/protobuf/any.proto google/protobuf/compiler/plugin.proto google/protobuf/descriptor.proto other.proto ",
    ),
    ("known", "known", "known: Unreadable"),
];

/// Makes the folders and the files.
fn make<S: Files>(system: &S) -> Result<(), Fail> {
    for folder in &FOLDERS {
        fs::create_dir(system, *folder)?;
    }
    for file in &FILES {
        fs::write(system, *file, "")?;
    }
    Ok(())
}

/// The folder with the well-known files. Where memory ran out it is looked for again.
fn found_again<F: FindFiles>(
    alloc: Global,
    files: &F,
    path: &str,
) -> Result<Option<String>, AllocError> {
    match well_known_folder(alloc, files, Some(path)) {
        Err(AllocError) => well_known_folder(alloc, files, Some(path)),
        answer => answer,
    }
}

/// Sees that a PATH leads to this folder.
fn see_found<F: FindFiles>(
    rt: &impl Abort,
    alloc: Global,
    files: &F,
    path: &str,
    due: &str,
) -> Result<(), AllocError> {
    let is_due = match found_again(alloc, files, path)? {
        Some(folder) => folder.as_str() == due,
        None => false,
    };
    see(rt, is_due, path);
    Ok(())
}

/// The system's files, those with links followed, and the root that has the well-known files alone.
#[derive(Drop)]
struct Systems<'a> {
    files: SystemFiles<'a, HostRuntime>,
    linked: SystemFiles<'a, HostRuntime>,
    known: String,
}

impl<'a> Systems<'a> {
    /// What is read of them.
    fn with_well_known(&self) -> WithWellKnown<'_, SystemFiles<'a, HostRuntime>> {
        WithWellKnown {
            files: &self.files,
            linked: &self.linked,
            known: Some(self.known.as_str()),
        }
    }
}

#[test]
fn well_known_files_alone(rt: HostRuntime) -> Result<(), Fail> {
    // What an earlier run has left that didn't come to its end.
    let _ = remove_again(&rt, "known");
    make(&rt)?;
    let system = SystemFiles::new(&rt);
    for (path, due) in &FOUND {
        see_found(&rt, rt.alloc(), &system, *path, *due)?;
    }
    for (known, root, due) in &READ {
        let systems = Systems {
            files: SystemFiles::new(&rt),
            linked: SystemFiles::following(&rt, true),
            known: String::from_str(rt.alloc(), *known)?,
        };
        see_read(&rt, rt.alloc(), &systems.with_well_known(), *root, *due)?;
    }
    Ok(remove_again(&rt, "known")?)
}
