//! Folders that are free for files, and others.

use crate::roots::{remove_again, see};
use source_files::{EmptyFolders, SystemFiles};
use std::alloc::AllocError;
use std::process::Abort;
use std::rt::Files;
use std::test::Fail;
use std::{fs, io};

/// Folders that are made.
const FOLDERS: [&str; 4] = ["site", "site/empty", "site/taken", "site/hidden"];

/// Paths, and whether files may go there. The last but one is a link to a folder without entries.
const PLACES: [(&str, bool); 10] = [
    ("site/none", true),
    ("site/none/below", true),
    ("site/empty", true),
    ("site/empty/", true),
    ("site/taken", false),
    ("site/hidden", false),
    ("site/taken/file", false),
    ("site/taken/file/below", false),
    ("site/link", true),
    ("", false),
];

/// Whether files may go there. None after want of memory.
fn answer_of<F: EmptyFolders>(files: &F, path: &str) -> Option<bool> {
    match files.is_free(path) {
        Ok(free) => Some(free),
        Err(AllocError) => None,
    }
}

/// Makes the folders, the files and the link.
fn make<S: Files>(system: &S) -> io::Result<()> {
    for folder in &FOLDERS {
        fs::create_dir(system, *folder)?;
    }
    fs::write(system, "site/taken/file", "")?;
    fs::write(system, "site/hidden/.file", "")?;
    system.symlink("empty", "site/link")
}

/// Sees for each path whether files may go there. After want of memory it is asked again.
fn see_places<F: EmptyFolders>(rt: &impl Abort, files: &F) {
    for (path, due) in &PLACES {
        let free = match answer_of(files, *path) {
            None => answer_of(files, *path),
            free => free,
        };
        see(rt, free == Some(*due), path);
    }
}

#[test]
fn absent_or_empty(rt: HostRuntime) -> Result<(), Fail> {
    // What an earlier run has left that didn't come to its end.
    let _ = remove_again(&rt, "site");
    make(&rt)?;
    see_places(&rt, &SystemFiles::new(&rt));
    Ok(remove_again(&rt, "site")?)
}
