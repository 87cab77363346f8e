//! What patterns leave of the sources below a folder.

use crate::roots::{remove_again, see_read};
use source_files::{Excluding, ReadFiles, SystemFiles};
use std::alloc::Global;
use std::fs;
use std::process::Abort;
use std::rt::Files;
use std::sync::Wait;
use std::test::Fail;
use std::thread::Threads;

/// Folders that are made.
const FOLDERS: [&str; 4] = ["left", "left/.git", "left/deep", "left/deep/er"];

/// Files that are made.
const FILES: [&str; 4] = [
    "left/.git/g.proto",
    "left/a.proto",
    "left/deep/b.proto",
    "left/deep/er/b.proto",
];

/// A pattern, and the sources that it leaves.
const LEFT: [(&str, &str); 6] = [
    ("none", ".git/g.proto a.proto deep/b.proto deep/er/b.proto "),
    (".git", "a.proto deep/b.proto deep/er/b.proto "),
    ("b.proto", ".git/g.proto a.proto "),
    ("deep/b.proto", ".git/g.proto a.proto deep/er/b.proto "),
    ("deep/*/b.proto", ".git/g.proto a.proto deep/b.proto "),
    ("/deep", ".git/g.proto a.proto "),
];

/// Makes the folders and the files.
fn make<S: Files>(system: &S) -> Result<(), Fail> {
    for folder in &FOLDERS {
        fs::create_dir(system, *folder)?;
    }
    for file in &FILES {
        fs::write(system, *file, "")?;
    }
    Ok(())
}

/// Patterns: this one, and one that excludes nothing.
fn patterns_with(alloc: Global, pattern: &str) -> Result<Vec<String>, Fail> {
    let mut patterns = Vec::new(alloc);
    patterns.push(String::from_str(alloc, "?")?)?;
    patterns.push(String::from_str(alloc, pattern)?)?;
    Ok(patterns)
}

/// Sees which sources a pattern leaves.
fn see_left<R: Threads + Wait + Abort, F: ReadFiles + Sync>(
    rt: &R,
    alloc: Global,
    files: &F,
    pattern: &str,
    due: &str,
) -> Result<(), Fail> {
    let patterns = patterns_with(alloc, pattern)?;
    let files = Excluding {
        files,
        patterns: &patterns,
    };
    Ok(see_read(rt, alloc, &files, "left", due)?)
}

#[test]
fn sources_that_are_left(rt: HostRuntime) -> Result<(), Fail> {
    // What an earlier run has left that didn't come to its end.
    let _ = remove_again(&rt, "left");
    make(&rt)?;
    let system = SystemFiles::new(&rt);
    for (pattern, due) in &LEFT {
        see_left(&rt, rt.alloc(), &system, *pattern, *due)?;
    }
    Ok(remove_again(&rt, "left")?)
}
