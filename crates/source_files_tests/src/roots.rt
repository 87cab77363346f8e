//! The sources below a root.

use index_pool::{NoGate, Workers};
use source_files::{LoadFault, ReadFiles, Readers, RootFiles, SystemFiles, read_root};
use source_tree::Source;
use std::alloc::{AllocError, Global};
use std::process::Abort;
use std::rt::Files;
use std::sync::Wait;
use std::test::Fail;
use std::thread::Threads;
use std::{fs, io};

/// Sees that what a case says holds. (A formatted assertion is proved once, here.)
pub(crate) fn see(rt: &impl Abort, holds: bool, case: &str) {
    assert!(rt; holds, "{case}");
}

/// The paths of the sources, each with a space behind it.
pub(crate) fn listing(alloc: Global, sources: &[Source]) -> Result<String, AllocError> {
    let mut text = String::new(alloc);
    for source in sources {
        text.push_str(source.path.as_str())?;
        text.push_str(if source.is_unread { "? " } else { " " })?;
    }
    Ok(text)
}

/// What couldn't be read, with the fault behind it, or the fault.
pub(crate) fn fault_text(alloc: Global, fault: LoadFault) -> Result<String, AllocError> {
    match fault {
        LoadFault::Unreadable(name) => {
            let mut text = name;
            text.push_str(": Unreadable")?;
            Ok(text)
        }
        fault => String::from_str(alloc, fault.name()),
    }
}

/// The paths of the sources that were read, or the fault.
fn text_of(alloc: Global, answer: Result<RootFiles, LoadFault>) -> Result<String, AllocError> {
    match answer {
        Ok(below) => listing(alloc, &below.files),
        Err(fault) => fault_text(alloc, fault),
    }
}

/// Reads the sources below a root on workers. Where memory ran out it is called again, and the second answer counts;
/// so it is with the call below.
pub(crate) fn read_again<R: Threads + Wait, F: ReadFiles + Sync>(
    rt: &R,
    alloc: Global,
    workers: Workers,
    files: &F,
    root: &str,
) -> Result<RootFiles, LoadFault> {
    let readers = Readers {
        rt,
        alloc,
        workers,
        gate: &NoGate,
        files,
        leaves_out: false,
    };
    match read_root(&readers, root) {
        Err(LoadFault::Memory) => read_root(&readers, root),
        answer => answer,
    }
}

/// Removes a folder with all that it holds. Where it can't, as where memory ran out, it tries again.
pub(crate) fn remove_again<S: Files + AllocGlobal>(system: &S, path: &str) -> io::Result<()> {
    match fs::remove_dir_all(system, path) {
        Err(_) => fs::remove_dir_all(system, path),
        done => done,
    }
}

/// Sees that below a root these sources are read, or what can't be: on one worker and on more.
pub(crate) fn see_read<R: Threads + Wait + Abort, F: ReadFiles + Sync>(
    rt: &R,
    alloc: Global,
    files: &F,
    root: &str,
    due: &str,
) -> Result<(), AllocError> {
    for count in &[1usize, 3, 16] {
        if let Some(workers) = Workers::new(*count) {
            let found = text_of(alloc, read_again(rt, alloc, workers, files, root))?;
            see(rt, found.as_str() == due, found.as_str());
        }
    }
    Ok(())
}

/// Whether there are five sources, and each holds its path.
fn are_five(sources: &[Source]) -> bool {
    for source in sources {
        if !source.bytes.as_slice().ends_with(source.path.as_bytes()) {
            return false;
        }
    }
    sources.len() == 5
}

/// Sees that each source is read from its file.
fn see_held<R: Threads + Wait + Abort, F: ReadFiles + Sync>(
    rt: &R,
    alloc: Global,
    files: &F,
    root: &str,
) {
    if let Some(workers) = Workers::new(4) {
        let held = match read_again(rt, alloc, workers, files, root) {
            Ok(below) => are_five(&below.files),
            Err(_) => false,
        };
        see(rt, held, "each holds its path");
    }
}

/// Folders that are made.
const FOLDERS: [&str; 4] = ["walk", "walk/x.proto", "walk/deep", "walk/deep/er"];

/// Files that are made. Each holds its path.
const FILES: [&str; 7] = [
    "walk/z.proto",
    "walk/a.proto",
    "walk/a.txt",
    "walk/.proto",
    "walk/x.proto/b.proto",
    "walk/x.proto/proto",
    "walk/deep/er/c.proto",
];

/// Links that are made, each behind what it leads to.
const LINKS: [(&str, &str); 4] = [
    ("a.proto", "walk/link.proto"),
    ("deep", "walk/link"),
    ("nowhere", "walk/dangling.proto"),
    ("walk", "root"),
];

/// The same folder by four names.
const ROOTS: [&str; 4] = ["walk", "walk/", "./walk", "root"];

/// The sources below `walk`.
const SOURCES: &str = ".proto a.proto deep/er/c.proto x.proto/b.proto z.proto ";

/// The sources there if links are followed: `link` leads to `deep`, which comes first.
const FOLLOWED: &str = ".proto a.proto deep/er/c.proto link.proto x.proto/b.proto z.proto ";

/// Roots that can't be listed, and what is told.
const UNREAD: [(&str, &str); 4] = [
    ("walk/a.proto", "walk/a.proto: Unreadable"),
    ("nowhere", "nowhere: Unreadable"),
    ("", ": Unreadable"),
    ("walk/link.proto", "walk/link.proto: Unreadable"),
];

/// Makes the folders, the files and the links.
fn make<S: Files>(system: &S) -> io::Result<()> {
    for folder in &FOLDERS {
        fs::create_dir(system, *folder)?;
    }
    for path in &FILES {
        fs::write(system, *path, *path)?;
    }
    for (to, link) in &LINKS {
        system.symlink(*to, *link)?;
    }
    Ok(())
}

/// Sees that the same sources are read by each of the four names.
fn see_roots<R: Threads + Wait + Abort, F: ReadFiles + Sync>(
    rt: &R,
    alloc: Global,
    files: &F,
    due: &str,
) -> Result<(), AllocError> {
    for root in &ROOTS {
        see_read(rt, alloc, files, *root, due)?;
    }
    Ok(())
}

/// Sees what is told of roots that can't be listed.
fn see_unread<R: Threads + Wait + Abort, F: ReadFiles + Sync>(
    rt: &R,
    alloc: Global,
    files: &F,
) -> Result<(), AllocError> {
    for (root, due) in &UNREAD {
        see_read(rt, alloc, files, *root, *due)?;
    }
    Ok(())
}

#[test]
fn regular_files_by_path(rt: HostRuntime) -> Result<(), Fail> {
    // What an earlier run has left that didn't come to its end.
    let _ = fs::remove_file(&rt, "root");
    let _ = remove_again(&rt, "walk");
    make(&rt)?;
    let files = SystemFiles::new(&rt);
    see_roots(&rt, rt.alloc(), &files, SOURCES)?;
    let following = SystemFiles::following(&rt, true);
    see_roots(&rt, rt.alloc(), &following, FOLLOWED)?;
    see_unread(&rt, rt.alloc(), &files)?;
    see_held(&rt, rt.alloc(), &files, "walk");
    fs::remove_file(&rt, "root")?;
    Ok(remove_again(&rt, "walk")?)
}
