//! What can't be read below a root, where it is left out and where it isn't.

use crate::roots::{fault_text, listing, remove_again, see};
use index_pool::{NoGate, Workers};
use source_files::{
    FolderEntry, FolderIdentity, FolderListing, LoadFault, LoadedTree, ReadFiles, Readers,
    SystemFiles, UnreadEntry, load_tree, load_tree_with_paths, read_root,
};
use source_tree::{Source, Tree};
use std::alloc::{AllocError, Global};
use std::process::Abort;
use std::rt::Files;
use std::sync::Wait;
use std::test::Fail;
use std::thread::Threads;
use std::{fs, io};

/// The system's files, by folders that are said to have the entries below.
#[derive(Drop)]
struct Said<'a, F> {
    files: &'a F,
}

/// Files that are said to be there: the root, the folder and the name of each.
const FILES: [(&str, &str, &str); 11] = [
    ("names", "", "a.proto"),
    ("locks", "", "a.proto"),
    ("gone", "", "gone.proto"),
    ("gone", "", "a.proto"),
    ("there", "", "gone.proto"),
    ("all", "", "gone.proto"),
    ("all", "", "a.proto"),
    ("all", "deep/", "b.proto"),
    ("alike", "", "a.proto"),
    ("bad", "", "a.proto"),
    ("bad", "", "a\tb.proto"),
];

/// Folders that are said to be there. `locked` can't be listed.
const FOLDERS: [(&str, &str, &str); 3] = [
    ("locks", "", "locked"),
    ("all", "", "locked"),
    ("all", "", "deep"),
];

/// Names there that aren't UTF-8, as they are shown, and the number of the folder that they are said to be in.
const NAMES: [(&str, &str, &str, &[u8], u64); 7] = [
    ("names", "", "\\xe9.proto", b"\xe9.proto", 1),
    ("all", "", "\\xe9.proto", b"\xe9.proto", 1),
    ("all", "deep/", "\\xff", b"\xff", 2),
    ("alike", "", "\\xe9\\xff", b"\xe9\\xff", 3),
    ("alike", "", "\\xe9\\xff", b"\\xe9\xff", 3),
    ("other", "", "\\xe9\\xff", b"\xe9\\xff", 4),
    ("other", "", "\\xe9\\xff", b"\\xe9\xff", 4),
];

/// Adds entries that are said to be in a folder below a root.
fn add_entries(
    alloc: Global,
    listing: &mut FolderListing,
    said: &[(&str, &str, &str)],
    is_file: bool,
    at: (&str, &str),
) -> Result<(), AllocError> {
    for (root, folder, name) in said {
        if *root == at.0 && *folder == at.1 {
            let name = String::from_str(alloc, *name)?;
            listing.entries.push(FolderEntry { name, is_file })?;
        }
    }
    Ok(())
}

/// An entry whose name isn't UTF-8, as it is shown, its bytes, and the number of the folder that it is in.
fn entry_of(
    alloc: Global,
    shown: &str,
    bytes: &[u8],
    number: u64,
) -> Result<UnreadEntry, AllocError> {
    let shown = String::from_str(alloc, shown)?;
    let bytes = Vec::from_slice(alloc, bytes)?;
    let folder = FolderIdentity { device: 0, number };
    Ok(UnreadEntry {
        shown,
        bytes,
        folder: Some(folder),
        has_bad_path: false,
    })
}

/// Adds the names that are said to be in a folder below a root and aren't UTF-8.
fn add_names(
    alloc: Global,
    listing: &mut FolderListing,
    said: &[(&str, &str, &str, &[u8], u64)],
    at: (&str, &str),
) -> Result<(), AllocError> {
    for (root, folder, shown, bytes, number) in said {
        if *root == at.0 && *folder == at.1 {
            let entry = entry_of(alloc, *shown, *bytes, *number)?;
            listing.unnamed.push(entry)?;
        }
    }
    Ok(())
}

/// Adds what is said to be in a folder below a root.
fn add_said(
    alloc: Global,
    listing: &mut FolderListing,
    at: (&str, &str),
) -> Result<(), AllocError> {
    add_entries(alloc, listing, &FILES, true, at)?;
    add_entries(alloc, listing, &FOLDERS, false, at)?;
    add_names(alloc, listing, &NAMES, at)
}

/// What is said to be in a folder below a root.
fn said_in(alloc: Global, root: &str, folder: &str) -> Result<FolderListing, AllocError> {
    let mut listing = FolderListing {
        entries: Vec::new(alloc),
        identity: None,
        unnamed: Vec::new(alloc),
    };
    add_said(alloc, &mut listing, (root, folder))?;
    Ok(listing)
}

impl<'a, F: ReadFiles> ReadFiles for Said<'a, F> {
    ghost use Rattle.std.specs.Prelude.{⊤};

    ghost lists = { λ s root folder listed. ⊤ };

    ghost gives = { λ s. F.gives s.files.now };

    ghost finds = { λ s. F.finds s.files.now };

    fn list_folder(
        &self,
        alloc: Global,
        root: &str,
        folder: &str,
    ) -> Result<Option<FolderListing>, AllocError> {
        if root == "nowhere" || folder == "locked/" {
            return Ok(None);
        }
        Ok(Some(said_in(alloc, root, folder)?))
    }

    fn is_below(&self, alloc: Global, root: &str, path: &str) -> Result<bool, AllocError> {
        self.files.is_below(alloc, root, path)
    }

    fn read_file(&self, alloc: Global, path: &str) -> Result<Option<Vec<u8>>, AllocError> {
        self.files.read_file(alloc, path)
    }

    fn read_source(&self, alloc: Global, path: &str) -> Result<Option<Vec<u8>>, AllocError> {
        self.files.read_source(alloc, path)
    }
}

/// Adds paths, each with a space behind it, behind a stroke.
fn add_paths(text: &mut String, paths: &[String]) -> Result<(), AllocError> {
    text.push_str("| ")?;
    for path in paths {
        text.push_str(path.as_str())?;
        text.push(' ')?;
    }
    Ok(())
}

/// Adds what isn't read as it is shown, each with a space behind it, or with `! ` if its path is bad, behind a stroke.
fn add_unread(text: &mut String, unread: &[UnreadEntry]) -> Result<(), AllocError> {
    text.push_str("| ")?;
    for entry in unread {
        text.push_str(entry.shown.as_str())?;
        text.push_str(if entry.has_bad_path { "! " } else { " " })?;
    }
    Ok(())
}

/// Adds the paths of the files of a tree, each with `?` behind it if it couldn't be read.
fn add_tree(text: &mut String, tree: &Tree) -> Result<(), AllocError> {
    for number in 0..tree.file_count() {
        text.push_str(tree.path(number))?;
        text.push_str(if tree.is_unread(number) { "? " } else { " " })?;
    }
    Ok(())
}

/// The paths of sources, each with `?` behind it if it couldn't be read, and behind a stroke what is left out.
fn text_of_files(
    alloc: Global,
    files: &[Source],
    unread: &[UnreadEntry],
) -> Result<String, AllocError> {
    let mut text = listing(alloc, files)?;
    add_unread(&mut text, unread)?;
    Ok(text)
}

/// The sources that are read below a root, and behind a stroke what is left out; or the fault. Where memory ran out it
/// is called again, and the second answer counts; so it is with those below.
fn read_text<R: Threads + Wait, F: ReadFiles + Sync>(
    readers: &Readers<'_, R, NoGate, F>,
    root: &str,
) -> Result<String, AllocError> {
    let answer = match read_root(readers, root) {
        Err(LoadFault::Memory) => read_root(readers, root),
        answer => answer,
    };
    match answer {
        Ok(below) => text_of_files(readers.alloc, &below.files, &below.unread),
        Err(fault) => fault_text(readers.alloc, fault),
    }
}

/// Adds the files of a tree, and behind a stroke what is left out.
fn add_whole(text: &mut String, tree: &Tree, unread: &[UnreadEntry]) -> Result<(), AllocError> {
    add_tree(text, tree)?;
    add_unread(text, unread)
}

/// The files of a tree, and behind a stroke what is left out.
fn text_of_tree(alloc: Global, tree: &Tree, unread: &[UnreadEntry]) -> Result<String, AllocError> {
    let mut text = String::new(alloc);
    add_whole(&mut text, tree, unread)?;
    Ok(text)
}

/// The files of the tree below roots, and behind a stroke what is left out; or the fault.
fn tree_text<R: Threads + Wait, F: ReadFiles + Sync>(
    readers: &Readers<'_, R, NoGate, F>,
    root: &str,
    included: &[String],
) -> Result<String, AllocError> {
    let answer = match load_tree(readers, root, included) {
        Err(LoadFault::Memory) => load_tree(readers, root, included),
        answer => answer,
    };
    match answer {
        Ok(loaded) => text_of_tree(readers.alloc, &loaded.tree, &loaded.unread),
        Err(fault) => fault_text(readers.alloc, fault),
    }
}

/// Adds the paths of the files below each root.
fn add_each(text: &mut String, loaded: &LoadedTree) -> Result<(), AllocError> {
    add_paths(text, &loaded.own)?;
    for paths in &loaded.others {
        add_paths(text, paths)?;
    }
    Ok(())
}

/// The files of a tree, what is left out, and the paths of the files below each root.
fn text_of_each(alloc: Global, loaded: &LoadedTree) -> Result<String, AllocError> {
    let mut text = text_of_tree(alloc, &loaded.tree, &loaded.unread)?;
    add_each(&mut text, loaded)?;
    Ok(text)
}

/// The same by `load_tree_with_paths`, with the paths of the files below each root behind it.
fn each_text<R: Threads + Wait, F: ReadFiles + Sync>(
    readers: &Readers<'_, R, NoGate, F>,
    root: &str,
    included: &[String],
) -> Result<String, AllocError> {
    let answer = match load_tree_with_paths(readers, root, included) {
        Err(LoadFault::Memory) => load_tree_with_paths(readers, root, included),
        answer => answer,
    };
    match answer {
        Ok(loaded) => text_of_each(readers.alloc, &loaded),
        Err(fault) => fault_text(readers.alloc, fault),
    }
}

/// A root, whether what can't be read is left out, and what is read or the fault.
const READ: [(&str, bool, &str); 10] = [
    ("names", false, "names: Unreadable"),
    ("names", true, "a.proto | \\xe9.proto "),
    ("locks", false, "locks: Unreadable"),
    ("locks", true, "a.proto | locked/ "),
    ("gone", false, "gone.proto: Unreadable"),
    ("gone", true, "a.proto gone.proto? | gone.proto "),
    ("all", false, "all: Unreadable"),
    (
        "all",
        true,
        "a.proto deep/b.proto gone.proto? | \\xe9.proto deep/\\xff locked/ gone.proto ",
    ),
    ("nowhere", false, "nowhere: Unreadable"),
    ("nowhere", true, "nowhere: Unreadable"),
];

/// A root and an included one, and the tree where what can't be read is left out.
type Row = (&'static str, &'static str, &'static str);

// The folders of `names` and `all` are said to be one, and those of `alike` and `other` two.
const TREES: [Row; 10] = [
    (
        "all",
        "all",
        "a.proto deep/b.proto gone.proto? | \\xe9.proto deep/\\xff gone.proto locked/ ",
    ),
    (
        "gone",
        "names",
        "a.proto gone.proto? | \\xe9.proto gone.proto ",
    ),
    // Of one path, the first counts, be it one that can't be read.
    ("gone", "there", "a.proto gone.proto? | gone.proto "),
    ("there", "gone", "gone.proto a.proto | gone.proto "),
    (
        "locks",
        "all",
        "a.proto deep/b.proto gone.proto? | \\xe9.proto deep/\\xff gone.proto locked/ ",
    ),
    (
        "names",
        "all",
        "a.proto deep/b.proto gone.proto? | \\xe9.proto deep/\\xff gone.proto locked/ ",
    ),
    (
        "alike",
        "other",
        "a.proto | \\xe9\\xff \\xe9\\xff \\xe9\\xff \\xe9\\xff ",
    ),
    ("bad", "bad", "a.proto | a\\x09b.proto! "),
    ("names", "nowhere", "nowhere: Unreadable"),
    ("nowhere", "names", "nowhere: Unreadable"),
];

/// The same, with the paths below each.
const EACH: [Row; 2] = [
    (
        "gone",
        "all",
        "a.proto gone.proto? deep/b.proto | \\xe9.proto deep/\\xff gone.proto locked/ | a.proto gone.proto | a.proto deep/b.proto gone.proto ",
    ),
    ("locks", "nowhere", "nowhere: Unreadable"),
];

/// What can be read of all that is said to be there.
const MADE: [&str; 9] = [
    "names/a.proto",
    "locks/a.proto",
    "gone/a.proto",
    "there/gone.proto",
    "all/a.proto",
    "all/deep/b.proto",
    "alike/a.proto",
    "bad/a.proto",
    "bad/a\tb.proto",
];

/// The folders of that.
const PLACES: [&str; 8] = [
    "names", "locks", "gone", "there", "all", "all/deep", "alike", "bad",
];

/// Removes what is made.
fn remove_all<S: Files + AllocGlobal>(system: &S) {
    for place in &PLACES {
        let _ = remove_again(system, *place);
    }
}

/// Sees what is read below each root, and the trees, on workers.
fn see_all<R: Threads + Wait + Abort, F: ReadFiles + Sync>(
    rt: &R,
    alloc: Global,
    workers: Workers,
    files: &F,
) -> Result<(), AllocError> {
    for (root, leaves_out, due) in &READ {
        let readers = Readers {
            rt,
            alloc,
            workers,
            gate: &NoGate,
            files,
            leaves_out: *leaves_out,
        };
        let found = read_text(&readers, *root)?;
        see(rt, found.as_str() == *due, found.as_str());
    }
    see_trees(rt, alloc, workers, files)
}

/// A list of one text.
pub(crate) fn list_of(alloc: Global, text: &str) -> Result<Vec<String>, AllocError> {
    let mut list = Vec::new(alloc);
    list.push(String::from_str(alloc, text)?)?;
    Ok(list)
}

/// Sees the tree of a row.
fn see_tree<R: Threads + Wait + Abort, F: ReadFiles + Sync>(
    readers: &Readers<'_, R, NoGate, F>,
    row: &Row,
) -> Result<(), AllocError> {
    let roots = list_of(readers.alloc, row.1)?;
    let found = tree_text(readers, row.0, &roots)?;
    see(readers.rt, found.as_str() == row.2, found.as_str());
    Ok(())
}

/// Sees the tree of a row, and the paths below each root.
fn see_each<R: Threads + Wait + Abort, F: ReadFiles + Sync>(
    readers: &Readers<'_, R, NoGate, F>,
    row: &Row,
) -> Result<(), AllocError> {
    let roots = list_of(readers.alloc, row.1)?;
    let found = each_text(readers, row.0, &roots)?;
    see(readers.rt, found.as_str() == row.2, found.as_str());
    Ok(())
}

/// Sees the trees.
fn see_trees<R: Threads + Wait + Abort, F: ReadFiles + Sync>(
    rt: &R,
    alloc: Global,
    workers: Workers,
    files: &F,
) -> Result<(), AllocError> {
    let readers = Readers {
        rt,
        alloc,
        workers,
        gate: &NoGate,
        files,
        leaves_out: true,
    };
    for row in &TREES {
        see_tree(&readers, row)?;
    }
    for row in &EACH {
        see_each(&readers, row)?;
    }
    Ok(())
}

/// Makes what can be read.
fn make<S: Files>(system: &S) -> io::Result<()> {
    for place in &PLACES {
        fs::create_dir(system, *place)?;
    }
    for path in &MADE {
        fs::write(system, *path, *path)?;
    }
    Ok(())
}

/// Sees what is read and the trees, on one worker and on more.
fn see_by_workers<R: Threads + Wait + Abort, F: ReadFiles + Sync>(
    rt: &R,
    alloc: Global,
    files: &F,
) -> Result<(), AllocError> {
    for count in &[1usize, 3] {
        if let Some(workers) = Workers::new(*count) {
            see_all(rt, alloc, workers, files)?;
        }
    }
    Ok(())
}

#[test]
fn what_cannot_be_read_is_left_out(rt: HostRuntime) -> Result<(), Fail> {
    // What an earlier run has left that didn't come to its end.
    remove_all(&rt);
    make(&rt)?;
    let system = SystemFiles::new(&rt);
    see_by_workers(&rt, rt.alloc(), &Said { files: &system })?;
    remove_all(&rt);
    Ok(())
}
