//! A tree of sources and included files, and what is refused.

use crate::roots::see;
use crate::tree_calls::{fault_of, tree_of};
use source_tree::{Tree, TreeFault, is_good_path};
use std::alloc::{AllocError, Global};
use std::test::Fail;
use test_kit::sources_of;

// The first file: of the sources `z.proto` and `y.proto` comes `y.proto` first, which holds a 2. The last
// two are included; one with a source's path doesn't count, and of two with one path the first listed does.
const DUE: [(&str, &[u8]); 4] = [
    ("y.proto", b"2"),
    ("z.proto", b"1"),
    ("a.proto", b"4"),
    ("b.proto", b"3"),
];

/// Whether a tree has the files that are due, of which the first two are sources.
fn is_due(tree: &Tree) -> bool {
    for number in 0..tree.file_count() {
        let is = match DUE.get(number) {
            Some((path, bytes)) => tree.path(number) == *path && *tree.bytes(number) == **bytes,
            None => false,
        };
        if !is || tree.is_included(number) != (number >= 2) {
            return false;
        }
    }
    tree.file_count() == 4 && tree.source_count() == 2
}

/// The sources, in the form of `test_kit`, and the included files.
const SOURCES: &str = "z.proto\n1|y.proto\n2";

const INCLUDED: &str = "b.proto\n3|a.proto\n4|y.proto\n5|b.proto\n6";

#[test]
fn sources_and_included_files(rt: HostRuntime) -> Result<(), Fail> {
    let alloc = rt.alloc();
    let sources = sources_of(alloc, SOURCES)?;
    let included = sources_of(alloc, INCLUDED)?;
    let is = match tree_of(alloc, sources, included) {
        Some(tree) => is_due(&tree),
        None => false,
    };
    see(&rt, is, "tree");
    Ok(())
}

/// What sources are refused for.
fn fault_of_files(alloc: Global, files: &str) -> Result<Option<TreeFault>, AllocError> {
    fault_of(alloc, sources_of(alloc, files)?)
}

/// The fault of files, asked for again if memory runs out.
fn fault_again(alloc: Global, files: &str) -> Result<Option<TreeFault>, AllocError> {
    match fault_of_files(alloc, files) {
        Err(_) => fault_of_files(alloc, files),
        fault => fault,
    }
}

/// Two sources each, the first with a path that no file may have.
const BAD: [&str; 5] = [
    "/a.proto\n1|a.proto\n2",
    "a//b.proto\n1|a.proto\n2",
    "../a.proto\n1|a.proto\n2",
    "a.txt\n1|a.proto\n2",
    "\n1|a.proto\n2",
];

/// Paths, and whether each is a good one.
const PATHS: [(&str, bool); 8] = [
    ("a.proto", true),
    ("b/.c/a.proto", true),
    (".proto", true),
    ("/a.proto", false),
    ("a/./b.proto", false),
    ("a/", false),
    ("a\u{1f}.proto", false),
    ("a.PROTO", false),
];

#[test]
fn good_paths_are_told(rt: HostRuntime) -> Result<(), Fail> {
    for (path, is_good) in &PATHS {
        see(&rt, is_good_path(path) == *is_good, path);
    }
    Ok(())
}

#[test]
fn bad_paths_and_two_sources_with_one_path(rt: HostRuntime) -> Result<(), Fail> {
    for files in &BAD {
        let fault = fault_again(rt.alloc(), files)?;
        see(&rt, fault == Some(TreeFault::BadPath(0)), files);
    }
    let fault = fault_again(rt.alloc(), "a.proto\n1|a.proto\n2")?;
    see(&rt, fault == Some(TreeFault::SamePath(1)), "one path");
    let fault = fault_again(rt.alloc(), "a.proto\n1|b.proto\n2")?;
    see(&rt, fault.is_none(), "two paths");
    Ok(())
}

/// Faults, and how they are displayed.
const DISPLAYED: [(TreeFault, &str); 4] = [
    (TreeFault::TooMany, "more than 65536 files"),
    (TreeFault::BadPath(7), "the path of file 7 isn't a good one"),
    (
        TreeFault::SamePath(8),
        "source 8, in the order of paths, has the path of the one before it",
    ),
    (TreeFault::Memory, "memory ran out"),
];

/// Whether a fault is displayed as this sentence.
fn is_displayed(alloc: Global, fault: TreeFault, sentence: &str) -> Result<bool, AllocError> {
    let text = format!(in alloc; "{fault}")?;
    Ok(text.as_str() == sentence)
}

#[test]
fn faults_are_displayed_as_sentences(rt: HostRuntime) -> Result<(), Fail> {
    for (fault, sentence) in &DISPLAYED {
        see(&rt, is_displayed(rt.alloc(), *fault, sentence)?, sentence);
    }
    Ok(())
}
