//! The most files of a tree, and the longest path.

use crate::roots::see;
use crate::tree_calls::fault_of;
use source_tree::{Source, Tree, TreeFault};
use std::alloc::{AllocError, Global};
use std::test::Fail;
use test_kit::sources_of;

/// So many files without a path, which take no memory of their own.
fn nameless(alloc: Global, count: usize) -> Result<Vec<Source>, AllocError> {
    let mut files = Vec::with_capacity(alloc, count)?;
    for _ in 0..count {
        let file = Source {
            path: String::new(alloc),
            bytes: Vec::new(alloc),
            is_unread: false,
        };
        files.push(file)?;
    }
    Ok(files)
}

/// The fault of so many files without a path.
fn fault_of_many(alloc: Global, count: usize) -> Result<Option<TreeFault>, AllocError> {
    fault_of(alloc, nameless(alloc, count)?)
}

/// What a source is refused for whose path has so many bytes and the ending.
fn fault_of_long(alloc: Global, before: usize) -> Result<Option<TreeFault>, AllocError> {
    let mut path = String::new(alloc);
    for _ in 0..before {
        path.push('a')?;
    }
    path.push_str(".proto")?;
    fault_of(alloc, sources_of(alloc, path.as_str())?)
}

/// Whether 65,536 files are judged by their paths, and one more is too many; and whether a path of
/// 4,096 bytes is taken, and one more is too long.
fn are_limits(alloc: Global) -> Result<bool, AllocError> {
    Ok(
        fault_of_many(alloc, 65_536)? == Some(TreeFault::BadPath(0))
            && fault_of_many(alloc, 65_537)? == Some(TreeFault::TooMany)
            && fault_of_long(alloc, 4_090)?.is_none()
            && fault_of_long(alloc, 4_091)? == Some(TreeFault::BadPath(0)),
    )
}

#[test]
fn most_files_and_the_longest_path(rt: HostRuntime) -> Result<(), Fail> {
    let are = match are_limits(rt.alloc()) {
        Err(_) => are_limits(rt.alloc())?,
        Ok(are) => are,
    };
    see(&rt, are, "limits");
    Ok(())
}

/// So many files, the last of them first, each with a path of its own.
fn numbered(alloc: Global, count: usize) -> Result<Vec<Source>, AllocError> {
    let mut files = Vec::with_capacity(alloc, count)?;
    for number in 0..count {
        let file = Source {
            path: format!(in alloc; "{:05}.proto", count - number)?,
            bytes: Vec::new(alloc),
            is_unread: false,
        };
        files.push(file)?;
    }
    Ok(files)
}

/// Whether a tree has 40,000 sources and no other file. Each included file has the path of a source.
fn is_whole(tree: &Tree) -> bool {
    let count = tree.file_count();
    if tree.source_count() != 40_000 || count != 40_000 {
        return false;
    }
    tree.path(0) == "00001.proto" && tree.path(39_999) == "40000.proto"
}

/// Whether many files make a tree, which they do in time.
fn are_taken(alloc: Global) -> Result<bool, AllocError> {
    let sources = numbered(alloc, 40_000)?;
    let included = numbered(alloc, 25_536)?;
    match Tree::with_included(alloc, sources, included) {
        Ok(tree) => Ok(is_whole(&tree)),
        Err((_, TreeFault::Memory)) => Err(AllocError),
        Err(_) => Ok(false),
    }
}

#[test]
fn many_files(rt: HostRuntime) -> Result<(), Fail> {
    let are = match are_taken(rt.alloc()) {
        Err(_) => are_taken(rt.alloc())?,
        Ok(are) => are,
    };
    see(&rt, are, "whole");
    Ok(())
}
