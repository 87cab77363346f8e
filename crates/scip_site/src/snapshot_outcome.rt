//! The snapshot of a document whose source is below a root, or why the document is left out.

ghost use Rattle.std.specs.Prelude.{◌≡◌, ℕ, List, Option, Some, IfOk, string_bytes};
ghost use Rattle.source_files.specs.Roots.{path_below};
ghost use Rattle.scip_pages.specs.Snapshot.{snapshot_of};
ghost use Rattle.scip_site.specs.Snapshots.{IsOutcome, of_snapshot, of_source, outcome_view, path_in};

use crate::left_out::LeftOut;
use scip_pages::{SnapshotFault, is_path_below, snapshot};
use scip_query::Queries;
use source_files::ReadFiles;
use std::alloc::{AllocError, Global};

/// The document with a number and a path, of an index whose sources are below a root.
#[derive(Clone, Copy)]
pub(crate) struct Asked<'a> {
    pub root: &'a str,
    pub queries: &'a Queries,
    pub number: usize,
    pub path: &'a str,
}

/// A path below a root, for the system.
fn path_below(alloc: Global, root: &str, path: &str) -> Result<String, AllocError>
    ensures { IfOk result (λ below. string_bytes below ≡ path_below root.now path.now) }
{
    let mut below = String::from_str(alloc, root)?;
    below.push('/')?;
    below.push_str(path)?;
    Ok(below)
}

/// A path below a folder, for the system; an empty name is that of the folder where the program runs.
pub fn path_in(alloc: Global, folder: &str, path: &str) -> Result<String, AllocError>
    ensures { IfOk result (λ file. string_bytes file ≡ path_in folder.now path.now) }
{
    if folder.is_empty() {
        Ok(String::from_str(alloc, path)?)
    } else {
        path_below(alloc, folder, path)
    }
}

/// The snapshot of the document whose source this is.
fn text_of(
    alloc: Global,
    asked: &Asked<'_>,
    source: &str,
) -> Result<Result<Vec<u8>, LeftOut>, AllocError>
    ensures { IfOk result (λ outcome. outcome_view outcome ≡ of_snapshot
        (snapshot_of asked.now.queries.now asked.now.number source.now)) }
{
    match snapshot(alloc, asked.queries, asked.number, source) {
        Ok(text) => Ok(Ok(text)),
        Err(SnapshotFault::Memory) => Err(AllocError),
        Err(fault) => Ok(Err(LeftOut::NoSnapshot(fault))),
    }
}

/// What becomes of the document whose source has these bytes.
fn outcome_with(
    alloc: Global,
    asked: &Asked<'_>,
    bytes: &[u8],
) -> Result<Result<Vec<u8>, LeftOut>, AllocError>
    ensures { IfOk result (λ outcome. outcome_view outcome ≡ of_source asked.now.queries.now asked.now.number
        (Some bytes.now)) }
{
    match str::from_utf8(bytes) {
        Ok(source) => text_of(alloc, asked, source),
        Err(_) => Ok(Err(LeftOut::NotText)),
    }
}

/// What becomes of the document whose source is read, if its path is one below the root.
fn outcome_below<F: ReadFiles>(
    alloc: Global,
    files: &F,
    asked: &Asked<'_>,
) -> Result<Result<Vec<u8>, LeftOut>, AllocError>
    ensures { IfOk result (λ outcome. (source : Option (List ℕ)) × F.gives files.now
        (path_in asked.now.root.now asked.now.path.now) source × (outcome_view outcome ≡ of_source asked.now.queries.now
        asked.now.number source)) }
{
    let file = path_in(alloc, asked.root, asked.path)?;
    match files.read_file(alloc, file.as_str())? {
        Some(bytes) => outcome_with(alloc, asked, bytes.as_slice()),
        None => Ok(Err(LeftOut::Unreadable)),
    }
}

/// What becomes of a document: its snapshot, or why it is left out.
pub(crate) fn outcome_of<F: ReadFiles>(
    alloc: Global,
    files: &F,
    asked: &Asked<'_>,
) -> Result<Result<Vec<u8>, LeftOut>, AllocError>
    ensures { IfOk result (λ outcome. IsOutcome (F.gives files.now) asked.now.root.now asked.now.queries.now
        asked.now.number asked.now.path.now (outcome_view outcome)) }
{
    if is_path_below(asked.path) {
        outcome_below(alloc, files, asked)
    } else {
        Ok(Err(LeftOut::BadPath))
    }
}
