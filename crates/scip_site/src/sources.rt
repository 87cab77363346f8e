//! The sources of the documents with some paths.

ghost use Rattle.std.specs.Prelude.{◌≡◌, ℕ, IfOk, OnOk, List, Option, Some, map};
ghost use Rattle.scip_query.specs.CommandViews.{text_of};
ghost use Rattle.scip_query.specs.MoreViews.{answer_view};
ghost use Rattle.scip_site.specs.Snapshots.{path_in};
ghost use Rattle.scip_site.specs.Sources.{
  AreSourcesFor,
  AreSourcesOf,
  IsAdded,
  IsSourceOf,
  is_there,
  source_with,
  unit_named,
};

use crate::snapshot_outcome::path_in;
use basics::OwnedText;
use scip_pages::{ColumnUnit, Source, has_path, is_path_below, paths_of, unit_of};
use scip_query::{Answer, Queries};
use source_files::ReadFiles;
use std::alloc::{AllocError, Global};

/// What the columns of the document with a path count, if there is one, and it says so.
fn unit_named(queries: &Queries, path: &str) -> Option<ColumnUnit>
    ensures { result ≡ unit_named queries.now path.now }
{
    match queries.document(path) {
        Some(document) => unit_of(document.position_encoding),
        None => None,
    }
}

/// The source with these bytes, if they are a text.
fn source_in(
    alloc: Global,
    path: &str,
    unit: ColumnUnit,
    bytes: &[u8],
) -> Result<Option<Source>, AllocError>
    ensures { IfOk result (λ source. source ≡ source_with path.now (Some unit) (Some bytes.now)) }
{
    match str::from_utf8(bytes) {
        Ok(text) => Ok(Some(Source {
            path: OwnedText::copy_of(alloc, path)?,
            unit,
            text: OwnedText::copy_of(alloc, text)?,
        })),
        Err(_) => Ok(None),
    }
}

/// The same, if it is known what the document's columns count.
fn source_with(
    alloc: Global,
    path: &str,
    unit: Option<ColumnUnit>,
    bytes: &[u8],
) -> Result<Option<Source>, AllocError>
    ensures { IfOk result (λ source. source ≡ source_with path.now unit (Some bytes.now)) }
{
    match unit {
        Some(unit) => source_in(alloc, path, unit, bytes),
        None => Ok(None),
    }
}

/// The source of the document with a path that stays below the root, if it can be read.
fn source_below<F: ReadFiles>(
    alloc: Global,
    files: &F,
    root: &str,
    queries: &Queries,
    path: &str,
) -> Result<Option<Source>, AllocError>
    ensures { IfOk result (λ source. (read : Option (List ℕ)) × F.gives files.now (path_in root.now path.now) read
        × (source ≡ source_with path.now (unit_named queries.now path.now) read)) }
{
    let file = path_in(alloc, root, path)?;
    match files.read_file(alloc, file.as_str())? {
        Some(bytes) => source_with(alloc, path, unit_named(queries, path), bytes.as_slice()),
        None => Ok(None),
    }
}

/// The source of the document with a path below a root, if it can be read.
fn source_of<F: ReadFiles>(
    alloc: Global,
    files: &F,
    root: &str,
    queries: &Queries,
    path: &str,
) -> Result<Option<Source>, AllocError>
    ensures { IfOk result (IsSourceOf (F.gives files.now) root.now queries.now path.now) }
{
    if is_path_below(path) {
        source_below(alloc, files, root, queries, path)
    } else {
        Ok(None)
    }
}

/// Whether one of some sources has a path.
fn is_there(sources: &[Source], path: &str) -> bool
    ensures { result ≡ is_there sources.now path.now }
{
    sources.iter().any(|source| has_path(source, path))
}

/// Appends the source of the document with a path below a root, if it isn't there and can be read.
fn add_source<F: ReadFiles>(
    alloc: Global,
    files: &F,
    root: &str,
    queries: &Queries,
    sources: &mut Vec<Source>,
    path: &str,
) -> Result<(), AllocError>
    ensures { OnOk result (IsAdded (F.gives files.now) root.now queries.now path.now sources.old.items
        sources.new.items) }
{
    if is_there(sources.as_slice(), path) {
        return Ok(());
    }
    match source_of(alloc, files, root, queries, path)? {
        Some(source) => Ok(sources.push(source)?),
        None => Ok(()),
    }
}

/// The sources of the documents with these paths, whose files are below a root. One that can't be read, isn't UTF-8 or
/// whose document doesn't say what its columns count is left out.
pub fn sources_of<F: ReadFiles>(
    alloc: Global,
    files: &F,
    root: &str,
    queries: &Queries,
    paths: &[&str],
) -> Result<Vec<Source>, AllocError>
    ensures { IfOk result (λ sources. AreSourcesOf (F.gives files.now) root.now queries.now
        (map text_of paths.now) sources.items) }
{
    let mut sources = Vec::new(alloc);
    for path in paths {
        add_source(alloc, files, root, queries, &mut sources, *path)?;
    }
    Ok(sources)
}

/// The sources of the documents whose places an answer shows, whose files are below a root. An outline is of the
/// document with this path. A source that can't be read, isn't UTF-8 or whose document doesn't say what its columns count
/// is left out.
pub fn sources_for<F: ReadFiles>(
    alloc: Global,
    files: &F,
    root: &str,
    queries: &Queries,
    path: &str,
    answer: &Answer<'_>,
) -> Result<Vec<Source>, AllocError>
    ensures { IfOk result (λ sources. AreSourcesFor (F.gives files.now) root.now queries.now path.now
        (answer_view answer.now) sources.items) }
{
    let paths = paths_of(alloc, path, answer)?;
    sources_of(alloc, files, root, queries, paths.as_slice())
}
