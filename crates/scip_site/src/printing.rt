//! Snapshots that are printed.

ghost use Rattle.std.specs.Prelude.{◌≡◌, ◌++◌, codes, map, IfOk};
ghost use Rattle.scip_pages.specs.Snapshot.{flat_byte};
ghost use Rattle.streams.specs.Writers.{writer};
ghost use Rattle.scip_site.specs.Showing.{ArePrinted, AreCutOff, Goes, ShowsOne, Shows};

use crate::left_out::tell;
use crate::show_fault::ShowFault;
use crate::snapshot_outcome::{Asked, outcome_of};
use scip_pages::push_flat;
use scip_query::Queries;
use source_files::ReadFiles;
use std::alloc::{AllocError, Global};
use streams::{Sink, write_all};

/// A path on a line of its own, with blanks for its line feeds, and a text.
fn below_its_path(alloc: Global, path: &str, text: &[u8]) -> Result<Vec<u8>, AllocError>
    ensures { IfOk result (λ all. all.items ≡ map flat_byte path.now ++ codes "\n" ++ text.now) }
{
    let mut all = Vec::new(alloc);
    push_flat(&mut all, path.as_bytes())?;
    all.extend_from_slice(b"\n")?;
    all.extend_from_slice(text)?;
    Ok(all)
}

/// Prints the snapshot of a document.
fn print_text<W: Sink>(alloc: Global, path: &str, text: &[u8], out: &mut W) -> Result<(), ShowFault>
    ensures { Goes (ArePrinted (writer W.Sink out))
        (AreCutOff (writer W.Sink out)) (out.new ≡ out.old) path.now text.now result }
{
    let all = below_its_path(alloc, path, text)?;
    match write_all(out, all.as_slice()) {
        Ok(()) => Ok(()),
        Err(_) => Err(ShowFault::Write),
    }
}

/// Prints the snapshot of a document, or says why the document is left out.
fn print_one<F: ReadFiles, W: Sink, M: Sink>(
    alloc: Global,
    files: &F,
    asked: &Asked<'_>,
    out: &mut W,
    messages: &mut M,
) -> Result<(), ShowFault>
    ensures { ShowsOne (F.gives files.now) asked.now.root.now asked.now.queries.now asked.now.number asked.now.path.now
        (ArePrinted (writer W.Sink out)) (AreCutOff (writer W.Sink out)) (out.new ≡ out.old) (writer M.Sink messages)
        result }
{
    match outcome_of(alloc, files, asked)? {
        Ok(text) => print_text(alloc, asked.path, text.as_slice(), out),
        Err(left) => tell(alloc, asked.path, left, messages),
    }
}

/// Prints the snapshot of each document of an index, in its order, below the document's path; the sources are below a
/// root. A document whose source isn't there, or whose ranges don't fit it, is reported and left out.
///
/// - `Write`: a write failed, after a first part of what there is to print.
/// - `Memory`: memory ran out, after the snapshots of a first part of the documents.
pub fn print_all<F: ReadFiles, W: Sink, M: Sink>(
    alloc: Global,
    files: &F,
    root: &str,
    queries: &Queries,
    out: &mut W,
    messages: &mut M,
) -> Result<(), ShowFault>
    ensures { Shows (F.gives files.now) root.now queries.now (ArePrinted (writer W.Sink out))
        (AreCutOff (writer W.Sink out)) (writer M.Sink messages) result }
{
    for (number, document) in queries.documents().iter().enumerate() {
        let asked = Asked {
            root,
            queries,
            number,
            path: document.relative_path.as_str(),
        };
        print_one(alloc, files, &asked, out, messages)?;
    }
    Ok(())
}
