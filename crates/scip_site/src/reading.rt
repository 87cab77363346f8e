//! The sources of an index's documents, each read once.

ghost use Rattle.std.specs.Prelude.{◌≡◌, ◌++◌, [], ◌∷◌, false, OnOk};
ghost use Rattle.std.specs.List.{slice_get};
ghost use Rattle.std.specs.Option.{unwrap_or};
ghost use Rattle.streams.specs.Writers.{writer};
ghost use Rattle.scip_site.specs.Reading as spec;

use crate::no_page::{NoPage, tell};
use crate::page_outcome::{Wanted, outcome_of};
use crate::repeats::are_repeated;
use crate::show_fault::ShowFault;
use basics::OwnedText;
use scip_records::Document;
use source_files::ReadFiles;
use std::alloc::{AllocError, Global};
use streams::Sink;

/// Whether a flag is set; one that isn't there isn't.
fn is_set(flags: &[bool], number: usize) -> bool
    ensures { result ≡ unwrap_or (slice_get flags.now number) false }
{
    match flags.get(number) {
        Some(flag) => *flag,
        None => false,
    }
}

/// Appends a source, or none.
fn push_source(
    sources: &mut Vec<Option<OwnedText>>,
    source: Option<OwnedText>,
) -> Result<(), AllocError>
    ensures { OnOk result (sources.new.items ≡ sources.old.items ++ source ∷ []) }
{
    sources.push(source)?;
    Ok(())
}

/// Keeps what becomes of a document with a path, and tells why it has no page.
fn keep<M: Sink>(
    alloc: Global,
    path: &str,
    outcome: Result<OwnedText, NoPage>,
    sources: &mut Vec<Option<OwnedText>>,
    messages: &mut M,
) -> Result<(), ShowFault>
    ensures { spec.Keeps path.now outcome sources.old.items sources.new.items
        (writer M.Sink messages) result }
{
    match outcome {
        Ok(source) => {
            push_source(sources, Some(source))?;
            Ok(())
        }
        Err(why) => {
            push_source(sources, None)?;
            tell(alloc, path, why, messages)
        }
    }
}

/// Reads a document's source, and tells why it has no page.
fn read_one<F: ReadFiles, M: Sink>(
    alloc: Global,
    files: &F,
    wanted: &Wanted<'_>,
    sources: &mut Vec<Option<OwnedText>>,
    messages: &mut M,
) -> Result<(), ShowFault>
    ensures { spec.ReadsOne (F.gives files.now) wanted.now.root.now wanted.now.repeated wanted.now.document.now
        sources.old.items sources.new.items (writer M.Sink messages) result }
{
    let outcome = outcome_of(alloc, files, wanted)?;
    keep(
        alloc,
        wanted.document.relative_path.as_str(),
        outcome,
        sources,
        messages,
    )
}

/// Reads the sources of documents, in their order, of which it is known whether one before has their path.
fn read_each<F: ReadFiles, M: Sink>(
    alloc: Global,
    files: &F,
    root: &str,
    documents: &[Document],
    sources: &mut Vec<Option<OwnedText>>,
    messages: &mut M,
) -> Result<(), ShowFault>
    requires { sources.old.items ≡ [] }
    ensures { spec.ReadsAll (F.gives files.now) root.now documents.now sources.new.items
        (writer M.Sink messages) result }
{
    let repeats = are_repeated(alloc, documents)?;
    for (number, document) in documents.iter().enumerate() {
        let wanted = Wanted {
            root,
            document,
            repeated: is_set(&repeats, number),
        };
        read_one(alloc, files, &wanted, sources, messages)?;
    }
    Ok(())
}

/// The sources of documents, in their order; none of a document that has no page, which is told.
pub(crate) fn read_all<F: ReadFiles, M: Sink>(
    alloc: Global,
    files: &F,
    root: &str,
    documents: &[Document],
    messages: &mut M,
) -> Result<Vec<Option<OwnedText>>, ShowFault>
    ensures { spec.ReadsInto (F.gives files.now) root.now documents.now
        (writer M.Sink messages) (spec.listed_in result) }
{
    let mut sources = Vec::new(alloc);
    read_each(alloc, files, root, documents, &mut sources, messages)?;
    Ok(sources)
}
