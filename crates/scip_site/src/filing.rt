//! Snapshots that go to files of their own.

ghost use Rattle.std.specs.Prelude.{[]};
ghost use Rattle.streams.specs.Writers.{writer};
ghost use Rattle.source_files.specs.Makers.{maker};
ghost use Rattle.scip_site.specs.Showing.{AreFiled, AreFiledButOne, Goes, ShowsOne, Shows};

use crate::left_out::tell;
use crate::show_fault::ShowFault;
use crate::snapshot_outcome::{Asked, outcome_of, path_in};
use scip_query::Queries;
use source_files::{MakeFiles, ReadFiles};
use std::alloc::Global;
use streams::Sink;

/// The folder below which sources are, and that below which their snapshots go. An empty name is that of the folder
/// where the program runs.
#[derive(Clone, Copy)]
pub struct Folders<'a> {
    /// Below it are the sources.
    pub root: &'a str,
    /// Below it go the snapshots.
    pub to: &'a str,
}

/// Makes the file with the snapshot of a document.
fn file_text<O: MakeFiles>(
    alloc: Global,
    folder: &str,
    path: &str,
    text: &[u8],
    made: &mut O,
) -> Result<(), ShowFault>
    ensures { Goes (AreFiled (maker O.MakeFiles made) folder.now)
        (AreFiledButOne (maker O.MakeFiles made) folder.now) (AreFiled (maker O.MakeFiles made)
        folder.now []) path.now text.now result }
{
    let file = path_in(alloc, folder, path)?;
    if made.make_file(file.as_str(), text)? {
        Ok(())
    } else {
        Err(ShowFault::Write)
    }
}

/// Makes that file, or says why the document is left out.
fn file_one<F: ReadFiles, O: MakeFiles, M: Sink>(
    alloc: Global,
    files: &F,
    folder: &str,
    asked: &Asked<'_>,
    made: &mut O,
    messages: &mut M,
) -> Result<(), ShowFault>
    ensures { ShowsOne (F.gives files.now) asked.now.root.now asked.now.queries.now asked.now.number asked.now.path.now
        (AreFiled (maker O.MakeFiles made) folder.now) (AreFiledButOne (maker O.MakeFiles made)
        folder.now) (AreFiled (maker O.MakeFiles made) folder.now [])
        (writer M.Sink messages) result }
{
    match outcome_of(alloc, files, asked)? {
        Ok(text) => file_text(alloc, folder, asked.path, text.as_slice(), made),
        Err(left) => tell(alloc, asked.path, left, messages),
    }
}

/// Makes a file for each document of an index, in its order, below a folder, by the document's path and with its
/// snapshot; the sources are below a root. A document whose source isn't there, or whose ranges don't fit it, is
/// reported and left out.
///
/// - `Write`: a file can't be made; those of the documents before it are.
/// - `Memory`: memory ran out, after the files of a first part of the documents.
pub fn file_all<F: ReadFiles, O: MakeFiles, M: Sink>(
    alloc: Global,
    files: &F,
    folders: &Folders<'_>,
    queries: &Queries,
    made: &mut O,
    messages: &mut M,
) -> Result<(), ShowFault>
    ensures { Shows (F.gives files.now) folders.now.root.now queries.now
        (AreFiled (maker O.MakeFiles made) folders.now.to.now) (AreFiledButOne (maker O.MakeFiles made)
        folders.now.to.now) (writer M.Sink messages) result }
{
    for (number, document) in queries.documents().iter().enumerate() {
        let asked = Asked {
            root: folders.root,
            queries,
            number,
            path: document.relative_path.as_str(),
        };
        file_one(alloc, files, folders.to, &asked, made, messages)?;
    }
    Ok(())
}
