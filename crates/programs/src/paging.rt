//! The program `pages`: pages of the sources of an index, to be read in a browser.

ghost use Rattle.std.specs.Prelude.{◌≡◌, [], IfOk, string_bytes};
ghost use Rattle.streams.specs.Writers.{writer};
ghost use Rattle.programs.specs.Paging.{
  EndsPaged,
  Fills,
  Finishes,
  MakesAndEnds,
  ReadsAndMakes,
  RunsPages,
  folder_places,
  taken_told,
};

use crate::files_fault::ToldBy;
use crate::files_report::report_files;
use crate::host::Host;
use crate::index_files::queries_of;
use crate::messages::report;
use crate::site_faults::{site_status, site_text};
use command_line::PagesOptions;
use protoscip::{MEMORY_STATUS, STREAM_STATUS, path_line};
use scip_query::Queries;
use scip_site::{Folders, ShowFault, SiteFault, make_pages};
use source_files::{EmptyFolders, FolderPlace, LookAgain, ReadFiles};
use std::alloc::{AllocError, Global};
use streams::{Failed, Sink};

/// The line, without its end, that says of a folder for pages that it isn't free, explained where that is
/// asked for.
fn taken_text(alloc: Global, out: &str, explain: bool) -> Result<String, AllocError>
    ensures { IfOk result (λ text. string_bytes text ≡ taken_told explain out.now) }
{
    let mut text = path_line(alloc, out, "NotEmpty")?;
    if explain {
        text.push_str("\nit must be an empty folder, or not exist yet")?;
    }
    Ok(text)
}

/// Puts a folder at its place if all pages are made in it, and else gives it up. `Write`: the place refuses it.
#[tactic(auto, using(crate::proofs::PlacingRules::of_folders))]
fn finish<P: FolderPlace>(
    done: Result<(), SiteFault>,
    out: &str,
    folder: P::Folder,
    places: &mut P,
) -> Result<(), SiteFault>
    ensures { Finishes (folder_places P.FolderPlace P.Folder.MakeFiles places.old places.new)
        out.now folder done result }
{
    match done {
        Ok(()) => match places.put_folder(out, folder) {
            Ok(()) => Ok(()),
            Err(Failed) => Err(SiteFault::Show(ShowFault::Write)),
        },
        Err(fault) => {
            places.leave_folder(folder);
            Err(fault)
        }
    }
}

/// Makes the pages of an index's documents in a folder, and puts it at its place.
fn fill<R, F: ReadFiles, P: FolderPlace, M: Sink>(
    host: &Host<'_, R, F>,
    options: &PagesOptions,
    queries: &Queries,
    places: &mut P,
    messages: &mut M,
) -> Result<(), SiteFault>
    ensures { Fills (F.gives host.now.files.now) (string_bytes options.now.root) (string_bytes options.now.out)
        queries.now
        (folder_places P.FolderPlace P.Folder.MakeFiles places.old places.new)
        (writer M.Sink messages) result }
{
    let out = options.out.as_str();
    let mut folder = places.begin_folder(host.alloc, out)?;
    let folders = Folders {
        root: options.root.as_str(),
        to: "",
    };
    let done = make_pages(
        host.alloc,
        host.files,
        &folders,
        queries,
        &mut folder,
        messages,
    );
    finish(done, out, folder, places)
}

/// Gives the exit status. Why the pages aren't all made, if they aren't, is said.
fn end<M: Sink>(alloc: Global, explain: bool, done: Result<(), SiteFault>, messages: &mut M) -> u8
    ensures { EndsPaged explain done (writer M.Sink messages) result }
{
    match done {
        Ok(()) => 0,
        Err(fault) => report(
            site_text(alloc, fault, explain),
            site_status(fault),
            messages,
        ),
    }
}

/// Makes the pages of an index's documents, and gives the exit status.
fn make<R, F: ReadFiles, P: FolderPlace, M: Sink>(
    host: &Host<'_, R, F>,
    options: &PagesOptions,
    queries: &Queries,
    places: &mut P,
    messages: &mut M,
) -> u8
    ensures { MakesAndEnds (F.gives host.now.files.now) options.now queries.now
        (folder_places P.FolderPlace P.Folder.MakeFiles places.old places.new)
        (writer M.Sink messages) result }
{
    let done = fill(host, options, queries, places, messages);
    end(host.alloc, options.explain, done, messages)
}

/// Reads the index that files hold, makes the pages of its documents, and gives the exit status. Why it
/// stops, if it does, is said.
fn read_and_make<R, F: ReadFiles + LookAgain, P: FolderPlace, M: Sink>(
    host: &Host<'_, R, F>,
    options: &PagesOptions,
    places: &mut P,
    messages: &mut M,
) -> u8
    ensures { ReadsAndMakes (F.gives host.now.files.now) (F.blames host.now.files.now [] []) options.now
        (folder_places P.FolderPlace P.Folder.MakeFiles places.old places.new)
        (writer M.Sink messages) result }
{
    let paths = options.indexes.as_slice();
    match queries_of(host.alloc, host.files, paths) {
        Ok(queries) => make(host, options, &queries, places, messages),
        Err(fault) => {
            let explain = options.explain;
            report_files(host, &fault, ToldBy::Other, paths, explain, messages)
        },
    }
}

/// Makes the pages of the documents of an index in a folder, puts it where nothing is yet, and gives the exit status.
/// Each document without a page is told. Why it stops, if it does, is said: first that the place isn't free, and then
/// nothing is read. After every fault the place is as it was.
pub(crate) fn pages<R, F: ReadFiles + EmptyFolders + LookAgain, P: FolderPlace, M: Sink>(
    host: &Host<'_, R, F>,
    options: &PagesOptions,
    places: &mut P,
    messages: &mut M,
) -> u8
    ensures { RunsPages (F.frees host.now.files.now) (F.gives host.now.files.now)
        (F.blames host.now.files.now [] []) options.now
        (folder_places P.FolderPlace P.Folder.MakeFiles places.old places.new)
        (writer M.Sink messages) result }
{
    let out = options.out.as_str();
    match host.files.is_free(out) {
        Ok(true) => read_and_make(host, options, places, messages),
        Ok(false) => {
            let text = taken_text(host.alloc, out, options.explain);
            report(text, STREAM_STATUS, messages)
        }
        Err(AllocError) => report(Err(AllocError), MEMORY_STATUS, messages),
    }
}
