//! The program `snapshot`: the sources of an index, and below each line what the index says about it.

ghost use Rattle.std.specs.Prelude.{◌≡◌, ◌&&◌, []};
ghost use Rattle.streams.specs.Writers.{writer};
ghost use Rattle.source_files.specs.Makers.{maker};
ghost use Rattle.programs.specs.Printing.{EndsCut, is_closed};
ghost use Rattle.programs.specs.Snapshotting.{EndsShown, RunsSnapshot, ShowsAndEnds, is_write};

use crate::files_fault::ToldBy;
use crate::files_report::report_files;
use crate::host::Host;
use crate::index_files::queries_of;
use crate::messages::report;
use crate::output::is_closed;
use crate::show_faults::{show_status, show_text};
use command_line::SnapshotOptions;
use scip_query::Queries;
use scip_site::{Folders, ShowFault, file_all, print_all};
use source_files::{Caused, LookAgain, MakeFiles, ReadFiles};
use std::alloc::Global;
use std::mem::forget;
use streams::Sink;

/// Gives the exit status. Why the documents aren't all shown, if they aren't, is said.
fn end<M: Sink>(alloc: Global, explain: bool, done: Result<(), ShowFault>, messages: &mut M) -> u8
    ensures { EndsShown explain done (writer M.Sink messages) result }
{
    match done {
        Ok(()) => 0,
        Err(fault) => report(
            show_text(alloc, fault, explain),
            show_status(fault),
            messages,
        ),
    }
}

/// Whether a write failed.
fn is_write(done: &Result<(), ShowFault>) -> bool
    ensures { result ≡ is_write done.now }
{
    match done {
        Err(ShowFault::Write) => true,
        Err(ShowFault::Memory) | Ok(()) => false,
    }
}

/// Whether a write failed because the pipe that it goes to is closed by its reader.
fn is_dropped<W: Caused>(done: &Result<(), ShowFault>, out: &W) -> bool
    ensures { result ≡ (is_write done.now && is_closed (W.cause out.now)) }
{
    is_write(done) && is_closed(out)
}

/// Gives the exit status of what was printed. Why it isn't all, if it isn't, is said, unless the pipe is closed by its
/// reader, who wants no more.
fn end_printed<W: Caused, M: Sink>(
    alloc: Global,
    explain: bool,
    done: Result<(), ShowFault>,
    out: &W,
    messages: &mut M,
) -> u8
    ensures { EndsCut (is_write done && is_closed (W.cause out.now)) (EndsShown explain done
        (writer M.Sink messages) result)
        (writer M.Sink messages) result }
{
    if is_dropped(&done, out) {
        return 0;
    }
    end(alloc, explain, done, messages)
}

/// Prints the snapshots of an index's documents, or makes a file of each, as the options say, and gives the
/// exit status.
fn show<R, F: ReadFiles, W: Sink + Caused, O: MakeFiles, M: Sink>(
    host: &Host<'_, R, F>,
    options: &SnapshotOptions,
    queries: &Queries,
    out: &mut W,
    made: &mut O,
    messages: &mut M,
) -> u8
    ensures { ShowsAndEnds (F.gives host.now.files.now) W.cause options.now queries.now (writer W.Sink out)
        (maker O.MakeFiles made) (writer M.Sink messages) result }
{
    let root = options.root.as_str();
    match &options.to {
        Some(to) => {
            let folders = Folders {
                root,
                to: to.as_str(),
            };
            let done = file_all(host.alloc, host.files, &folders, queries, made, messages);
            end(host.alloc, options.explain, done, messages)
        }
        None => {
            let done = print_all(host.alloc, host.files, root, queries, out, messages);
            end_printed(host.alloc, options.explain, done, out, messages)
        }
    }
}

/// Reads the index that files hold, prints the snapshots of its documents or makes a file of each, as the options
/// say, and gives the exit status. It reports each document that is left out. If it stops early, it reports why, but of
/// a pipe that is closed by its reader. The memory of the index isn't given back.
pub(crate) fn snapshot<R, F: ReadFiles + LookAgain, W: Sink + Caused, O: MakeFiles, M: Sink>(
    host: &Host<'_, R, F>,
    options: &SnapshotOptions,
    out: &mut W,
    made: &mut O,
    messages: &mut M,
) -> u8
    ensures { RunsSnapshot (F.gives host.now.files.now) (F.blames host.now.files.now [] []) W.cause options.now
        (writer W.Sink out) (maker O.MakeFiles made) (writer M.Sink messages) result }
{
    let paths = options.indexes.as_slice();
    match queries_of(host.alloc, host.files, paths) {
        Ok(queries) => {
            let status = show(host, options, &queries, out, made, messages);
            // What was read goes with the process.
            forget(queries);
            status
        }
        Err(fault) => {
            let explain = options.explain;
            report_files(host, &fault, ToldBy::Other, paths, explain, messages)
        },
    }
}
