//! What the program does with its files and streams, and the exit status that it ends with.

ghost use Rattle.std.specs.Prelude.{◌≡◌, [], None, Result, IfSome, IfOk, IfErr, false, map, string_bytes};
ghost use Rattle.streams.specs.Readers.{IsReadBriefly, reader};
ghost use Rattle.streams.specs.Writers.{writer};
ghost use Rattle.source_files.specs.Makers.{making};
ghost use Rattle.command_line.specs.Requests.{
  ask_options,
  dump_options,
  explains,
  index_paths,
  index_request,
  join_options,
  out_path,
  pages_options,
  printed_text,
  refused_text,
  shell_options,
  snapshot_options,
};
ghost use Rattle.protoscip.specs.declared.fault.Fault.{Fault};
ghost use Rattle.protoscip.specs.Dump.{IsDumped, LeavesReader};
ghost use Rattle.protoscip.specs.Explanations.{explain_in};
ghost use Rattle.programs.specs.declared.query_fault.QueryFault.{QueryFault};
ghost use Rattle.programs.specs.Answering.{Answers};
ghost use Rattle.programs.specs.Asked.{is_synced, report_path};
ghost use Rattle.programs.specs.AskedOnce.{RunsAsked};
ghost use Rattle.programs.specs.Dumping.{EndsDump};
ghost use Rattle.programs.specs.Indexing.{Indexed, WritesNavigable};
ghost use Rattle.programs.specs.Joining.{RunsJoin};
ghost use Rattle.programs.specs.Messages.{Tells, memory_line, memory_status};
ghost use Rattle.programs.specs.NoSources.{NoneFoundBy};
ghost use Rattle.programs.specs.Paging.{RunsPages, folder_places};
ghost use Rattle.programs.specs.Placing.{place};
ghost use Rattle.programs.specs.Printing.{Prints, Refuses, is_closed};
ghost use Rattle.programs.specs.Queries.{Queried};
ghost use Rattle.programs.specs.Searches.{blamed_by, follows, found_by, links_followed, searched_by};
ghost use Rattle.programs.specs.Serving.{AnswersNavigable, Served};
ghost use Rattle.programs.specs.Snapshotting.{RunsSnapshot};

use crate::asking::ask;
use crate::dumping::dump_source;
use crate::host::Host;
use crate::indexing::index_searched;
use crate::joining::join;
use crate::messages::report;
use crate::output::print;
use crate::paging::pages;
use crate::places::Places;
use crate::query_fault::report_query;
use crate::querying::query;
use crate::serving::shell_searched;
use crate::snapshotting::snapshot;
use crate::statuses::COMMAND_LINE_STATUS;
use command_line::{IndexOptions, Links, ReportOptions, Request};
use protoscip::{MEMORY_STATUS, plain_line};
use source_files::{Caused, EmptyFolders, FolderPlace, LookAgain, MakeFiles, OutPlace, ReadFiles};
use std::alloc::AllocError;
use std::sync::Wait;
use std::thread::Threads;
use std::time::Clock;
use streams::{Feed, Sink, write_all};

/// Says why a command line is refused. What the stream of messages doesn't take is lost.
fn refuse<M: Sink>(text: &str, messages: &mut M) -> u8
    ensures { Refuses text.now (writer M.Sink messages) result }
{
    let _ = write_all(messages, text.as_bytes());
    COMMAND_LINE_STATUS
}

/// Answers commands about the index that files hold, and gives the exit status. If it stops early, it reports why,
/// explained if that is asked for.
fn answer<R, F: ReadFiles + LookAgain, I: Feed, W: Sink, M: Sink>(
    host: &Host<'_, R, F>,
    paths: &[String],
    explain: bool,
    input: &mut I,
    out: &mut W,
    messages: &mut M,
) -> u8
    ensures { (done : Result (Unit {0}) QueryFault)
        × Queried host.now.manner (F.gives host.now.files.now) (map string_bytes paths.now)
        (reader I.Feed input) (writer W.Sink out) done
        × Answers (F.blames host.now.files.now [] []) explain (map string_bytes paths.now) done
        (writer M.Sink messages) result }
{
    match query(host, paths, input, out) {
        Ok(()) => 0,
        Err(fault) => report_query(host, &fault, paths, explain, messages),
    }
}

/// The path of the file that an index is to be written to, that of a join too; empty if none is asked for.
pub fn out_path(asked: &Result<Request, AllocError>) -> &str
    ensures path { IfOk asked.now (λ request. IfSome (out_path request) (λ path. result.now ≡ path)) }
    ensures none { IfOk asked.now (λ request. out_path request ≡ None → result.now ≡ []) }
    ensures unread { IfErr asked.now (λ _. result.now ≡ []) }
{
    match asked {
        Ok(Request::Index(given)) => given.out.as_str(),
        Ok(Request::Join(options)) => options.out.as_str(),
        _ => "",
    }
}

/// The path of a report; empty if none is asked for.
fn path_of(report: &ReportOptions) -> &str
    ensures path { IfSome report.now.path (λ path. result.now ≡ string_bytes path) }
    ensures none { report.now.path ≡ None → result.now ≡ [] }
{
    match &report.path {
        Some(path) => path.as_str(),
        None => "",
    }
}

/// The path of the file that a report is to be written to; empty if none is asked for.
pub fn report_path(asked: &Result<Request, AllocError>) -> &str
    ensures path { IfOk asked.now (λ request. IfSome (report_path request) (λ path. result.now ≡ path)) }
    ensures none { IfOk asked.now (λ request. report_path request ≡ None → result.now ≡ []) }
    ensures unread { IfErr asked.now (λ _. result.now ≡ []) }
{
    match asked {
        Ok(Request::Index(given)) => path_of(&given.options.report),
        Ok(Request::Shell(given)) => path_of(&given.options.report),
        _ => "",
    }
}

/// Whether links are followed below the folders that options name.
fn follows(options: &IndexOptions) -> bool
    ensures { result ≡ follows options.now }
{
    options.sources.is_some() || matches!(options.links, Links::Follow)
}

/// Whether links below the folders whose sources are read are to be followed.
pub fn links_followed(asked: &Result<Request, AllocError>) -> bool
    ensures { result ≡ links_followed asked.now }
{
    match asked {
        Ok(Request::Index(given)) => follows(&given.options),
        Ok(Request::Shell(given)) => follows(&given.options),
        _ => false,
    }
}

/// Whether the disk is to have the file and the report before the run ends.
pub fn is_synced(asked: &Result<Request, AllocError>) -> bool
    ensures asked { IfOk asked.now (λ request. result ≡ is_synced request) }
    ensures unread { IfErr asked.now (λ _. result ≡ false) }
{
    match asked {
        Ok(Request::Index(given)) => given.sync,
        Ok(Request::Join(options)) => options.sync,
        _ => false,
    }
}

/// Does what was asked for, and gives the exit status. An index goes to the first of the places, which makes the files
/// of snapshots and the folders of pages too; a report goes to the other; everything else goes to `out`. Where memory
/// ran out while the command line was read, it says so.
pub fn run<R, F, I: Feed, W: Sink + Caused, O, Q: OutPlace, M: Sink>(
    host: &Host<'_, R, F>,
    asked: &Result<Request, AllocError>,
    input: &mut I,
    out: &mut W,
    places: &mut Places<O, Q>,
    messages: &mut M,
) -> u8
where
    R: Threads + Wait + Clock + Eprint + Sync,
    F: ReadFiles + EmptyFolders + LookAgain + Sync,
    O: OutPlace + MakeFiles + FolderPlace,
    // Help and the version are printed. Where the pipe is closed, nothing is said of this; nor of a listing, nor of
    // snapshots.
    ensures printed { IfOk asked.now (λ request. IfSome (printed_text request) (λ text.
        Prints W.cause text (writer W.Sink out) (writer M.Sink messages) result
        × (input.new ≡ input.old) × (places.new ≡ places.old))) }
    // It says why a command line is refused.
    ensures refused { IfOk asked.now (λ request. IfSome (refused_text request) (λ text.
        Refuses text (writer M.Sink messages) result
        × (input.new ≡ input.old) × (out.new ≡ out.old) × (places.new ≡ places.old))) }
    // What `dump` promises of its answer, and what becomes of that.
    ensures dumped { IfOk asked.now (λ request. IfSome (dump_options request) (λ options.
        ((done : Result (Unit {0}) Fault)
        × IsDumped options.dialect (reader I.Feed input) (writer W.Sink out) done
        × LeavesReader (reader I.Feed input) done × IsReadBriefly (reader I.Feed input)
        × EndsDump options.dialect (explain_in options.explain options.dialect)
        (is_closed (W.cause out.new)) (reader I.Feed input) done (writer M.Sink messages) result)
        × (places.new ≡ places.old))) }
    // What `query` promises of its answers, and what becomes of that.
    ensures queried { IfOk asked.now (λ request. IfSome (index_paths request) (λ paths.
        ((done : Result (Unit {0}) QueryFault)
        × Queried host.now.manner (F.gives host.now.files.now) paths (reader I.Feed input) (writer W.Sink out) done
        × Answers (F.blames host.now.files.now [] []) (explains request) paths done (writer M.Sink messages) result)
        × (places.new ≡ places.old))) }
    // What asks in one line.
    ensures asked_once { IfOk asked.now (λ request. IfSome (ask_options request) (λ options.
        RunsAsked (F.gives host.now.files.now) (F.blames host.now.files.now [] []) W.cause options (writer W.Sink out)
        (writer M.Sink messages) result
        × (input.new ≡ input.old) × (places.new ≡ places.old))) }
    // What `index` does.
    ensures indexed { IfOk asked.now (λ request. IfSome (index_request request) (λ given.
        Indexed (searched_by given.options (F.lists host.now.files.now)) (F.gives host.now.files.now)
        (found_by given.options (F.finds host.now.files.now))
        (blamed_by given.options (F.blames host.now.files.now))
        (NoneFoundBy (F.passes host.now.files.now) host.now.is_watched given.options)
        (Q.suspects places.old.report) given (place O.OutPlace O.Part.Sink places.old.file places.new.file)
        (place Q.OutPlace Q.Part.Sink places.old.report places.new.report) (writer M.Sink messages) result
        × (input.new ≡ input.old) × (out.new ≡ out.old))) }
    // What `shell` does.
    ensures served { IfOk asked.now (λ request. IfSome (shell_options request) (λ options.
        Served host.now.manner (searched_by options (F.lists host.now.files.now)) (F.gives host.now.files.now)
        (found_by options (F.finds host.now.files.now))
        (blamed_by options (F.blames host.now.files.now))
        (NoneFoundBy (F.passes host.now.files.now) host.now.is_watched options)
        (Q.suspects places.old.report) options (place Q.OutPlace Q.Part.Sink places.old.report places.new.report)
        (reader I.Feed input) (writer W.Sink out) (writer M.Sink messages) result
        × (places.new.file ≡ places.old.file))) }
    // After a success of either, queries over what is written, or answered from, are exact.
    ensures navigable { IfOk asked.now (λ request. IfSome (index_request request) (λ given.
        WritesNavigable (searched_by given.options (F.lists host.now.files.now)) (F.gives host.now.files.now)
        (found_by given.options (F.finds host.now.files.now))
        given.options
        (place O.OutPlace O.Part.Sink places.old.file places.new.file) result)
        × IfSome (shell_options request) (λ options.
        AnswersNavigable host.now.manner (searched_by options (F.lists host.now.files.now))
        (F.gives host.now.files.now)
        (found_by options (F.finds host.now.files.now)) options
        (reader I.Feed input) (writer W.Sink out) result)) }
    // What `snapshot` does.
    ensures snapshotted { IfOk asked.now (λ request. IfSome (snapshot_options request) (λ options.
        RunsSnapshot (F.gives host.now.files.now) (F.blames host.now.files.now [] []) W.cause options
        (writer W.Sink out) (making O.MakeFiles places.old.file places.new.file) (writer M.Sink messages) result
        × (input.new ≡ input.old) × (places.new.report ≡ places.old.report))) }
    // What `pages` does.
    ensures paged { IfOk asked.now (λ request. IfSome (pages_options request) (λ options.
        RunsPages (F.frees host.now.files.now) (F.gives host.now.files.now) (F.blames host.now.files.now [] []) options
        (folder_places O.FolderPlace O.Folder.MakeFiles places.old.file places.new.file) (writer M.Sink messages) result
        × (input.new ≡ input.old) × (out.new ≡ out.old) × (places.new.report ≡ places.old.report))) }
    // What `join` does.
    ensures joined { IfOk asked.now (λ request. IfSome (join_options request) (λ options.
        RunsJoin (F.gives host.now.files.now) (F.blames host.now.files.now [] []) options
        (place O.OutPlace O.Part.Sink places.old.file places.new.file) (writer M.Sink messages) result
        × (input.new ≡ input.old) × (out.new ≡ out.old) × (places.new.report ≡ places.old.report))) }
    // Nothing was asked for, since memory ran out, and that is said.
    ensures unknown { IfErr asked.now (λ _. Tells memory_line memory_status (writer M.Sink messages) result
        × (input.new ≡ input.old) × (out.new ≡ out.old) × (places.new ≡ places.old)) }
{
    match asked {
        Ok(request) => match request {
            Request::Dump(options) => dump_source(host, options, input, out, messages),
            Request::Query(options) => {
                let (paths, explain) = (options.indexes.as_slice(), options.explain);
                answer(host, paths, explain, input, out, messages)
            }
            Request::Ask(options) => ask(host, options, out, messages),
            Request::Snapshot(options) => {
                snapshot(host, options, out, &mut places.file, messages)
            }
            Request::Pages(options) => pages(host, options, &mut places.file, messages),
            Request::Join(options) => join(host, options, &mut places.file, messages),
            Request::Index(given) => index_searched(host, given, places, messages),
            Request::Shell(given) => {
                let options = &given.options;
                shell_searched(host, options, input, out, &mut places.report, messages)
            }
            Request::Print(text) => print(host.alloc, text.as_str(), out, messages),
            Request::Refuse(text) => refuse(text.as_str(), messages),
        },
        Err(AllocError) => {
            let line = plain_line(host.alloc, "Memory");
            report(line, MEMORY_STATUS, messages)
        }
    }
}
