//! The program `shell`.

ghost use Rattle.std.specs.Prelude.{◌≡◌, [], IfErr, IfOk, MatchResult, map, string_bytes};
ghost use Rattle.std.specs.Option.{option_map};
ghost use Rattle.streams.specs.Readers.{reader};
ghost use Rattle.streams.specs.Writers.{writer};
ghost use Rattle.protoscip.specs.FaultLines.{HasFilesOf, HaveFilesOf};
ghost use Rattle.programs.specs.Messages.{TellsOfSuccess};
ghost use Rattle.programs.specs.NoSources.{NoneFoundBy};
ghost use Rattle.programs.specs.Placing.{place};
ghost use Rattle.programs.specs.Searches.{blamed_by, found_by, searched_by};
ghost use Rattle.programs.specs.Serving.{AnswersNavigable, Served};
ghost use Rattle.programs.specs.TreeRuns.{Ends};

use crate::ending::{Closing, stop, tell};
use crate::host::Host;
use crate::laws::headline_of_options;
use crate::limits::NO_LIMITS;
use crate::reporting::{Reporter, fault_in, report_run, see_report, settle};
use crate::start_explanations::{report_start, report_unstarted};
use crate::start_reports::put_start_report;
use crate::starting::{TreeRun, start};
use command_line::IndexOptions;
use index_pool::NoGate;
use protoscip::{Fault, Recorded, Talk, explain_in, session_in};
use scip_build::Omission;
use source_files::{Excluding, LookAgain, OutPlace, ReadFiles};
use std::alloc::Global;
use std::sync::Wait;
use std::thread::Threads;
use streams::{Feed, Sink};

/// Reports what the index lacked about which commands were answered, or that there are no sources, or why they weren't
/// answered, and gives the exit status.
fn end<M: Sink>(
    alloc: Global,
    run: &TreeRun,
    done: &Result<Recorded, Fault>,
    closing: Closing,
    messages: &mut M,
) -> u8
    requires files { IfErr done.now (HasFilesOf run.now.tree) }
    requires told { IfOk done.now (λ recorded. HaveFilesOf run.now.tree recorded.told) }
    ensures { Ends TellsOfSuccess (λ line. line ≡ option_map string_bytes run.now.none_found) closing.explain
        closing.is_real run.now.tree
        run.now.unread.items (λ recorded. recorded.told) done.now
        (writer M.Sink messages) result }
{
    match done {
        Ok(recorded) => tell(alloc, run, recorded.told.as_slice(), closing, messages),
        Err(fault) => stop(alloc, &run.tree, fault, closing.explain, messages),
    }
}

/// What an index lacked; nothing if there was none.
fn told_in(ran: &Result<Recorded, Fault>) -> &[Omission]
    ensures { MatchResult ran.now (λ recorded. result.now ≡ recorded.told) (λ _. result.now ≡ []) }
{
    match ran {
        Ok(recorded) => recorded.told.as_slice(),
        Err(_) => &[],
    }
}

/// Reads the sources below the root of the options and the files below their included roots, builds the index of the
/// sources, answers commands about it, one a line, as `session_in` does, makes its report if one is asked for, and
/// gives the exit status. Once all commands are answered, it says what couldn't be read and what the index lacks, or that
/// there are no sources, where somebody is told. If it stops early, it says why.
///
/// If there are several faults, it says the first: those of `index` in its order, up to `TooLarge`, after which
/// nothing was read or answered; then `Read` or `Answer`; then that the report can't be made, or written. Memory may
/// run out at any step.
fn shell<
    R: Threads + Wait,
    F: ReadFiles + LookAgain + Sync,
    I: Feed,
    W: Sink,
    Q: OutPlace,
    M: Sink,
>(
    host: &Host<'_, R, F>,
    options: &IndexOptions,
    commands: &mut I,
    answers: &mut W,
    report: &mut Q,
    messages: &mut M,
) -> u8
    ensures served { Served host.now.manner (F.lists host.now.files.now) (F.gives host.now.files.now)
        (F.finds host.now.files.now)
        (blamed_by options.now (F.blames host.now.files.now))
        (NoneFoundBy (F.passes host.now.files.now) host.now.is_watched options.now)
        (Q.suspects report.old) options.now
        (place Q.OutPlace Q.Part.Sink report.old report.new)
        (reader I.Feed commands)
        (writer W.Sink answers)
        (writer M.Sink messages) result }
    ensures navigable { AnswersNavigable host.now.manner (F.lists host.now.files.now) (F.gives host.now.files.now)
        (F.finds host.now.files.now)
        options.now
        (reader I.Feed commands) (writer W.Sink answers) result }
{
    headline_of_options(host.files, options);
    let run = match start(host, options) {
        Ok(start) => start,
        Err(fault) => {
            let said = put_start_report(host.alloc, &options.report, false, fault, report);
            return report_unstarted(host, options, &said, messages);
        }
    };
    match see_report(host.alloc, options, &run.tree, report) {
        Ok(()) => {}
        Err(fault) => return report_start(host.alloc, &fault, options.explain, messages),
    }
    let work = run.over(host.rt, host.alloc, &NoGate);
    let talk = Talk {
        chooser: &run.choices,
        settings: &run.settings,
        manner: host.manner,
    };
    let ran = session_in(&work, &run.tree, &talk, commands, answers);
    let reporter = Reporter {
        rt: host.rt,
        alloc: host.alloc,
        run: &run,
        options: &options.report,
        limits: NO_LIMITS,
    };
    let reported = report_run(&reporter, told_in(&ran), fault_in(&ran), report);
    let done = settle(ran, reported);
    let closing = Closing {
        explain: explain_in(options.explain, run.settings.dialect),
        is_real: options.is_real,
    };
    end(host.alloc, &run, &done, closing, messages)
}

/// The same of the files that the options don't exclude.
pub(crate) fn shell_searched<R, F: ReadFiles + LookAgain + Sync, I: Feed, W: Sink, Q, M>(
    host: &Host<'_, R, F>,
    options: &IndexOptions,
    commands: &mut I,
    answers: &mut W,
    report: &mut Q,
    messages: &mut M,
) -> u8
where
    R: Threads + Wait,
    Q: OutPlace,
    M: Sink,
    ensures served { Served host.now.manner (searched_by options.now (F.lists host.now.files.now))
        (F.gives host.now.files.now)
        (found_by options.now (F.finds host.now.files.now))
        (blamed_by options.now (F.blames host.now.files.now))
        (NoneFoundBy (F.passes host.now.files.now) host.now.is_watched options.now)
        (Q.suspects report.old) options.now
        (place Q.OutPlace Q.Part.Sink report.old report.new)
        (reader I.Feed commands)
        (writer W.Sink answers)
        (writer M.Sink messages) result }
    ensures navigable { AnswersNavigable host.now.manner (searched_by options.now (F.lists host.now.files.now))
        (F.gives host.now.files.now)
        (found_by options.now (F.finds host.now.files.now)) options.now
        (reader I.Feed commands) (writer W.Sink answers) result }
{
    let files = Excluding {
        files: host.files,
        patterns: &options.exclude,
    };
    let searched = Host {
        rt: host.rt,
        alloc: host.alloc,
        files: &files,
        is_watched: host.is_watched,
        manner: host.manner,
    };
    shell(&searched, options, commands, answers, report, messages)
}
