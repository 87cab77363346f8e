//! The program `index`.

ghost use Rattle.std.specs.Prelude.{◌≡◌, None, [], false, IfErr, IfOk, IfSome, MatchResult, map, string_bytes};
ghost use Rattle.std.specs.Option.{option_map};
ghost use Rattle.streams.specs.Writers.{writer};
ghost use Rattle.protoscip.specs.FaultLines.{HasFilesOf};
ghost use Rattle.source_files.specs.Places.{IsBegun};
ghost use Rattle.programs.specs.Choices.{IsChosenBy};
ghost use Rattle.programs.specs.Indexing.{Indexed, IndexesInto, WritesNavigable};
ghost use Rattle.programs.specs.Limits.{Breaks};
ghost use Rattle.programs.specs.Messages.{Says, SaysIfAny, SaysOfSuccess};
ghost use Rattle.programs.specs.NoSources.{NoneFoundBy};
ghost use Rattle.programs.specs.Searches.{blamed_by, found_by, searched_by};
ghost use Rattle.programs.specs.Placing.{AreApart, Finishes, IsOneFile, MayNotBegin, place};
ghost use Rattle.programs.specs.StartReports.{IsOut};
ghost use Rattle.programs.specs.TreeRuns.{Ends, IsWholeTextIfAny};

use crate::ending::{Closing, WholeTelling, say_line, stop};
use crate::folders::folders_read;
use crate::host::Host;
use crate::laws::headline_of_options;
use crate::limits::{LimitFault, broken_by, report_limit};
use crate::messages::report;
use crate::places::Places;
use crate::progress::{LineWiped, Progress};
use crate::reporting::{Reporter, fault_in, report_run, see_report, settle};
use crate::start_explanations::{report_start, report_unstarted};
use crate::start_fault::StartFault;
use crate::start_reports::put_start_report;
use crate::starting::{TreeRun, start};
use command_line::{IndexRequest, Limits};
use protoscip::{Fault, KeptIndex, explain_in, index_and_tell};
use scip_build::Omission;
use source_files::{Excluding, LookAgain, OutPlace, ReadFiles, is_read_from};
use source_tree::Tree;
use std::alloc::Global;
use std::mem::forget;
use std::sync::Wait;
use std::thread::Threads;
use std::time::{Clock, Instant};
use streams::{Failed, Sink};

/// Says what couldn't be read, and what an index that is written lacks, or that there are no sources, or why there is
/// no index, and gives the exit status. It is said once the line of the progress is wiped. The memory of what was made
/// isn't given back.
fn end<M: Sink>(
    _wiped: LineWiped,
    alloc: Global,
    run: &TreeRun,
    done: Result<KeptIndex<'_>, Fault>,
    closing: Closing,
    messages: &mut M,
) -> u8
    requires files { IfErr done (HasFilesOf run.now.tree) }
    requires said { IfOk done (λ kept. IsWholeTextIfAny closing.explain closing.is_real run.now.tree
        run.now.unread.items kept.built.told (option_map string_bytes kept.text)) }
    ensures { Ends SaysOfSuccess (λ line. line ≡ option_map string_bytes run.now.none_found) closing.explain
        closing.is_real run.now.tree run.now.unread.items (λ kept. kept.built.told) done.entry
        (writer M.Sink messages) result }
{
    match done {
        Ok(kept) => {
            let KeptIndex { built, text } = kept;
            // What was made goes with the process.
            forget(built);
            say_end(text, &run.none_found, messages)
        }
        Err(fault) => stop(alloc, &run.tree, &fault, closing.explain, messages),
    }
}

/// Says a text of a success, if there is one, and else a line, if there is one; and gives the exit status.
fn say_end<M: Sink>(text: Option<String>, line: &Option<String>, messages: &mut M) -> u8
    ensures text { IfSome text (λ text. Says (string_bytes text) 0 (writer M.Sink messages) result) }
    ensures line { text ≡ None → SaysIfAny (option_map string_bytes line.now) (writer M.Sink messages) result }
{
    match text {
        Some(text) => report(Ok(text), 0, messages),
        None => say_line(line, messages),
    }
}

/// When a run begins, if it is to be shown how far it is.
fn beginning<R: Clock, F>(host: &Host<'_, R, F>, quiet: bool) -> Option<Instant> {
    if quiet || !host.is_watched {
        return None;
    }
    Instant::now(host.rt).ok()
}

/// Whether the report, if one is asked for, would go to the place of the index.
fn is_out<P: OutPlace>(request: &IndexRequest, at: &P) -> bool
    ensures { IsOut (P.same at.now) (string_bytes request.now.out) request.now.options.report result }
{
    match &request.options.report.path {
        Some(path) => path.as_str() == request.out.as_str() || at.is_file(path.as_str()),
        None => false,
    }
}

/// Sees, if a report is asked for, that it doesn't go to the place of the index. `ReportIsOut`: it does.
#[tactic(auto, using(crate::proofs::PlacingRules::of_two))]
fn see_two<P: OutPlace>(alloc: Global, request: &IndexRequest, at: &P) -> Result<(), StartFault>
    ensures two { IfOk result (λ _.
        IsOut (P.same at.now) (string_bytes request.now.out) request.now.options.report false) }
    ensures stops { IfErr result (IsOneFile (P.same at.now) request.now) }
{
    let Some(path) = &request.options.report.path else {
        return Ok(());
    };
    if is_out(request, at) {
        let path = String::from_str(alloc, path.as_str())?;
        return Err(StartFault::ReportIsOut(path));
    }
    Ok(())
}

/// Begins the part that the index goes to. `IsSource`: one of the files that were read is the one at its place;
/// `ReportIsOut`, `ReportIsSource`: the report can't go to its own.
#[tactic(auto, using(crate::proofs::PlacingRules::of_beginning))]
fn begin<P: OutPlace, Q: OutPlace>(
    alloc: Global,
    request: &IndexRequest,
    tree: &Tree,
    places: &Places<P, Q>,
) -> Result<P::Part, StartFault>
    ensures begun { IfOk result (IsBegun P.Part.contents P.Part.failures) }
    ensures apart { IfOk result (λ _. AreApart (place P.OutPlace P.Part.Sink places.now.file places.now.file)
        (place Q.OutPlace Q.Part.Sink places.now.report places.now.report) request.now tree.now) }
    ensures stops { IfErr result (MayNotBegin (place P.OutPlace P.Part.Sink places.now.file places.now.file)
        (place Q.OutPlace Q.Part.Sink places.now.report places.now.report) request.now tree.now) }
{
    let folders = folders_read(alloc, &request.options)?;
    if is_read_from(alloc, &places.file, &folders, tree)? {
        let path = String::from_str(alloc, request.out.as_str())?;
        return Err(StartFault::IsSource(path));
    }
    see_two(alloc, request, &places.file)?;
    see_report(alloc, &request.options, tree, &places.report)?;
    Ok(places.file.begin(alloc)?)
}

/// The limit that an index breaks, if there is one and it breaks one.
fn broken_limit(
    limits: Limits,
    run: &TreeRun,
    done: &Result<KeptIndex<'_>, Fault>,
) -> Option<LimitFault>
    ensures made { IfOk done.now (λ kept. Breaks limits run.now.tree run.now.unread.items
        kept.built.told result) }
    ensures unmade { IfErr done.now (λ _. result ≡ None) }
{
    match done {
        Ok(kept) => broken_by(
            limits,
            run.tree.source_count(),
            run.unread.as_slice(),
            kept.built.told.as_slice(),
        ),
        Err(_) => None,
    }
}

/// What an index lacks; nothing if there is none.
fn told_in<'a>(ran: &'a Result<KeptIndex<'_>, Fault>) -> &'a [Omission]
    ensures { MatchResult ran.now (λ kept. result.now ≡ kept.built.told) (λ _. result.now ≡ []) }
{
    match ran {
        Ok(kept) => kept.built.told.as_slice(),
        Err(_) => &[],
    }
}

/// Puts what was written at its place, if it is a whole index that breaks no limit, and else gives it up. `Write`: the
/// place refuses it.
#[tactic(auto, using(crate::proofs::PlacingRules::of_parts))]
fn finish<'a, P: OutPlace>(
    done: Result<KeptIndex<'a>, Fault>,
    broken: Option<LimitFault>,
    part: P::Part,
    out: &mut P,
) -> Result<KeptIndex<'a>, Fault>
    ensures { Finishes (place P.OutPlace P.Part.Sink out.old out.new) part
        done.entry broken result }
{
    let is_kept = done.is_ok() && broken.is_none();
    if !is_kept {
        out.leave(part);
        return done;
    }
    match out.put(part) {
        Ok(()) => done,
        Err(Failed) => {
            forget(done);
            Err(Fault::Write(0))
        }
    }
}

/// Builds the index of the sources of a tree, writes it beside its place, makes its report, puts the index there, and
/// gives the exit status. What couldn't be read and what the index lacks is said; or why it stops, if it does. An index
/// whose report can't be written isn't put there, nor one that breaks a limit; the limit is said, too.
fn index_over<R, F, P: OutPlace, Q: OutPlace, M: Sink>(
    host: &Host<'_, R, F>,
    request: &IndexRequest,
    begun: Option<Instant>,
    run: &TreeRun,
    places: &mut Places<P, Q>,
    messages: &mut M,
) -> u8
where
    R: Threads + Wait + Clock + Eprint + Sync,
    ensures { IndexesInto (λ _ line. line ≡ option_map string_bytes run.now.none_found) request.now
        (IsChosenBy (option_map (λ f. string_bytes f.promise.0) run.now.choices.filter) (option_map (λ r. r.promise.0)
        run.now.choices.rule)) run.now.settings run.now.workers run.now.tree run.now.unread.items
        (place P.OutPlace P.Part.Sink places.old.file places.new.file)
        (place Q.OutPlace Q.Part.Sink places.old.report
        places.new.report) (writer M.Sink messages) result }
{
    let explain = request.options.explain;
    let mut part = match begin(host.alloc, request, &run.tree, places) {
        Ok(part) => part,
        Err(fault) => return report_start(host.alloc, &fault, explain, messages),
    };
    let gate = Progress::over(host.alloc, host.rt, begun, &run.tree);
    let work = run.over(host.rt, host.alloc, &gate);
    let (tree, choices, settings) = (&run.tree, &run.choices, &run.settings);
    let closing = Closing {
        explain: explain_in(explain, settings.dialect),
        is_real: request.options.is_real,
    };
    let telling = WholeTelling {
        unread: run.unread.as_slice(),
        closing,
    };
    let ran = index_and_tell(&work, tree, choices, settings, &telling, &mut part);
    let reporter = Reporter {
        rt: host.rt,
        alloc: host.alloc,
        run,
        options: &request.options.report,
        limits: request.limits,
    };
    let reported = report_run(&reporter, told_in(&ran), fault_in(&ran), &mut places.report);
    let done = settle(ran, reported);
    let broken = broken_limit(request.limits, run, &done);
    let done = finish(done, broken, part, &mut places.file);
    let wiped = gate.wipe();
    let status = end(wiped, host.alloc, run, done, closing, messages);
    match broken {
        Some(fault) => report_limit(host.alloc, fault, explain, messages),
        None => status,
    }
}

/// Reads the sources below the root of the options and the files below their included roots, builds
/// the index of the sources, writes it to a part of its place, makes its report if one is asked for, puts the index
/// there, and gives the exit status. What couldn't be read and what the index lacks is said, or that there are no
/// sources, where somebody is told; or why it stops, if it does: after every fault the place of the index is as it was,
/// and if the index breaks a limit. The memory of the tree and of what was made of it isn't given back: the program
/// ends.
///
/// Of the faults the first is said: a bad part of the package; what can't be read; that the files make
/// no tree; that one of them is the file at the place of the index; that the report would go there, or that one of them
/// is the file at its place; those of `index_tree`; and that the report can't be made, or written. Want of memory may
/// come at any step.
///
/// Where standard error is a terminal, and it isn't to be quiet, a line there shows after a second how far the
/// run is; it is wiped before anything is said.
fn index<R, F: ReadFiles + LookAgain + Sync, P: OutPlace, Q: OutPlace, M: Sink>(
    host: &Host<'_, R, F>,
    request: &IndexRequest,
    places: &mut Places<P, Q>,
    messages: &mut M,
) -> u8
where
    R: Threads + Wait + Clock + Eprint + Sync,
    ensures indexed { Indexed (F.lists host.now.files.now) (F.gives host.now.files.now)
        (F.finds host.now.files.now)
        (blamed_by request.now.options (F.blames host.now.files.now))
        (NoneFoundBy (F.passes host.now.files.now) host.now.is_watched request.now.options)
        (Q.suspects places.old.report) request.now
        (place P.OutPlace P.Part.Sink places.old.file places.new.file)
        (place Q.OutPlace Q.Part.Sink places.old.report places.new.report) (writer M.Sink messages) result }
    ensures navigable { WritesNavigable (F.lists host.now.files.now) (F.gives host.now.files.now)
        (F.finds host.now.files.now) request.now.options
        (place P.OutPlace P.Part.Sink places.old.file places.new.file) result }
{
    let options = &request.options;
    headline_of_options(host.files, options);
    let begun = beginning(host, request.quiet);
    let run = match start(host, options) {
        Ok(start) => start,
        Err(fault) => {
            let is_out = is_out(request, &places.file);
            let report = &options.report;
            let said = put_start_report(host.alloc, report, is_out, fault, &mut places.report);
            return report_unstarted(host, options, &said, messages);
        }
    };
    let status = index_over(host, request, begun, &run, places, messages);
    forget(run);
    status
}

/// The same of the files that the options don't exclude.
pub(crate) fn index_searched<R, F: ReadFiles + LookAgain + Sync, P: OutPlace, Q: OutPlace, M: Sink>(
    host: &Host<'_, R, F>,
    request: &IndexRequest,
    places: &mut Places<P, Q>,
    messages: &mut M,
) -> u8
where
    R: Threads + Wait + Clock + Eprint + Sync,
    ensures indexed { Indexed (searched_by request.now.options (F.lists host.now.files.now))
        (F.gives host.now.files.now)
        (found_by request.now.options (F.finds host.now.files.now)) (blamed_by request.now.options
        (F.blames host.now.files.now))
        (NoneFoundBy (F.passes host.now.files.now) host.now.is_watched request.now.options)
        (Q.suspects places.old.report) request.now
        (place P.OutPlace P.Part.Sink places.old.file places.new.file)
        (place Q.OutPlace Q.Part.Sink places.old.report places.new.report) (writer M.Sink messages) result }
    ensures navigable { WritesNavigable (searched_by request.now.options (F.lists host.now.files.now))
        (F.gives host.now.files.now)
        (found_by request.now.options (F.finds host.now.files.now)) request.now.options
        (place P.OutPlace P.Part.Sink places.old.file places.new.file)
        result }
{
    let files = Excluding {
        files: host.files,
        patterns: &request.options.exclude,
    };
    let searched = Host {
        rt: host.rt,
        alloc: host.alloc,
        files: &files,
        is_watched: host.is_watched,
        manner: host.manner,
    };
    index(&searched, request, places, messages)
}
