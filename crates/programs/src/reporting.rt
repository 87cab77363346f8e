//! The report of a run over a tree.

ghost use Rattle.std.specs.Prelude.{◌≡◌, ℕ, None, Some, false, IfErr, IfOk, IfSome, MatchResult, map, string_bytes};
ghost use Rattle.std.specs.Option.{option_map};
ghost use Rattle.source_tree.specs.Trees.{IsSourceCount};
ghost use Rattle.fault_reports.specs.Reports.{report_of};
ghost use Rattle.protoscip.specs.FaultLines.{HasFilesOf, HaveFilesOf};
ghost use Rattle.protoscip.specs.Findings.{all_findings, counts_of, counts_with, refused_findings};
ghost use Rattle.protoscip.specs.FaultTexts.{status_of};
ghost use Rattle.protoscip.specs.ToldTrees.{MayNotTell};
ghost use Rattle.programs.specs.Choices.{IsChosenBy};
ghost use Rattle.programs.specs.Limits.{IsBrokenBy};
ghost use Rattle.programs.specs.Placing.{IsRead, MayNotReport, place};
ghost use Rattle.programs.specs.Reporting.{
  GoesTo,
  IsReport,
  IsToldBeside,
  Reports,
  due_status,
  is_of_files,
  ran_of,
};
ghost use Rattle.programs.specs.Settled.{settled};

use crate::folders::folders_read;
use crate::limits::{LimitFault, broken_by};
use crate::start_fault::StartFault;
use crate::starting::TreeRun;
use basics::Sequence;
use command_line::{IndexOptions, Limits, ReportOptions};
use fault_reports::{ReportFormat, report_bytes};
use index_pool::NoGate;
use protoscip::{
    Fault, SOURCES_STATUS, all_findings, counts_of, counts_with, refused_findings, told_of_tree,
};
use scip_build::Omission;
use source_files::{OutPlace, is_read_from};
use source_tree::Tree;
use std::alloc::{AllocError, Global};
use std::mem::forget;
use std::sync::Wait;
use std::thread::Threads;
use streams::{Failed, write_all};

/// What a report is made with.
#[derive(Clone, Copy)]
pub(crate) struct Reporter<'a, R> {
    /// The runtime whose threads work.
    pub(crate) rt: &'a R,
    /// Where memory is taken.
    pub(crate) alloc: Global,
    /// The run over the tree.
    pub(crate) run: &'a TreeRun,
    /// Whether a report is made, and how.
    pub(crate) options: &'a ReportOptions,
    /// The limits that the index has to keep.
    pub(crate) limits: Limits,
}

/// Sees, if a report is asked for, that none of the files that were read is the one at its place. `ReportIsSource`: one
/// is.
#[tactic(auto, using(crate::proofs::PlacingRules::of_report))]
pub(crate) fn see_report<Q: OutPlace>(
    alloc: Global,
    options: &IndexOptions,
    tree: &Tree,
    at: &Q,
) -> Result<(), StartFault>
    ensures apart { IfOk result (λ _. IfSome options.now.report.path
        (λ _. IsRead (place Q.OutPlace Q.Part.Sink at.now at.now) options.now tree.now false)) }
    ensures stops { IfErr result (MayNotReport (place Q.OutPlace Q.Part.Sink at.now at.now) options.now tree.now) }
{
    let Some(path) = &options.report.path else {
        return Ok(());
    };
    let folders = folders_read(alloc, options)?;
    if is_read_from(alloc, at, &folders, tree)? {
        let path = String::from_str(alloc, path.as_str())?;
        return Err(StartFault::ReportIsSource(path));
    }
    Ok(())
}

/// Whether a fault is of the files of a tree.
fn is_of_files(fault: &Fault) -> bool
    ensures { result ≡ is_of_files fault.now }
{
    match fault {
        Fault::Unread(_)
        | Fault::Lex(..)
        | Fault::Syntax(..)
        | Fault::Duplicate(..)
        | Fault::MissingImport(_)
        | Fault::Unresolved(_)
        | Fault::Ambiguous(_)
        | Fault::OptionGap(_)
        | Fault::Uncertain(..) => true,
        Fault::Spawn
        | Fault::Memory
        | Fault::TooLarge
        | Fault::Write(_)
        | Fault::Read
        | Fault::Answer(_) => false,
    }
}

/// The status that a run is to end with whose index lacks this, and breaks a limit or none; or which has this fault.
fn due_status(fault: Option<Fault>, broken: Option<LimitFault>, told: &[Omission]) -> u8
    ensures { result ≡ due_status (ran_of told.now fault) broken }
{
    match (fault, broken) {
        (Some(fault), _) => fault.status(),
        (None, Some(_)) => SOURCES_STATUS,
        (None, None) => 0,
    }
}

/// The limit that an index of the run's tree breaks which lacks this; none if there is a fault in its place.
fn limit_broken(
    limits: Limits,
    run: &TreeRun,
    fault: Option<Fault>,
    told: &[Omission],
) -> Option<LimitFault>
    ensures { IsBrokenBy limits run.now.tree run.now.unread.items (ran_of told.now fault) result }
{
    match fault {
        Some(_) => None,
        None => broken_by(limits, run.tree.source_count(), run.unread.as_slice(), told),
    }
}

/// The bytes of the report of an index that lacks this, of the tree of a run.
fn report_of_index(
    alloc: Global,
    format: ReportFormat,
    run: &TreeRun,
    told: &[Omission],
    status: u8,
) -> Result<Vec<u8>, AllocError>
    requires { HaveFilesOf run.now.tree told.now }
    ensures { IfOk result (λ bytes. (sources : ℕ) × IsSourceCount run.now.tree sources
        × (bytes.items ≡ report_of format (all_findings run.now.tree run.now.unread.items told.now)
        (counts_with sources run.now.unread.items told.now status))) }
{
    let unread = run.unread.as_slice();
    let findings = all_findings(alloc, &run.tree, unread, told)?;
    let counts = counts_with(run.tree.source_count(), unread, told, status);
    report_bytes(alloc, format, findings.as_slice(), &counts)
}

/// The bytes of the report of a run with a fault, and of what is told beside it.
fn report_of_fault(
    alloc: Global,
    format: ReportFormat,
    tree: &Tree,
    fault: &Fault,
    told: &[Omission],
) -> Result<Vec<u8>, AllocError>
    requires fault { HasFilesOf tree.now fault.now }
    requires told { HaveFilesOf tree.now told.now }
    ensures { IfOk result (λ bytes. bytes.items ≡ report_of format (refused_findings tree.now fault.now told.now)
        (counts_of 0 told.now (status_of fault.now))) }
{
    let findings = refused_findings(alloc, tree, fault, told)?;
    let counts = counts_of(0, told, fault.status());
    report_bytes(alloc, format, findings.as_slice(), &counts)
}

impl<R: Threads + Wait> Reporter<'_, R> {
    /// What is told beside a fault: if it is of the files of the tree, all that would be told if what has a fault were
    /// left out. `Spawn`, `Memory`: that can't be had.
    fn told_beside(&self, fault: &Fault) -> Result<Sequence<Omission>, Fault>
        ensures told { IfOk result (λ told. IsToldBeside (IsChosenBy (option_map (λ f. string_bytes f.promise.0)
            self.now.run.now.choices.filter) (option_map (λ r. r.promise.0) self.now.run.now.choices.rule))
            self.now.run.now.settings self.now.run.now.tree fault.now told) }
        ensures files { IfOk result (HaveFilesOf self.now.run.now.tree) }
        ensures stops { IfErr result (MayNotTell self.now.run.now.workers) }
    {
        if !is_of_files(fault) {
            return Ok(Sequence::new(self.alloc));
        }
        let work = self.run.over(self.rt, self.alloc, &NoGate);
        let run = self.run;
        told_of_tree(&work, &run.tree, &run.choices, &run.settings)
    }

    /// The bytes of the report of a run that has a fault, or whose index lacks this; it is to end with this status.
    #[tactic(auto, using(crate::proofs::PlacingRules::of_telling))]
    fn report(&self, told: &[Omission], fault: Option<Fault>, status: u8) -> Result<Vec<u8>, Fault>
        requires fault { IfSome fault (HasFilesOf self.now.run.now.tree) }
        requires told { HaveFilesOf self.now.run.now.tree told.now }
        requires status { IfSome fault (λ fault. status ≡ status_of fault) }
        ensures made { IfOk result (λ bytes. IsReport (IsChosenBy (option_map (λ f. string_bytes f.promise.0)
            self.now.run.now.choices.filter) (option_map (λ r. r.promise.0) self.now.run.now.choices.rule))
            self.now.run.now.settings self.now.run.now.tree self.now.run.now.unread.items
            self.now.options.now.format (ran_of told.now fault) status bytes.items) }
        ensures stops { IfErr result (MayNotTell self.now.run.now.workers) }
    {
        let format = self.options.format;
        let tree = &self.run.tree;
        match &fault {
            Some(fault) => {
                let beside = self.told_beside(fault)?;
                Ok(report_of_fault(self.alloc, format, tree, fault, beside.as_slice())?)
            }
            None => Ok(report_of_index(self.alloc, format, self.run, told, status)?),
        }
    }
}

/// Writes bytes to a part of a place, and puts it there. `Write`: a write fails, or the place refuses the part.
pub(crate) fn put_bytes<Q: OutPlace>(alloc: Global, at: &mut Q, bytes: &[u8]) -> Result<(), Fault>
    ensures { (workers : ℕ) → GoesTo (place Q.OutPlace Q.Part.Sink at.old at.new) (λ all. all ≡ bytes.now) workers
        result }
{
    let mut part = at.begin(alloc)?;
    match write_all(&mut part, bytes) {
        Ok(()) => match at.put(part) {
            Ok(()) => Ok(()),
            Err(Failed) => Err(Fault::Write(bytes.len() as u64)),
        },
        Err(cut_off) => {
            at.leave(part);
            Err(Fault::Write(cut_off.written as u64))
        }
    }
}

/// Puts the report of a run at its place, if one is asked for: of a run that has a fault, or whose index lacks this.
/// `Write`: it can't be written; `Spawn`, `Memory`: it can't be made.
pub(crate) fn report_run<R: Threads + Wait, Q: OutPlace>(
    reporter: &Reporter<'_, R>,
    told: &[Omission],
    fault: Option<Fault>,
    at: &mut Q,
) -> Result<(), Fault>
    requires fault { IfSome fault (HasFilesOf reporter.now.run.now.tree) }
    requires told { HaveFilesOf reporter.now.run.now.tree told.now }
    ensures { Reports (place Q.OutPlace Q.Part.Sink at.old at.new)
        reporter.now.options.now reporter.now.limits (IsChosenBy (option_map (λ f. string_bytes f.promise.0)
        reporter.now.run.now.choices.filter) (option_map (λ r. r.promise.0) reporter.now.run.now.choices.rule))
        reporter.now.run.now.settings reporter.now.run.now.workers reporter.now.run.now.tree
        reporter.now.run.now.unread.items (ran_of told.now fault) result }
{
    let broken = limit_broken(reporter.limits, reporter.run, fault, told);
    if reporter.options.path.is_none() {
        return Ok(());
    }
    let bytes = reporter.report(told, fault, due_status(fault, broken, told))?;
    put_bytes(reporter.alloc, at, bytes.as_slice())
}

/// The fault that a run answers, if it has one.
pub(crate) fn fault_in<T>(ran: &Result<T, Fault>) -> Option<Fault>
    ensures { MatchResult ran.now (λ _. result ≡ None) (λ fault. result ≡ Some fault) }
{
    match ran {
        Ok(_) => None,
        Err(fault) => Some(*fault),
    }
}

/// What a run answers in the end: its own answer, or, if it has no fault, that for which there is no report. What was
/// made isn't given back then: the program ends.
pub(crate) fn settle<T: Drop>(
    ran: Result<T, Fault>,
    reported: Result<(), Fault>,
) -> Result<T, Fault>
    ensures { result ≡ settled ran reported }
{
    match (ran, reported) {
        (Ok(made), Err(fault)) => {
            forget(made);
            Err(fault)
        }
        (ran, _) => ran,
    }
}
