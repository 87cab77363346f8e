//! The report of a run that doesn't start.

ghost use Rattle.std.specs.Prelude.{◌≡◌, IfOk};
ghost use Rattle.std.specs.Option.{option_map};
ghost use Rattle.programs.specs.Placing.{place};
ghost use Rattle.programs.specs.StartReports.{EndsUnstarted, finding_of, is_tried, report_of_start, whole_file};

use crate::reporting::put_bytes;
use crate::start_fault::StartFault;
use command_line::ReportOptions;
use diagnostics::LineCounter;
use fault_reports::{Finding, FindingKind, Place, ReportFormat, report_bytes};
use protoscip::{Fault, counts_of};
use source_files::{LoadFault, OutPlace};
use std::alloc::{AllocError, Global};

/// The whole file with a path, if there is a path. What it holds isn't told.
fn whole_file(path: Option<&str>) -> Option<Place<'_>>
    ensures { result ≡ option_map whole_file (option_map (λ path. path.now) path.entry) }
{
    match path {
        Some(path) => Some(Place::new(path, &mut LineCounter::new(&[]), None, None)),
        None => None,
    }
}

/// What a report tells of a fault.
fn finding_of(fault: &StartFault) -> Finding<'_>
    ensures { result ≡ finding_of fault.now }
{
    let said = fault.said();
    Finding {
        kind: FindingKind::Fault,
        name: said.name,
        message: said.sentence,
        place: whole_file(said.path),
        met: None,
        named: None,
        first: None,
        import: None,
    }
}

/// The bytes of a report that tells a fault, and nothing else.
fn bytes_of_start(
    alloc: Global,
    format: ReportFormat,
    fault: &StartFault,
) -> Result<Vec<u8>, AllocError>
    ensures { IfOk result (λ bytes. bytes.items ≡ report_of_start format fault.now) }
{
    let findings = [finding_of(fault)];
    let counts = counts_of(0, &[], fault.status());
    report_bytes(alloc, format, &findings, &counts)
}

/// Whether its place took a report, or a write was refused.
fn is_tried(reported: &Result<(), Fault>) -> bool
    ensures { result ≡ is_tried reported.now }
{
    match reported {
        Ok(()) => true,
        Err(fault) => matches!(fault, Fault::Write(_)),
    }
}

/// Puts the report of a run that doesn't start at its place, if one is asked for, and gives the fault that is to be
/// said: this one, or `Memory` if there is no memory for the report. If the report can't be written, nothing is said of
/// that: the run has a fault of its own.
///
/// What is at the place stays if it may be a source, since it isn't known which files are sources; and if `is_out`: the
/// index goes there.
pub(crate) fn put_start_report<Q: OutPlace>(
    alloc: Global,
    options: &ReportOptions,
    is_out: bool,
    fault: StartFault,
    at: &mut Q,
) -> StartFault
    ensures { EndsUnstarted (place Q.OutPlace Q.Part.Sink at.old at.new)
        (Q.suspects at.old) is_out options.now fault result }
{
    match &options.path {
        Some(_) => {}
        None => return fault,
    }
    if is_out {
        return fault;
    }
    if at.may_be_source() {
        return fault;
    }
    let bytes = match bytes_of_start(alloc, options.format, &fault) {
        Ok(bytes) => bytes,
        Err(AllocError) => return StartFault::Load(LoadFault::Memory),
    };
    let reported = put_bytes(alloc, at, bytes.as_slice());
    if is_tried(&reported) {
        return fault;
    }
    StartFault::Load(LoadFault::Memory)
}
