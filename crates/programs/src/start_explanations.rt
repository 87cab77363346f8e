//! What explains why a program about a tree doesn't start.

ghost use Rattle.std.specs.Prelude.{◌≡◌, ◌++◌, IfOk, OnOk, string_bytes};
ghost use Rattle.std.specs.Option.{option_map};
ghost use Rattle.streams.specs.Writers.{writer};
ghost use Rattle.programs.specs.Messages.{Tells, TellsOne};
ghost use Rattle.programs.specs.Searches.{blamed_by};
ghost use Rattle.programs.specs.StartExplanations.{IsTold, explanation_of, told, unread_path};
ghost use Rattle.programs.specs.StartFaults.{status_of};

use crate::causes::with_reason;
use crate::folders::folders_read;
use crate::host::Host;
use crate::messages::report;
use crate::start_fault::StartFault;
use command_line::IndexOptions;
use source_files::{LoadFault, LookAgain};
use std::alloc::{AllocError, Global};
use streams::Sink;

/// Appends the sentence about it behind a line end; but nothing for a fault of the command line, and for lack of memory.
fn push_explanation(out: &mut String, fault: &StartFault) -> Result<(), AllocError>
    ensures { OnOk result (string_bytes out.new ≡ string_bytes out.old ++ explanation_of fault.now) }
{
    match fault {
        StartFault::BadPart | StartFault::BadFolder(_) | StartFault::Load(LoadFault::Memory) => {
            Ok(())
        }
        StartFault::Load(
            LoadFault::Unreadable(_)
            | LoadFault::TooMany
            | LoadFault::BadPath(_)
            | LoadFault::SamePath(_),
        )
        | StartFault::Unlisted(_, _)
        | StartFault::IsSource(_)
        | StartFault::ReportIsSource(_)
        | StartFault::ReportIsOut(_) => {
            out.push_str("\n")?;
            out.push_str(fault.said().sentence)
        }
    }
}

/// The line, without its end, that says this, explained if that is asked for.
fn start_text(alloc: Global, fault: &StartFault, explain: bool) -> Result<String, AllocError>
    ensures { IfOk result (λ text. string_bytes text ≡ told explain fault.now) }
{
    let mut text = fault.line(alloc)?;
    if explain {
        push_explanation(&mut text, fault)?;
    }
    Ok(text)
}

/// Says why a program about a tree doesn't start, explained if that is asked for, and gives the exit status.
pub(crate) fn report_start<M: Sink>(
    alloc: Global,
    fault: &StartFault,
    explain: bool,
    messages: &mut M,
) -> u8
    ensures { Tells (told explain fault.now) (status_of fault.now)
        (writer M.Sink messages) result }
{
    let text = start_text(alloc, fault, explain);
    report(text, fault.status(), messages)
}

/// The path of what can't be read, if that is the fault and it is to be explained.
fn unread_path(fault: &StartFault, explain: bool) -> Option<&str>
    ensures { option_map (λ path. path.now) result ≡ unread_path explain fault.now }
{
    if !explain {
        return None;
    }
    match fault {
        StartFault::Load(fault) => match fault {
            LoadFault::Unreadable(name) => Some(name.as_str()),
            LoadFault::TooMany
            | LoadFault::BadPath(_)
            | LoadFault::SamePath(_)
            | LoadFault::Memory => None,
        },
        StartFault::Unlisted(_, path) => Some(path.as_str()),
        StartFault::BadPart
        | StartFault::BadFolder(_)
        | StartFault::IsSource(_)
        | StartFault::ReportIsSource(_)
        | StartFault::ReportIsOut(_) => None,
    }
}

/// The line, without its end, that says this of a program that these options are for; explained, if that is asked for,
/// also by why a path can't be read.
fn unstarted_text<R, F: LookAgain>(
    host: &Host<'_, R, F>,
    options: &IndexOptions,
    fault: &StartFault,
) -> Result<String, AllocError>
    ensures { IfOk result (λ text. IsTold (blamed_by options.now (F.blames host.now.files.now)) options.now.explain
        fault.now (string_bytes text)) }
{
    let text = start_text(host.alloc, fault, options.explain)?;
    match unread_path(fault, options.explain) {
        Some(path) => {
            let folders = folders_read(host.alloc, options)?;
            let why = host.files.why_unread(&folders, &options.exclude, path)?;
            with_reason(text, why)
        }
        None => Ok(text),
    }
}

/// Says why a program that these options are for doesn't start, explained if that is asked for, also by why a path
/// can't be read, and gives the exit status.
pub(crate) fn report_unstarted<R, F: LookAgain, M: Sink>(
    host: &Host<'_, R, F>,
    options: &IndexOptions,
    fault: &StartFault,
    messages: &mut M,
) -> u8
    ensures { TellsOne (IsTold (blamed_by options.now (F.blames host.now.files.now)) options.now.explain fault.now)
        (status_of fault.now) (writer M.Sink messages) result }
{
    let text = unstarted_text(host, options, fault);
    report(text, fault.status(), messages)
}
