//! What is reported where files hold no index together.

ghost use Rattle.std.specs.Prelude.{[], IfOk, map, string_bytes};
ghost use Rattle.streams.specs.Writers.{writer};
ghost use Rattle.programs.specs.FilesFaults.{IsTold, status_of};
ghost use Rattle.programs.specs.Messages.{TellsOne};

use crate::causes::with_reason;
use crate::files_fault::{FilesFault, ToldBy};
use crate::host::Host;
use crate::messages::report;
use source_files::LookAgain;
use std::alloc::AllocError;
use streams::Sink;

/// The line, without its end, that says this of the files with these paths; explained, if that is asked for, also by
/// why a file can't be read.
fn reasoned_text<R, F: LookAgain>(
    host: &Host<'_, R, F>,
    fault: &FilesFault,
    by: ToldBy,
    paths: &[String],
    explain: bool,
) -> Result<String, AllocError>
    ensures { IfOk result (λ text. IsTold (F.blames host.now.files.now [] []) by explain (map string_bytes paths.now)
        fault.now (string_bytes text)) }
{
    let text = fault.text(host.alloc, by, paths, explain)?;
    match fault.unread_path(paths, explain) {
        Some(path) => with_reason(text, host.files.why_unread(&[], &[], path)?),
        None => Ok(text),
    }
}

/// Says why the files with these paths hold no index together, explained if that is asked for, and gives the exit
/// status.
pub(crate) fn report_files<R, F: LookAgain, M: Sink>(
    host: &Host<'_, R, F>,
    fault: &FilesFault,
    by: ToldBy,
    paths: &[String],
    explain: bool,
    messages: &mut M,
) -> u8
    ensures { TellsOne (IsTold (F.blames host.now.files.now [] []) by explain (map string_bytes paths.now) fault.now)
        (status_of fault.now) (writer M.Sink messages) result }
{
    let text = reasoned_text(host, fault, by, paths, explain);
    report(text, fault.status(), messages)
}
