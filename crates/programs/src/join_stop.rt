//! Why several indexes aren't joined: what is said about it, and the exit status.

ghost use Rattle.std.specs.Prelude.{◌≡◌, [], IfOk, map, string_bytes};
ghost use Rattle.streams.specs.Writers.{writer};
ghost use Rattle.programs.specs.JoinStops.{IsTold, status_of, write_told};
ghost use Rattle.programs.specs.Messages.{TellsOne};

use crate::fault_texts::explained;
use crate::files_fault::{FilesFault, ToldBy};
use crate::files_report::report_files;
use crate::host::Host;
use crate::messages::report;
use protoscip::{STREAM_STATUS, plain_line};
use scip_wire::WriteFault;
use source_files::LookAgain;
use std::alloc::{AllocError, Global};
use streams::Sink;

/// Why several indexes aren't joined: the first of those that hold.
#[derive(Debug, Drop)]
pub(crate) enum JoinStop {
    /// They have no join, or memory ran out.
    NoJoin(FilesFault),
    /// A write fails, or the place refuses what was written.
    Write,
}

impl From<FilesFault> for JoinStop {
    ghost use Rattle.std.specs.Prelude.{◌≡◌};
    ghost use Rattle.programs.specs.declared.join_stop.JoinStop.TheVariants.{NoJoin};

    ghost from_gives = { λ fault e. e ≡ NoJoin fault };

    fn from(fault: FilesFault) -> JoinStop {
        JoinStop::NoJoin(fault)
    }
}

impl From<AllocError> for JoinStop {
    ghost use Rattle.std.specs.Prelude.{◌≡◌};
    ghost use Rattle.programs.specs.declared.files_fault.FilesFault.TheVariants.{Memory};
    ghost use Rattle.programs.specs.declared.join_stop.JoinStop.TheVariants.{NoJoin};

    ghost from_gives = { λ _ e. e ≡ NoJoin Memory };

    fn from(_refused: AllocError) -> JoinStop {
        JoinStop::NoJoin(FilesFault::Memory)
    }
}

impl From<WriteFault> for JoinStop {
    ghost use Rattle.programs.specs.JoinStops.{stop_of_writing};

    ghost from_gives = { λ fault e. e ≡ stop_of_writing fault };

    fn from(fault: WriteFault) -> JoinStop {
        match fault {
            WriteFault::TooLarge => JoinStop::NoJoin(FilesFault::TooLarge),
            WriteFault::Write(_) => JoinStop::Write,
        }
    }
}

/// The line, without its end, of a write that fails, explained if that is asked for.
fn write_text(alloc: Global, explain: bool) -> Result<String, AllocError>
    ensures { IfOk result (λ text. string_bytes text ≡ write_told explain) }
{
    let line = plain_line(alloc, "Write")?;
    let explanation = "\nthe output can't be made, or its disk is full, or nobody reads it";
    explained(line, explanation, explain)
}

/// Says why the indexes of the files with these paths aren't joined, explained if that is asked for, and gives the exit
/// status.
pub(crate) fn report_join<R, F: LookAgain, M: Sink>(
    host: &Host<'_, R, F>,
    stop: &JoinStop,
    paths: &[String],
    explain: bool,
    messages: &mut M,
) -> u8
    ensures { TellsOne (IsTold (F.blames host.now.files.now [] []) explain (map string_bytes paths.now) stop.now)
        (status_of stop.now) (writer M.Sink messages) result }
{
    match stop {
        JoinStop::NoJoin(fault) => {
            report_files(host, fault, ToldBy::Join, paths, explain, messages)
        }
        JoinStop::Write => report(write_text(host.alloc, explain), STREAM_STATUS, messages),
    }
}
