//! Why commands about the index of files aren't answered: what is said about it, and the exit status.

ghost use Rattle.std.specs.Prelude.{◌≡◌, [], IfOk, map, string_bytes};
ghost use Rattle.streams.specs.Writers.{writer};
ghost use Rattle.programs.specs.Messages.{TellsOne};
ghost use Rattle.programs.specs.QueryFaults.{IsTold, answer_explanation, answer_status, answer_told, status_of};

use crate::fault_texts::explained;
use crate::files_fault::{FilesFault, ToldBy};
use crate::files_report::report_files;
use crate::host::Host;
use crate::messages::report;
use protoscip::{MEMORY_STATUS, STREAM_STATUS, plain_line};
use scip_query::AnswerFault;
use source_files::LookAgain;
use std::alloc::{AllocError, Global};
use streams::Sink;

/// Why commands about the index that files hold aren't answered: the first of those that hold.
#[derive(Debug, Drop)]
pub(crate) enum QueryFault {
    /// They hold none, or memory ran out.
    NoIndex(FilesFault),
    /// Reading commands or writing answers failed, or memory ran out.
    Answers(AnswerFault),
}

impl From<FilesFault> for QueryFault {
    ghost use Rattle.programs.specs.declared.query_fault.QueryFault.TheVariants.{NoIndex};

    ghost from_gives = { λ fault e. e ≡ NoIndex fault };

    fn from(fault: FilesFault) -> QueryFault {
        QueryFault::NoIndex(fault)
    }
}

/// What explains that commands can't be read, or answers written, after a line end; nothing for lack of memory.
fn answer_explanation(fault: AnswerFault) -> &'static str
    ensures { result.now ≡ answer_explanation fault }
{
    match fault {
        AnswerFault::Read => "\nstandard input couldn't be read to its end",
        AnswerFault::Write(_) => {
            "\nthe output can't be made, or its disk is full, or nobody reads it"
        }
        AnswerFault::Memory => "",
    }
}

/// The exit status of that.
fn answer_status(fault: AnswerFault) -> u8
    ensures { result ≡ answer_status fault }
{
    match fault {
        AnswerFault::Read | AnswerFault::Write(_) => STREAM_STATUS,
        AnswerFault::Memory => MEMORY_STATUS,
    }
}

/// The line, without its end, of that, explained if that is asked for.
fn answer_text(alloc: Global, fault: AnswerFault, explain: bool) -> Result<String, AllocError>
    ensures { IfOk result (λ text. string_bytes text ≡ answer_told explain fault) }
{
    let line = plain_line(alloc, fault.name())?;
    explained(line, answer_explanation(fault), explain)
}

/// Says why commands about the index that the files with these paths hold aren't answered, explained if that is asked
/// for, and gives the exit status.
pub(crate) fn report_query<R, F: LookAgain, M: Sink>(
    host: &Host<'_, R, F>,
    fault: &QueryFault,
    paths: &[String],
    explain: bool,
    messages: &mut M,
) -> u8
    ensures { TellsOne (IsTold (F.blames host.now.files.now [] []) explain (map string_bytes paths.now) fault.now)
        (status_of fault.now) (writer M.Sink messages) result }
{
    match fault {
        QueryFault::NoIndex(fault) => {
            report_files(host, fault, ToldBy::Other, paths, explain, messages)
        }
        QueryFault::Answers(fault) => {
            let text = answer_text(host.alloc, *fault, explain);
            report(text, answer_status(*fault), messages)
        }
    }
}
