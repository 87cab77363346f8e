//! Answers to commands about the index that files hold.

ghost use Rattle.std.specs.Prelude.{map, string_bytes};
ghost use Rattle.streams.specs.Readers.{reader};
ghost use Rattle.streams.specs.Writers.{writer};
ghost use Rattle.protoscip.specs.Sessions.{MayAnswer};
ghost use Rattle.programs.specs.Queries.{Queried};

use crate::host::Host;
use crate::index_files::index_of_files;
use crate::query_fault::QueryFault;
use scip_query::{AnswerFault, Manner, Queries};
use scip_records::Index;
use source_files::ReadFiles;
use std::alloc::Global;
use std::mem::forget;
use streams::{Feed, Sink};

/// Answers commands about an index, as `answer_commands_in` of `protoscip` does. The memory of the index isn't given
/// back.
fn answer_last<I: Feed, W: Sink>(
    alloc: Global,
    manner: Manner,
    index: Index,
    commands: &mut I,
    answers: &mut W,
) -> Result<(), AnswerFault>
    ensures { MayAnswer manner (reader I.Feed commands) (writer W.Sink answers) index result }
{
    match Queries::new(alloc, index) {
        Ok(queries) => {
            let answered = queries.answer_all_in(alloc, manner, commands, answers);
            // What was read goes with the process.
            forget(queries);
            answered
        }
        Err(_) => Err(AnswerFault::Memory),
    }
}

/// Reads the index that the files with these paths hold, and answers commands about it, one a line, as
/// `Queries::answer_all_in` does in the host's manner.
///
/// - `NoIndex`: they hold none.
/// - `Answers`: reading commands or writing answers failed, as `Queries::answer_all` says.
pub(crate) fn query<R, F: ReadFiles, I: Feed, W: Sink>(
    host: &Host<'_, R, F>,
    paths: &[String],
    commands: &mut I,
    answers: &mut W,
) -> Result<(), QueryFault>
    ensures { Queried host.now.manner (F.gives host.now.files.now) (map string_bytes paths.now)
        (reader I.Feed commands) (writer W.Sink answers) result }
{
    let index = index_of_files(host.alloc, host.files, paths)?;
    match answer_last(host.alloc, host.manner, index, commands, answers) {
        Ok(()) => Ok(()),
        Err(fault) => Err(QueryFault::Answers(fault)),
    }
}
