//! Answers to commands about an index.

ghost use Rattle.streams.specs.Readers.{reader};
ghost use Rattle.streams.specs.Writers.{writer};
ghost use Rattle.protoscip.specs.Sessions.{MayAnswer};
ghost use Rattle.scip_query.specs.declared.manner.Manner.TheVariants.{Plain};

use scip_query::{AnswerFault, Manner, Queries};
use scip_records::Index;
use std::alloc::Global;
use streams::{Feed, Sink};

/// Answers commands about an index, one a line, as `Queries::answer_all` does. If there is no memory for the tables,
/// nothing is read or written.
pub fn answer_commands<F: Feed, W: Sink>(
    alloc: Global,
    index: Index,
    commands: &mut F,
    answers: &mut W,
) -> Result<(), AnswerFault>
    ensures { MayAnswer Plain (reader F.Feed commands) (writer W.Sink answers) index result }
{
    answer_commands_in(alloc, Manner::Plain, index, commands, answers)
}

/// The same in a manner, as `Queries::answer_all_in` does.
pub fn answer_commands_in<F: Feed, W: Sink>(
    alloc: Global,
    manner: Manner,
    index: Index,
    commands: &mut F,
    answers: &mut W,
) -> Result<(), AnswerFault>
    ensures { MayAnswer manner (reader F.Feed commands) (writer W.Sink answers) index result }
{
    match Queries::new(alloc, index) {
        Ok(queries) => queries.answer_all_in(alloc, manner, commands, answers),
        Err(_) => Err(AnswerFault::Memory),
    }
}
