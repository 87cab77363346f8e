//! What is said on the stream of messages.

ghost use Rattle.std.specs.Prelude.{MatchResult, string_bytes};
ghost use Rattle.streams.specs.Writers.{writer};
ghost use Rattle.programs.specs.Messages.{Says, memory_line, memory_status};

use protoscip::MEMORY_STATUS;
use scip_site::say;
use std::alloc::AllocError;
use streams::Sink;

/// Says in one line why a program stops, and gives this exit status. If there is no memory for the line, it says that
/// memory ran out, and gives that status. What the stream doesn't take is lost. If the line is cut off, no line end
/// follows it.
pub fn report<M: Sink>(line: Result<String, AllocError>, status: u8, messages: &mut M) -> u8
    ensures { MatchResult line
        (λ text. Says (string_bytes text) status (writer M.Sink messages) result)
        (λ _. Says memory_line memory_status (writer M.Sink messages) result) }
{
    match line {
        Ok(line) => {
            say(messages, line.as_str());
            status
        }
        Err(_) => {
            say(messages, "protoscip: Memory");
            MEMORY_STATUS
        }
    }
}
