//! What is printed.

ghost use Rattle.std.specs.Prelude.{◌≡◌};
ghost use Rattle.streams.specs.Writers.{writer};
ghost use Rattle.programs.specs.Printing.{Prints, is_closed};

use crate::messages::report;
use protoscip::{STREAM_STATUS, plain_line};
use source_files::{Cause, Caused};
use std::alloc::Global;
use streams::{Sink, write_all};

/// Whether the last write failed because the pipe that it goes to is closed by its reader.
pub(crate) fn is_closed<W: Caused>(out: &W) -> bool
    ensures { result ≡ is_closed (W.cause out.now) }
{
    match out.cause() {
        Some(Cause::ClosedPipe) => true,
        _ => false,
    }
}

/// Prints bytes, and gives the exit status. If a write fails, it says so, unless the pipe is closed by its reader,
/// who wants no more.
pub(crate) fn print_bytes<W: Sink + Caused, M: Sink>(
    alloc: Global,
    bytes: &[u8],
    out: &mut W,
    messages: &mut M,
) -> u8
    ensures { Prints W.cause bytes.now (writer W.Sink out)
        (writer M.Sink messages) result }
{
    match write_all(out, bytes) {
        Ok(()) => 0,
        Err(_) => {
            if is_closed(out) {
                return 0;
            }
            let line = plain_line(alloc, "Write");
            report(line, STREAM_STATUS, messages)
        }
    }
}

/// Prints a text in the same way.
pub(crate) fn print<W: Sink + Caused, M: Sink>(
    alloc: Global,
    text: &str,
    out: &mut W,
    messages: &mut M,
) -> u8
    ensures { Prints W.cause text.now (writer W.Sink out)
        (writer M.Sink messages) result }
{
    print_bytes(alloc, text.as_bytes(), out, messages)
}
