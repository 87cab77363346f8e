//! Writing to the program's output.

ghost use Rattle.streams.specs.Writers.{writer};
ghost use Rattle.protoscip.specs.Output.{Writes};

use crate::fault::Fault;
use streams::{Sink, write_all};

/// Writes a text.
///
/// - `Write(count)`: a write failed after `count` bytes of the text were written.
pub fn write_text<W: Sink>(out: &mut W, text: &str) -> Result<(), Fault>
    ensures { Writes (writer W.Sink out) text.now result }
{
    match write_all(out, text.as_bytes()) {
        Ok(()) => Ok(()),
        Err(cut_off) => Err(Fault::Write(cut_off.written as u64)),
    }
}
