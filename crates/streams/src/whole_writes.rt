//! Writing the whole of a text.

ghost use Rattle.std.specs.Prelude.{IfErr, OnOk};
ghost use Rattle.streams.specs.Writers.{IsWritten, IsCutOff, writer};

use crate::failed::Failed;
use crate::sink::Sink;
use thiserror::Error;

/// A write failed before all of the bytes were written.
#[derive(Clone, Copy, Debug, PartialEq, Eq, Error)]
#[error("a write failed after {written} bytes")]
pub struct CutOff {
    /// How many of the bytes were written before it, from the first on.
    pub written: usize,
}

/// Writes all of the bytes, in as many writes as the sink takes. The first failure ends it.
pub fn write_all<W: Sink>(sink: &mut W, bytes: &[u8]) -> Result<(), CutOff>
    ensures ok { OnOk result (IsWritten (writer W.Sink sink) bytes.now) }
    ensures err { IfErr result (λ e. IsCutOff (writer W.Sink sink) bytes.now e.written) }
{
    let mut rest = bytes;
    'writes: while !rest.is_empty() {
        let cut_off = CutOff {
            written: bytes.len() - rest.len(),
        };
        match sink.write(rest) {
            Ok(count) => {
                if count == 0 {
                    return Err(cut_off);
                }
                rest = rest.split_at(count).1;
            }
            Err(Failed) => return Err(cut_off),
        }
    }
    Ok(())
}
