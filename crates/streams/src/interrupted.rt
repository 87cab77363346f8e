//! Calls that a signal interrupts are made again.

ghost use Rattle.std.specs.Prelude.{◌≤◌, length, IfOk};
ghost use Rattle.std.specs.Io.{ReadsAtMost};
ghost use Rattle.std.specs.Io.KnownBytes.{ReadConsumes, WriteAppends};

use std::io::{Error, ErrorKind, Read, Result, Write};

/// How often a call is made, at most.
const TRIES: u32 = 1_000_000;

/// Writes once, as `Write::write` does. A call that a signal interrupts is made again, up to `TRIES` times.
pub fn write_again<W: Write>(out: &mut W, bytes: &[u8]) -> Result<usize>
    ensures bound { IfOk result (λ count. count ≤ length bytes.now) }
    ensures bytes { WriteAppends (W.contents out.old) (W.contents out.new) result bytes.now }
{
    'tries: for _try in 0..TRIES {
        match out.write(bytes) {
            Ok(count) => return Ok(count),
            Err(error) => {
                if error.kind() != ErrorKind::Interrupted {
                    return Err(error);
                }
            }
        }
    }
    Err(Error::from(ErrorKind::Interrupted))
}

/// Reads once, as `Read::read` does. A call that a signal interrupts is made again, up to `TRIES` times.
pub fn read_again<R: Read>(source: &mut R, room: &mut [u8]) -> Result<usize>
    ensures bound { ReadsAtMost result room.new }
    ensures bytes { ReadConsumes (R.remaining source.old) (R.remaining source.new) result room.new }
{
    'tries: for _try in 0..TRIES {
        match source.read(room) {
            Ok(count) => return Ok(count),
            Err(error) => {
                if error.kind() != ErrorKind::Interrupted {
                    return Err(error);
                }
            }
        }
    }
    Err(Error::from(ErrorKind::Interrupted))
}
