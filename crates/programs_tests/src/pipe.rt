//! An output with little room.

use std::io;
use std::io::{ErrorKind, Write};

/// Room that it doesn't own. Once that is used, nothing is taken, or the reader has closed the pipe.
#[derive(Drop)]
pub(crate) struct Pipe<'a> {
    pub(crate) room: &'a mut [u8],
    /// Whether the pipe is closed then.
    pub(crate) closes: bool,
}

impl Write for Pipe<'_> {
    fn write(&mut self, bytes: &[u8]) -> io::Result<usize> {
        if self.closes && self.room.is_empty() {
            return Err(io::Error::from(ErrorKind::BrokenPipe));
        }
        self.room.write(bytes)
    }

    fn flush(&mut self) -> io::Result<()> {
        Ok(())
    }
}
