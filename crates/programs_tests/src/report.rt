//! What standard error is told.

use crate::shared::see;
use programs::report;
use std::alloc::{AllocError, Global};
use std::io;
use std::io::{ErrorKind, Write};
use std::process::Abort;
use std::test::Fail;
use streams::Std;

/// A writer into room that it doesn't own, which fails once behind so many bytes, and then takes all.
#[derive(Drop)]
struct Failing<'a> {
    room: &'a mut [u8],
    before: usize,
    has_failed: bool,
}

impl Write for Failing<'_> {
    fn write(&mut self, bytes: &[u8]) -> io::Result<usize> {
        if self.has_failed {
            return self.room.write(bytes);
        }
        let count = bytes.len().min(self.before);
        if count == 0 {
            self.has_failed = true;
            return Err(io::Error::from(ErrorKind::Other));
        }
        self.before -= count;
        self.room.write(bytes.split_at(count).0)
    }

    fn flush(&mut self) -> io::Result<()> {
        Ok(())
    }
}

/// Sees that a line is reported with this status, and that the stream, which fails once behind so many
/// bytes, then has these bytes.
fn see_reported(
    rt: &impl Abort,
    line: Result<String, AllocError>,
    before: usize,
    status: u8,
    due: &[u8],
) {
    let mut told = [0u8; 32];
    let mut messages = Std::new(Failing {
        room: told.as_mut_slice(),
        before,
        has_failed: false,
    });
    let ended = report(line, 3, &mut messages);
    let count = 32 - messages.into_inner().room.len().min(32);
    see(rt, ended == status, "the status");
    see(rt, told.split_at(count.min(32)).0 == due, "what is told");
}

/// The line of a fault.
fn line_of(alloc: Global) -> Result<String, AllocError> {
    String::from_str(alloc, "protoscip: Read")
}

#[test]
fn a_line_and_its_end(rt: HostRuntime) -> Result<(), Fail> {
    see_reported(&rt, Ok(line_of(rt.alloc())?), 32, 3, b"protoscip: Read\n");
    see_reported(&rt, Err(AllocError), 32, 4, b"protoscip: Memory\n");
    Ok(())
}

#[test]
fn no_line_end_follows_a_line_that_was_cut_off(rt: HostRuntime) -> Result<(), Fail> {
    for before in 0..15 {
        let due = &b"protoscip: Read"[..before];
        see_reported(&rt, Ok(line_of(rt.alloc())?), before, 3, due);
    }
    Ok(())
}
