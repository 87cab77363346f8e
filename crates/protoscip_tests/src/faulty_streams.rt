//! Readers and writers of the tests.

use std::io;
use std::io::{ErrorKind, Read, Write};

/// A reader that gives at most `most` bytes a call, and fails behind so many calls. If it rests at each second call,
/// that one gives nothing, as at an end.
#[derive(Clone, Copy)]
pub struct Dripping<'a> {
    pub bytes: &'a [u8],
    pub most: usize,
    pub calls_left: usize,
    pub each_second: bool,
    pub rests: bool,
}

/// One that doesn't rest.
pub fn drip(bytes: &[u8], most: usize, calls_left: usize) -> Dripping<'_> {
    Dripping {
        bytes,
        most,
        calls_left,
        each_second: false,
        rests: false,
    }
}

/// One that rests at each second call, and doesn't fail.
pub fn resting(bytes: &[u8], most: usize) -> Dripping<'_> {
    Dripping {
        bytes,
        most,
        calls_left: usize::MAX,
        each_second: true,
        rests: false,
    }
}

impl Read for Dripping<'_> {
    fn read(&mut self, room: &mut [u8]) -> io::Result<usize> {
        if self.calls_left == 0 {
            return Err(io::Error::from(ErrorKind::Interrupted));
        }
        self.calls_left -= 1;
        if self.rests {
            self.rests = false;
            return Ok(0);
        }
        self.rests = self.each_second;
        let mut front = self.bytes.split_at(self.bytes.len().min(self.most)).0;
        let count = front.read(room)?;
        self.bytes = self.bytes.split_at(count.min(self.bytes.len())).1;
        Ok(count)
    }
}

/// A reader that gives spaces, one a call, without an end.
#[derive(Clone, Copy)]
pub struct Endless;

impl Read for Endless {
    fn read(&mut self, room: &mut [u8]) -> io::Result<usize> {
        match room {
            [place, ..] => {
                *place = b' ';
                Ok(1)
            }
            [] => Ok(0),
        }
    }
}

/// How a writer takes bytes: the most a call; whether it takes nothing behind its last byte, or fails; and whether it
/// takes nothing at each second call.
pub type Pace = (usize, bool, bool);

/// All that a call has.
pub const AT_ONCE: Pace = (usize::MAX, false, false);

/// The paces of writers that fail.
pub const PACES: [Pace; 9] = [
    (1, false, false),
    (1, true, false),
    (1, false, true),
    (7, false, false),
    (7, true, false),
    (7, false, true),
    (usize::MAX, false, false),
    (usize::MAX, true, false),
    (usize::MAX, false, true),
];

/// A writer that takes so many bytes, in this way.
#[derive(Drop)]
pub struct Failing {
    pub bytes: Vec<u8>,
    pub before: usize,
    pub pace: Pace,
    pub rests: bool,
}

impl Write for Failing {
    fn write(&mut self, bytes: &[u8]) -> io::Result<usize> {
        let (most, takes_nothing, each_second) = self.pace;
        if self.rests {
            self.rests = false;
            return Ok(0);
        }
        let count = bytes.len().min(self.before).min(most);
        if count == 0 {
            if takes_nothing {
                return Ok(0);
            }
            return Err(io::Error::from(ErrorKind::Other));
        }
        self.rests = each_second;
        self.bytes.extend_from_slice(bytes.split_at(count).0)?;
        self.before -= count;
        Ok(count)
    }

    fn flush(&mut self) -> io::Result<()> {
        Ok(())
    }
}
