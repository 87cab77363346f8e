//! Writers and readers of the standard library as sinks and feeds.

ghost use Rattle.std.specs.Prelude.{◌≡◌};
ghost use Rattle.streams.specs.StdStreams.{inner_of, failures_of, reads_of, ends_of};

use crate::failed::Failed;
use crate::feed::Feed;
use crate::interrupted::{read_again, write_again};
use crate::sink::Sink;
use std::io::{Read, Write};

/// A writer of `std::io` that is a [`Sink`], or a reader that is a [`Feed`].
///
/// A call that a signal interrupts is made again.
#[derive(Debug, Drop)]
pub struct Std<T> {
    inner: T,
    failures: u64,
    reads: u64,
    ends: u64,
}

impl<T> Std<T> {
    /// Over a writer or a reader, with each count at 0.
    pub fn new(inner: T) -> Std<T>
        ensures inner { inner_of result ≡ inner }
        ensures failures { failures_of result ≡ 0 }
        ensures reads { reads_of result ≡ 0 }
        ensures ends { ends_of result ≡ 0 }
    {
        Std {
            inner,
            failures: 0,
            reads: 0,
            ends: 0,
        }
    }

    /// The writer or reader.
    pub fn into_inner(self) -> T
        ensures { result ≡ inner_of self }
    {
        self.inner
    }
}

impl<W: Write> Sink for Std<W> {
    ghost use Rattle.streams.specs.StdStreams.{inner_of, failures_of};

    ghost contents = { λ s. W.contents (inner_of s) };

    ghost failures = { failures_of };

    fn write(&mut self, bytes: &[u8]) -> Result<usize, Failed> {
        let result = write_again(&mut self.inner, bytes);
        let failed = match &result {
            Ok(count) => *count == 0 && !bytes.is_empty(),
            Err(_) => true,
        };
        if failed {
            self.failures = self.failures.saturating_add(1);
        }
        result.map_err(|_| Failed)
    }
}

impl<R: Read> Feed for Std<R> {
    ghost use Rattle.streams.specs.StdStreams.{inner_of, failures_of, reads_of, ends_of};

    ghost remaining = { λ s. R.remaining (inner_of s) };

    ghost failures = { failures_of };

    ghost reads = { reads_of };

    ghost ends = { ends_of };

    fn read(&mut self, room: &mut [u8]) -> Result<usize, Failed> {
        let has_room = !room.is_empty();
        if has_room {
            self.reads = self.reads.saturating_add(1);
        }
        match read_again(&mut self.inner, room) {
            Ok(count) => {
                if has_room && count == 0 {
                    self.ends = self.ends.saturating_add(1);
                }
                Ok(count)
            }
            Err(_) => {
                self.failures = self.failures.saturating_add(1);
                Err(Failed)
            }
        }
    }
}
