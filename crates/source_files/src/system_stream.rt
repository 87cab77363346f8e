//! A stream of the system that keeps why its last write failed.

ghost use Rattle.std.specs.Prelude.{◌≡◌, None, Some, IfOk, IfErr, IfNone, IfSome};
ghost use Rattle.std.specs.IoError.{error_kind};
ghost use Rattle.source_files.specs.Causes.{cause_of};

use crate::cause::{Cause, Caused};
use std::io;
use std::io::Write;
use streams::{Failed, Sink, write_again};

/// A writer of `std::io` that is a `Sink`, and says why its last write failed.
///
/// A call that a signal interrupts is made again.
#[derive(Debug, Drop)]
pub struct SystemStream<T> {
    inner: T,
    failures: u64,
    cause: Option<Cause>,
}

impl<T> SystemStream<T> {
    /// Over a writer to which nothing was written yet.
    pub fn new(inner: T) -> SystemStream<T>
        ensures inner { result.inner ≡ inner }
        ensures failures { result.failures ≡ 0 }
        ensures cause { result.cause ≡ None }
    {
        SystemStream {
            inner,
            failures: 0,
            cause: None,
        }
    }

    /// The writer.
    pub fn into_inner(self) -> T
        ensures { result ≡ self.inner }
    {
        self.inner
    }
}

/// Why a call failed, if the system gave an error.
pub(crate) fn cause_in<T>(answer: &io::Result<T>) -> Option<Cause>
    ensures done { IfOk answer.now (λ _. result ≡ None) }
    ensures refused { IfErr answer.now (λ error. result ≡ Some (cause_of (error_kind error))) }
{
    match answer {
        Ok(_) => None,
        Err(error) => Some(Cause::of(error)),
    }
}

impl<W: Write> Sink for SystemStream<W> {
    ghost contents = { λ s. W.contents s.inner };

    ghost failures = { λ s. s.failures };

    fn write(&mut self, bytes: &[u8]) -> Result<usize, Failed> {
        let result = write_again(&mut self.inner, bytes);
        self.cause = cause_in(&result);
        let failed = match &result {
            Ok(count) => *count == 0 && !bytes.is_empty(),
            Err(_) => true,
        };
        if failed {
            self.failures = self.failures.saturating_add(1);
        }
        result.map_err(|_| Failed)
    }
}

impl<W> Caused for SystemStream<W> {
    ghost cause = { λ s. s.cause };

    fn cause(&self) -> Option<Cause> {
        self.cause
    }
}
