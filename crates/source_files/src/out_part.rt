//! A file that is made at its first write.

ghost use Rattle.std.specs.Prelude.{◌≡◌, ◌≤◌, None, length, IfOk};

use crate::cause::{Cause, Caused};
use crate::out_way::{Way, sync};
use crate::system_stream::cause_in;
use std::fs::File;
use std::io;
use std::rt::Files;
use streams::{Failed, Sink, write_again};

/// What is to be in a file. It is made at the first write: as another file beside it, or, if that can't be, as the
/// file itself. What it holds isn't known. It is none of the standard streams, even where these are closed.
#[derive(Drop)]
pub struct OutPart<'a, S: Files> {
    system: &'a S,
    path: &'a str,
    way: Way,
    syncs: bool,
    held: [Option<S::File>; 3],
    file: Option<S::File>,
    failures: u64,
    cause: Option<Cause>,
}

impl<'a, S: Files> OutPart<'a, S> {
    /// The part of the file with a path, which isn't made yet. If `syncs`, the disk is to have it before it is put.
    pub(crate) fn new(system: &'a S, path: &'a str, way: Way, syncs: bool) -> OutPart<'a, S>
        ensures failures { result.failures ≡ 0 }
        ensures unmade { result.file ≡ None }
    {
        OutPart {
            system,
            path,
            way,
            syncs,
            held: [None, None, None],
            file: None,
            failures: 0,
            cause: None,
        }
    }

    /// A file that holds nothing, if the system has it.
    fn nothing(&self) -> Option<S::File> {
        File::open(self.system, "/dev/null").ok()
    }

    /// Makes the file. The system gives it the least number that is free, which is that of a standard stream if one is
    /// closed: so what is said would be written to it. Other files take these numbers before.
    fn make(&mut self) -> io::Result<()>
        ensures failures { self.new.failures ≡ self.old.failures }
    {
        self.held = [self.nothing(), self.nothing(), self.nothing()];
        self.file = Some(self.way.make(self.system, self.path)?);
        Ok(())
    }

    /// Makes the file if it isn't made yet, and writes to it.
    fn write_to_file(&mut self, bytes: &[u8]) -> io::Result<usize>
        ensures bound { IfOk result (λ count. count ≤ length bytes.now) }
        ensures failures { self.new.failures ≡ self.old.failures }
    {
        if self.file.is_none() {
            self.make()?;
        }
        match &mut self.file {
            Some(file) => write_again(file, bytes),
            None => Ok(0),
        }
    }

    /// Brings the file to its place, which is made if it isn't yet. The disk has it before, if it is to.
    pub(crate) fn finish(&mut self) -> io::Result<()> {
        if self.file.is_none() {
            self.make()?;
        }
        if let (Some(file), true) = (&self.file, self.syncs) {
            sync(file)?;
        }
        self.way.finish(self.system, self.syncs)
    }

    /// Removes the file, if it was made and isn't at its place.
    pub(crate) fn leave(&self) {
        if self.file.is_some() {
            self.way.leave(self.system);
        }
    }
}

impl<'a, S: Files> Sink for OutPart<'a, S> {
    ghost use Rattle.std.specs.Prelude.{None};

    ghost contents = { λ _. None };

    ghost failures = { λ s. s.failures };

    fn write(&mut self, bytes: &[u8]) -> Result<usize, Failed> {
        let failures = self.failures;
        let result = self.write_to_file(bytes);
        self.cause = cause_in(&result);
        match result {
            Ok(count) => {
                let failed = count == 0 && !bytes.is_empty();
                self.failures = if failed {
                    failures.saturating_add(1)
                } else {
                    failures
                };
                Ok(count)
            }
            Err(_) => {
                self.failures = failures.saturating_add(1);
                Err(Failed)
            }
        }
    }
}

impl<'a, S: Files> Caused for OutPart<'a, S> {
    ghost cause = { λ s. s.cause };

    fn cause(&self) -> Option<Cause> {
        self.cause
    }
}
