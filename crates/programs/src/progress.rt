//! How far a run is, on one line of a terminal.

ghost use Rattle.std.specs.Prelude.{◌≡◌, length};

use crate::asking_ahead::AskingAhead;
use index_pool::Gate;
use source_tree::Tree;
use std::alloc::Global;
use std::sync::atomic::{AtomicU64, Ordering};
use std::time::{Clock, Duration, Instant};

/// It is shown once a run takes longer than this, in milliseconds,
const PATIENCE: u64 = 1_000;

/// and again after each such time.
const PAUSE: u64 = 100;

/// The clock is read after every so many files.
const FILES: u64 = 16;

/// What wipes the line, which is no longer than this.
const WIPED: &str = "\r                                                            \r";

/// A gate that shows how many files were read, and then how many sources were made, and asks for memory ahead.
///
/// It is shown beside the stream of messages, and nothing depends on it: what is written is lost where it can't
/// be, and where no clock is read, or memory ran out, nothing is shown.
#[derive(Drop)]
pub struct Progress<'a, T: Clock + Eprint> {
    ahead: AskingAhead,
    alloc: Global,
    terminal: &'a T,
    begun: Option<Instant>,
    files: u64,
    runs: AtomicU64,
    due: AtomicU64,
}

/// That the line is wiped, as `Progress::wipe` alone can say. What is said on the terminal then isn't spoiled.
#[derive(Drop)]
pub struct LineWiped {
    _after: (),
}

/// A time in milliseconds.
fn millis_of(time: Duration) -> u64 {
    let millis = u64::from(time.subsec_millis());
    time.as_secs().saturating_mul(1_000).saturating_add(millis)
}

impl<'a, T: Clock + Eprint> Progress<'a, T> {
    /// That of a run over so many files which began at that time; without a time nothing is shown.
    pub fn new(
        alloc: Global,
        terminal: &'a T,
        begun: Option<Instant>,
        files: usize,
    ) -> Progress<'a, T>
        ensures { result.files ≡ files }
    {
        Progress {
            ahead: AskingAhead::new(alloc),
            alloc,
            terminal,
            begun,
            files: files as u64,
            runs: AtomicU64::new(0),
            due: AtomicU64::new(PATIENCE),
        }
    }

    /// That of a run over a tree: its sources are read, and its included files.
    pub(crate) fn over(
        alloc: Global,
        terminal: &'a T,
        begun: Option<Instant>,
        tree: &Tree,
    ) -> Progress<'a, T>
        ensures { result.files ≡ length tree.now }
    {
        Progress::new(alloc, terminal, begun, tree.file_count())
    }

    /// Shows how many files were read, and sources made.
    fn show(&self, runs: u64) {
        let files = self.files;
        let read = runs.min(files);
        let made = runs.saturating_sub(read);
        let text = format!(in self.alloc; "\rprotoscip: {read} of {files} files read, {made} made");
        if let Ok(text) = text {
            let _ = self.terminal.eprint(text.as_str());
        }
    }

    /// Shows it where that is due, which one worker alone is told.
    fn show_if_due(&self, begun: &Instant, runs: u64) {
        let Ok(time) = begun.elapsed(self.terminal) else {
            return;
        };
        let now = millis_of(time);
        let due = self.due.load(Ordering::SeqCst);
        if now < due {
            return;
        }
        let next = now.saturating_add(PAUSE);
        let told = self
            .due
            .compare_exchange(due, next, Ordering::SeqCst, Ordering::SeqCst);
        if told.is_ok() {
            self.show(runs);
        }
    }

    /// Wipes the line, if one was shown. No other is shown then.
    pub fn wipe(self) -> LineWiped {
        if self.due.load(Ordering::SeqCst) != PATIENCE {
            let _ = self.terminal.eprint(WIPED);
        }
        LineWiped { _after: () }
    }
}

impl<'a, T: Clock + Eprint + Sync> Gate for Progress<'a, T> {
    type Entry = ();

    /// Asks for memory, if it is the turn of this file.
    fn before(&self, number: usize) {
        self.ahead.before(number);
    }

    /// Counts the file, and shows how far the run is where that is due.
    fn after(&self, _number: usize, _entry: ()) {
        let Some(begun) = &self.begun else {
            return;
        };
        let runs = self.runs.fetch_add(1, Ordering::SeqCst).saturating_add(1);
        if runs % FILES == 0 {
            self.show_if_due(begun, runs);
        }
    }
}
