//! How often a job and its gate are called for each input.

use std::alloc::{AllocError, Global};
use std::sync::atomic::{AtomicU64, Ordering};

/// Counts all calls of `run`, and the calls for each input: of the gate before it, of `run` where that
/// one was before it, and of the gate after it where both were.
#[derive(Drop)]
pub(crate) struct Counts {
    calls: AtomicU64,
    runs: Vec<AtomicU64>,
    before: Vec<AtomicU64>,
    after: Vec<AtomicU64>,
}

/// So many zeros.
pub(crate) fn zeros(alloc: Global, inputs: usize) -> Result<Vec<AtomicU64>, AllocError> {
    let mut zeros = Vec::new(alloc);
    for _ in 0..inputs {
        zeros.push(AtomicU64::new(0))?;
    }
    Ok(zeros)
}

/// Counts of no calls, for so many inputs.
pub(crate) fn no_counts(alloc: Global, inputs: usize) -> Result<Counts, AllocError> {
    Ok(Counts {
        calls: AtomicU64::new(0),
        runs: zeros(alloc, inputs)?,
        before: zeros(alloc, inputs)?,
        after: zeros(alloc, inputs)?,
    })
}

/// Counts one more call for an input.
fn add_one(counts: &Vec<AtomicU64>, number: usize) {
    if number < counts.len() {
        counts[number].fetch_add(1, Ordering::SeqCst);
    }
}

/// Whether there was one call for an input.
fn is_one(counts: &Vec<AtomicU64>, number: usize) -> bool {
    number < counts.len() && counts[number].load(Ordering::SeqCst) == 1
}

/// Whether the counts below this number are 1, and the others 0.
fn once_below(counts: &Vec<AtomicU64>, inputs: usize) -> bool {
    for number in 0..counts.len() {
        if counts[number].load(Ordering::SeqCst) != u64::from(number < inputs) {
            return false;
        }
    }
    true
}

impl Counts {
    /// Counts a call of `run`.
    pub(crate) fn add_run(&self, number: usize) {
        self.calls.fetch_add(1, Ordering::SeqCst);
        if is_one(&self.before, number) {
            add_one(&self.runs, number);
        }
    }

    /// Counts a call of the gate before an input.
    pub(crate) fn add_before(&self, number: usize) {
        add_one(&self.before, number);
    }

    /// Counts a call of the gate after an input.
    pub(crate) fn add_after(&self, number: usize) {
        if is_one(&self.runs, number) {
            add_one(&self.after, number);
        }
    }

    /// How often `run` was called.
    pub(crate) fn calls(&self) -> u64 {
        self.calls.load(Ordering::SeqCst)
    }

    /// Whether each call came once for each of so many inputs, and for no other.
    pub(crate) fn are_once(&self, inputs: usize) -> bool {
        once_below(&self.runs, inputs)
            && once_below(&self.before, inputs)
            && once_below(&self.after, inputs)
    }

    /// Whether an input was begun at most once, and then run to its end.
    fn is_ended(&self, number: usize) -> bool {
        if number >= self.before.len() || number >= self.runs.len() || number >= self.after.len() {
            return false;
        }
        let begun = self.before[number].load(Ordering::SeqCst);
        begun <= 1
            && self.runs[number].load(Ordering::SeqCst) == begun
            && self.after[number].load(Ordering::SeqCst) == begun
    }

    /// Whether each input was begun at most once, and then run to its end.
    pub(crate) fn are_ended(&self) -> bool {
        for number in 0..self.before.len() {
            if !self.is_ended(number) {
                return false;
            }
        }
        true
    }
}

/// Nothing, where a test is to call again because this holds; else a wrong answer.
pub(crate) fn none_if(holds: bool) -> Option<bool> {
    if holds { None } else { Some(false) }
}
