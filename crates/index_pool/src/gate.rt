//! The observer of a phase.

/// The observer of a phase: two calls round each run of an input, by the thread that runs it, for tests and for
/// those who watch a phase. What it does has no effect on the phase's answer.
///
/// What the first call gives can't be copied or dropped by the phase: it is used up by the second call.
/// So each run has both or none.
pub trait Gate: Sync {
    /// What the call before a run leaves for the call after it.
    type Entry;

    /// Called before the input is run.
    fn before(&self, number: usize) -> Self::Entry;

    /// Called after the input was run, with what the call before it gave.
    fn after(&self, number: usize, entry: Self::Entry);
}

/// The observer that does nothing.
#[derive(Clone, Copy, Debug, Default)]
pub struct NoGate;

impl Gate for NoGate {
    type Entry = ();

    fn before(&self, _number: usize) {}

    fn after(&self, _number: usize, _entry: ()) {}
}
