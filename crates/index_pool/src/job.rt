//! What a phase runs.

ghost use Rattle.std.specs.Prelude.{ℕ, ◌<◌, Result};
ghost use Rattle.index_pool.specs.Ticket.{number_of};

use crate::lanes::Ticket;

/// Work on numbered inputs, which any thread may run.
///
/// `inputs` says how many inputs it has, and `gives` what it means: which results `run` may return
/// for an input. A job may give different results for one input on different calls, where its
/// meaning allows them.
pub trait Job: Sync {
    /// What an input gives.
    type Out: Send + Drop;

    /// Why an input gives nothing.
    type Fault: Send + Drop;

    // How many inputs there are: their numbers are those below it.
    ghost inputs: { Self → ℕ };

    // The results that `run` may return for an input's number.
    ghost gives: { Self → ℕ → Result Self.Out Self.Fault → Type 0 };

    /// Runs one input, that of the ticket.
    fn run(&self, ticket: Ticket) -> Result<Self::Out, Self::Fault>
        requires { number_of ticket < inputs self.now }
        ensures { gives self.now (number_of ticket) result };
}
