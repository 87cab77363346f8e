//! The right to run one input.

ghost use Rattle.std.specs.Prelude.{◌≡◌};

/// The right to run one input, once. Only a lane's pop and steal make tickets: one for each number that
/// they take. A ticket can't be copied, and `Job::run` takes it by value, so a number that was taken
/// once is run at most once.
#[derive(Debug, Drop)]
pub struct Ticket {
    pub(super) number: usize,
}

impl Ticket {
    ghost use Rattle.index_pool.specs.Ticket.{number_of};

    /// The input's number.
    pub fn number(&self) -> usize
        ensures { result ≡ number_of self.now }
    {
        self.number
    }
}
