//! What a steal gives.

use super::ticket::Ticket;

/// What a steal gives.
#[derive(Debug, Drop)]
pub enum Stolen {
    /// The ticket for the first number of the lane's queue.
    Got(Ticket),
    /// The queue was empty at one moment.
    Empty,
    /// Another thread was at the queue; a further try may get a number.
    Retry,
}
