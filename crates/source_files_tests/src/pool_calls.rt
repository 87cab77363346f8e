//! What the tests of pools share.

use index_pool::Workers;
use std::process::Abort;

/// So many workers, which are 1 to 16.
pub(crate) fn workers(rt: &impl Abort, count: usize) -> Workers {
    Workers::new(count).expect(rt, "1 to 16 workers")
}
