//! Why a query isn't answered.

ghost use Rattle.std.specs.Prelude.{◌≡◌};
ghost use Rattle.scip_query.specs.Outcomes.{fault_of};

use crate::miss::Miss;
use std::alloc::AllocError;
use thiserror::Error;

/// Why a query isn't answered. If more than one holds, the first in this order is given.
#[derive(Clone, Copy, Debug, Drop, PartialEq, Eq, Error)]
pub enum QueryFault {
    /// No document of the index has the path.
    #[error("no document has this path")]
    NoDocument,
    /// No occurrence with a symbol has a range that contains the position.
    #[error("no symbol is at this position")]
    NothingThere,
    /// Memory ran out.
    #[error("memory ran out")]
    Memory,
}

/// The fault of a miss.
pub(crate) fn fault_of(miss: Miss) -> QueryFault
    ensures { result ≡ fault_of miss }
{
    match miss {
        Miss::NoDocument => QueryFault::NoDocument,
        Miss::NothingThere => QueryFault::NothingThere,
    }
}

impl From<AllocError> for QueryFault {
    ghost use Rattle.std.specs.Prelude.{◌≡◌};
    ghost use Rattle.scip_query.specs.declared.query_fault.QueryFault.TheVariants.{Memory};

    ghost from_gives = { λ _ fault. fault ≡ Memory };

    fn from(_refused: AllocError) -> QueryFault {
        QueryFault::Memory
    }
}
