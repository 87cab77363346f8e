//! Why a folder of pages isn't all made.

ghost use Rattle.std.specs.Prelude.{◌≡◌};
ghost use Rattle.scip_site.specs.SiteFaults.{name_of};

use crate::show_fault::ShowFault;
use std::alloc::AllocError;
use thiserror::Error;

/// Why a folder of pages isn't all made.
#[derive(Clone, Copy, Debug, Drop, PartialEq, Eq, Error)]
pub enum SiteFault {
    /// A file couldn't be made, or memory ran out.
    #[error("{0}")]
    Show(ShowFault),
    /// There are documents, but none has a page.
    #[error("no document has its source below the root")]
    NothingThere,
}

impl From<AllocError> for SiteFault {
    ghost use Rattle.scip_site.specs.declared.show_fault.ShowFault.TheVariants.{Memory};
    ghost use Rattle.scip_site.specs.declared.site_fault.SiteFault.TheVariants.{Show};

    ghost from_gives = { λ _ fault. fault ≡ Show Memory };

    fn from(_refused: AllocError) -> SiteFault {
        SiteFault::Show(ShowFault::Memory)
    }
}

impl From<ShowFault> for SiteFault {
    ghost use Rattle.scip_site.specs.declared.site_fault.SiteFault.TheVariants.{Show};

    ghost from_gives = { λ shown fault. fault ≡ Show shown };

    fn from(fault: ShowFault) -> SiteFault {
        SiteFault::Show(fault)
    }
}

impl SiteFault {
    /// The name in its line: the variant's, or that of what it holds.
    pub fn name(&self) -> &'static str
        ensures { result.now ≡ name_of self.now }
    {
        match self {
            SiteFault::Show(fault) => fault.name(),
            SiteFault::NothingThere => "NothingThere",
        }
    }
}
