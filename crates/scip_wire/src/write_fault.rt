//! Why an index isn't written.

use streams::CutOff;
use thiserror::Error;

/// The spelling of an index is longer than `MAX_INDEX_LEN` bytes.
#[derive(Clone, Copy, Debug, Drop, PartialEq, Eq, Error)]
#[error("an index has at most 2147483647 bytes")]
pub struct TooLarge;

/// Why an index isn't written.
#[derive(Clone, Copy, Debug, Drop, PartialEq, Eq, Error)]
pub enum WriteFault {
    /// The spelling is longer than `MAX_INDEX_LEN` bytes. Nothing was written.
    #[error("an index has at most 2147483647 bytes")]
    TooLarge,
    /// A write failed after this many bytes of the spelling, counted from the first.
    #[error("a write that failed, after {0} bytes")]
    Write(usize),
}

impl From<TooLarge> for WriteFault {
    ghost use Rattle.std.specs.Prelude.{◌≡◌};
    ghost use Rattle.scip_wire.specs.declared.write_fault.WriteFault.TheVariants.{TooLarge};

    ghost from_gives = { λ _ e. e ≡ TooLarge };

    fn from(_refused: TooLarge) -> WriteFault {
        WriteFault::TooLarge
    }
}

impl From<CutOff> for WriteFault {
    ghost use Rattle.std.specs.Prelude.{◌≡◌};
    ghost use Rattle.scip_wire.specs.declared.write_fault.WriteFault.TheVariants.{Write};

    ghost from_gives = { λ cut_off e. e ≡ Write cut_off.written };

    fn from(cut_off: CutOff) -> WriteFault {
        WriteFault::Write(cut_off.written)
    }
}
