//! Why a text is no symbol.

use std::alloc::AllocError;
use thiserror::Error;

/// Why a text gives no symbol.
#[derive(Clone, Copy, Debug, Drop, PartialEq, Eq, Error)]
pub enum SymbolFault {
    /// The text spells no symbol. The offset is the length in bytes of the longest prefix of the text that begins
    /// some symbol's spelling.
    #[error("a text that is no symbol, from byte {0} on")]
    BadSymbol(usize),
    /// Memory ran out.
    #[error("memory ran out")]
    Memory,
}

impl From<AllocError> for SymbolFault {
    ghost use Rattle.std.specs.Prelude.{◌≡◌};
    ghost use Rattle.scip_symbol.specs.declared.fault.SymbolFault.TheVariants.{Memory};

    ghost from_gives = { λ _ e. e ≡ Memory };

    fn from(_refused: AllocError) -> SymbolFault {
        SymbolFault::Memory
    }
}
