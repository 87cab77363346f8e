//! Why a registry doesn't take a filter or a rule.

ghost use Rattle.std.specs.Prelude.{◌≡◌};
ghost use Rattle.index_hooks.specs.FaultTexts.{fault_text};

use crate::registry::MAX_HOOKS;
use thiserror::Error;

/// Why a registry doesn't take a filter or a rule.
#[derive(Clone, Copy, Debug, Drop, PartialEq, Eq, Error)]
pub enum HookFault {
    /// It has `MAX_HOOKS` of the kind already.
    #[error("the registry has {most} of this kind already", most = MAX_HOOKS)]
    Full,
    /// Memory ran out.
    #[error("memory ran out")]
    Memory,
}

impl HookFault {
    /// The variant's name.
    pub fn name(&self) -> &'static str
        ensures { result.now ≡ fault_text self.now }
    {
        match self {
            HookFault::Full => "Full",
            HookFault::Memory => "Memory",
        }
    }
}
