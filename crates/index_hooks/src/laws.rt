//! What the definitions say about choices, whatever the code does: a law is the contract of a function that does
//! nothing.

ghost use Rattle.index_hooks.specs.OneChoice.{OneChoice};

use crate::registry::{Promises, Registry};
use crate::turns::Chooses;

/// If the promise of each filter and of each rule allows at most one answer for what is seen of a declaration, the
/// registry has one choice for it.
pub fn one_choice(registry: &Registry)
    ensures { OneChoice (⟦<Registry as Promises>⟧.are_exact registry.now)
        (⟦<Registry as Chooses>⟧.allows registry.now) }
{}
