//! What is asked.

ghost use Rattle.std.specs.Prelude.{Bool};

use crate::choice::DocChoice;
use proto_decl::DeclView;

/// A callback that says of each declaration whether it is kept.
pub trait FilterCallback {
    ghost use Rattle.proto_decl.specs.Values.{Seen};

    // The answers that it may give, on any call: all, if nothing else is said.
    ghost gives: { Self → Seen → Bool → Type 0 } = { λ _ _ _. Unit {0} };

    /// Whether the declaration is kept.
    fn call(&self, view: &DeclView<'_>) -> bool
        ensures { gives self.now view.now result };
}

/// A callback that says of each declaration which texts document it.
pub trait DocCallback {
    ghost use Rattle.proto_decl.specs.Values.{Seen};
    ghost use Rattle.index_hooks.specs.declared.choice.DocChoice.{DocChoice};

    // The answers that it may give, on any call: all, if nothing else is said.
    ghost gives: { Self → Seen → DocChoice → Type 0 } = { λ _ _ _. Unit {0} };

    /// Which texts document the declaration.
    fn call(&self, view: &DeclView<'_>) -> DocChoice
        ensures { gives self.now view.now result };
}
