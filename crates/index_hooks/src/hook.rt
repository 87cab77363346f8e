//! What a registry keeps: a callback with its promise, of which only the promise is known.

ghost use Rattle.std.specs.Prelude.{Bool};

use crate::choice::DocChoice;
use crate::turns::Turn;
use proto_decl::DeclView;

/// A callback that says of each declaration whether it is kept, with a promise about its answers.
pub trait FilterHook {
    ghost use Rattle.proto_decl.specs.Values.{Seen};

    // The answers that its promise allows.
    ghost may: { Self → Seen → Bool → Type 0 };

    /// Asks it, and uses up the turn. It may answer differently on each call.
    fn ask(&self, turn: Turn, view: &DeclView<'_>) -> bool
        ensures { may self.now view.now result };
}

/// A callback that says of each declaration which texts document it, with a promise about its answers.
pub trait DocHook {
    ghost use Rattle.proto_decl.specs.Values.{Seen};
    ghost use Rattle.index_hooks.specs.declared.choice.DocChoice.{DocChoice};

    // The answers that its promise allows.
    ghost may: { Self → Seen → DocChoice → Type 0 };

    /// Asks it, and uses up the turn. It may answer differently on each call.
    fn ask(&self, turn: Turn, view: &DeclView<'_>) -> DocChoice
        ensures { may self.now view.now result };
}

/// A filter of any type, which threads may share.
pub type BoxedFilter = Box<dyn FilterHook + Send + Sync + Drop>;

/// A documentation rule of any type, which threads may share.
pub type BoxedRule = Box<dyn DocHook + Send + Sync + Drop>;
