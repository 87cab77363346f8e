//! What a callback may answer.

ghost use Rattle.std.specs.Prelude.{◌↔◌, Bool, IsTrue};

use crate::choice::DocChoice;
use proto_decl::DeclView;

/// A promise about the answers of a filter: which a declaration may get.
pub trait FilterPromise {
    ghost use Rattle.proto_decl.specs.Values.{Seen};

    // The answers that the promise allows.
    ghost may: { Self → Seen → Bool → Type 0 };

    /// Whether the promise allows this answer for this declaration.
    fn allows(&self, view: &DeclView<'_>, keep: bool) -> bool
        ensures { IsTrue result ↔ may self.now view.now keep };
}

/// A promise about the answers of a documentation rule: which a declaration may get.
pub trait DocPromise {
    ghost use Rattle.proto_decl.specs.Values.{Seen};
    ghost use Rattle.index_hooks.specs.declared.choice.DocChoice.{DocChoice};

    // The answers that the promise allows.
    ghost may: { Self → Seen → DocChoice → Type 0 };

    /// Whether the promise allows this answer for this declaration.
    fn allows(&self, view: &DeclView<'_>, answer: DocChoice) -> bool
        ensures { IsTrue result ↔ may self.now view.now answer };
}
