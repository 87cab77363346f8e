//! The promise that promises nothing.

use crate::choice::DocChoice;
use crate::promise::{DocPromise, FilterPromise};
use proto_decl::DeclView;

/// The promise of a filter or of a documentation rule that may give any answer.
#[derive(Clone, Copy, Debug, PartialEq, Eq)]
pub struct AnyAnswer;

impl FilterPromise for AnyAnswer {
    ghost use Rattle.index_hooks.specs.ReadyPromises.{AllowsAny};

    ghost may = { λ _ seen keep. AllowsAny seen keep };

    fn allows(&self, _view: &DeclView<'_>, _keep: bool) -> bool {
        true
    }
}

impl DocPromise for AnyAnswer {
    ghost use Rattle.index_hooks.specs.ReadyPromises.{AllowsAny};

    ghost may = { λ _ seen answer. AllowsAny seen answer };

    fn allows(&self, _view: &DeclView<'_>, _answer: DocChoice) -> bool {
        true
    }
}
