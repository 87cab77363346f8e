//! Documentation rules known by their answers.

ghost use Rattle.std.specs.Prelude.{◌≡◌};

use crate::callback::DocCallback;
use crate::choice::DocChoice;
use crate::promise::DocPromise;
use crate::rule::DocRule;
use proto_decl::DeclView;

/// The promise of a documentation rule that always gives this answer.
///
/// It is also the callback that answers so.
#[derive(Clone, Copy, Debug, PartialEq, Eq)]
pub struct DocAlways(pub DocChoice);

impl DocPromise for DocAlways {
    ghost use Rattle.index_hooks.specs.ReadyPromises.{AnswersOnly};

    ghost may = { λ promise seen answer. AnswersOnly promise.0 seen answer };

    fn allows(&self, _view: &DeclView<'_>, answer: DocChoice) -> bool {
        answer == self.0
    }
}

impl DocCallback for DocAlways {
    ghost use Rattle.index_hooks.specs.ReadyPromises.{AnswersOnly};

    ghost gives = { λ promise seen answer. AnswersOnly promise.0 seen answer };

    fn call(&self, _view: &DeclView<'_>) -> DocChoice {
        self.0
    }
}

impl DocAlways {
    /// The documentation rule that always gives this answer.
    pub fn rule(self) -> DocRule<DocAlways, DocAlways>
        ensures promise { result.promise ≡ self }
        ensures callback { result.callback ≡ self }
    {
        DocRule::new(self, self)
    }
}

/// The promise of a documentation rule whose answers are all among these.
#[derive(Debug, Drop)]
pub struct DocOneOf(pub Vec<DocChoice>);

impl DocPromise for DocOneOf {
    ghost use Rattle.index_hooks.specs.ReadyPromises.{AnswersOneOf};

    ghost may = { λ promise seen answer. AnswersOneOf promise.0.items seen answer };

    fn allows(&self, _view: &DeclView<'_>, answer: DocChoice) -> bool {
        self.0.as_slice().contains(&answer)
    }
}
