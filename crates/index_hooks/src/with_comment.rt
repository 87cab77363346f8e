//! Declarations that have a comment.

ghost use Rattle.std.specs.Prelude.{◌≡◌, ◌↔◌, IsTrue};
ghost use Rattle.index_hooks.specs.ReadyPromises.{HasComment};

use crate::callback::FilterCallback;
use crate::filter::Filter;
use crate::promise::FilterPromise;
use proto_decl::DeclView;

/// The promise of a filter that answers `true` if and only if there is a comment text before the declaration, or after
/// it on its line.
///
/// It is also the callback that answers so.
#[derive(Clone, Copy, Debug, PartialEq, Eq)]
pub struct WithComment;

/// Whether there is a comment text.
fn is_commented(view: &DeclView<'_>) -> bool
    ensures { IsTrue result ↔ HasComment view.now }
{
    !view.leading().is_empty() || !view.trailing().is_empty()
}

impl FilterPromise for WithComment {
    ghost use Rattle.index_hooks.specs.ReadyPromises.{KeepsCommented};

    ghost may = { λ _ seen keep. KeepsCommented seen keep };

    fn allows(&self, view: &DeclView<'_>, keep: bool) -> bool {
        keep == is_commented(view)
    }
}

impl FilterCallback for WithComment {
    ghost use Rattle.index_hooks.specs.ReadyPromises.{KeepsCommented};

    ghost gives = { λ _ seen keep. KeepsCommented seen keep };

    fn call(&self, view: &DeclView<'_>) -> bool {
        is_commented(view)
    }
}

impl WithComment {
    /// The filter that keeps the declarations that have a comment.
    pub fn filter(self) -> Filter<WithComment, WithComment>
        ensures promise { result.promise ≡ self }
        ensures callback { result.callback ≡ self }
    {
        Filter::new(self, self)
    }
}
