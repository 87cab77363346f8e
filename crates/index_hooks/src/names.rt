//! Declarations chosen by their full name.

ghost use Rattle.std.specs.Prelude.{◌≡◌, ◌↔◌, IsTrue, IfOk};
ghost use Rattle.std.specs.String.{string_bytes};
ghost use Rattle.index_hooks.specs.IsUnder.{IsUnder};

use crate::callback::FilterCallback;
use crate::filter::Filter;
use crate::promise::FilterPromise;
use proto_decl::DeclView;
use std::alloc::{AllocError, Global};

/// The promise of a filter that answers `true` if and only if the full name is this text, or begins with it and a
/// dot. So the empty text keeps nothing.
///
/// It is also the callback that answers so.
#[derive(Debug, Drop)]
pub struct NamePrefix(pub String);

/// Whether a full name is that of the scope, or of what is in it.
fn is_under(scope: &str, name: &str) -> bool
    ensures { IsTrue result ↔ IsUnder scope.now name.now }
{
    match name.strip_prefix(scope) {
        Some(rest) => match rest.as_bytes() {
            [] => true,
            [first, ..] => *first == b'.',
        },
        None => false,
    }
}

impl FilterPromise for NamePrefix {
    ghost use Rattle.std.specs.String.{string_bytes};
    ghost use Rattle.index_hooks.specs.ReadyPromises.{KeepsUnder};

    ghost may = { λ promise seen keep. KeepsUnder (string_bytes promise.0) seen keep };

    fn allows(&self, view: &DeclView<'_>, keep: bool) -> bool {
        keep == is_under(self.0.as_str(), view.full_name())
    }
}

impl FilterCallback for NamePrefix {
    ghost use Rattle.std.specs.String.{string_bytes};
    ghost use Rattle.index_hooks.specs.ReadyPromises.{KeepsUnder};

    ghost gives = { λ promise seen keep. KeepsUnder (string_bytes promise.0) seen keep };

    fn call(&self, view: &DeclView<'_>) -> bool {
        is_under(self.0.as_str(), view.full_name())
    }
}

impl NamePrefix {
    /// The filter that keeps what has this full name, or one that begins with it and a dot.
    pub fn filter(alloc: Global, prefix: &str) -> Result<Filter<NamePrefix, NamePrefix>, AllocError>
        ensures promise { IfOk result (λ filter. string_bytes filter.promise.0 ≡ prefix.now) }
        ensures callback { IfOk result (λ filter. string_bytes filter.callback.0 ≡ prefix.now) }
    {
        let promise = NamePrefix(String::from_str(alloc, prefix)?);
        let callback = NamePrefix(String::from_str(alloc, prefix)?);
        Ok(Filter::new(promise, callback))
    }
}
