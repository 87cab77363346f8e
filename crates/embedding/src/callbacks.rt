//! A filter and a documentation rule, each with its promise.

ghost use Rattle.std.specs.Prelude.{◌≢◌, ◌↔◌, [], IsTrue};

use protoscip::{DeclView, DeclarationKind, DocCallback, DocChoice, FilterCallback, FilterPromise};

/// Keeps what has a comment before it.
#[derive(Drop)]
pub struct Commented;

impl FilterCallback for Commented {
    // What it answers: `true` if and only if there is one.
    ghost gives = { λ _ seen keep. IsTrue keep ↔ (seen.leading ≢ []) };

    fn call(&self, view: &DeclView<'_>) -> bool {
        !view.leading().is_empty()
    }
}

/// The promise that what has a comment before it is kept, and nothing else. What is proved of an index is proved of
/// any filter that keeps this promise.
#[derive(Drop)]
pub struct OnlyCommented;

impl FilterPromise for OnlyCommented {
    ghost may = { λ _ seen keep. IsTrue keep ↔ (seen.leading ≢ []) };

    fn allows(&self, view: &DeclView<'_>, keep: bool) -> bool {
        keep != view.leading().is_empty()
    }
}

/// Documents fields by the comments before and behind them, and leaves the rest to other rules.
#[derive(Drop)]
pub struct BothOfFields;

impl DocCallback for BothOfFields {
    fn call(&self, view: &DeclView<'_>) -> DocChoice {
        match view.kind() {
            DeclarationKind::Field => DocChoice::Both,
            _ => DocChoice::Pass,
        }
    }
}
