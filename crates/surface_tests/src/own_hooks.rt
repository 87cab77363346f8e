//! The filter and the rule of the crate's documentation, and a filter that keeps a promise of its own.

ghost use Rattle.std.specs.Prelude.{◌≢◌, ◌↔◌, [], IsTrue};

use crate::hook_calls::see_added;
use crate::shared::see;
use index_hooks::{
    AnyAnswer, Choice, DocCallback, DocChoice, DocRule, Filter, FilterCallback, FilterPromise,
    Registry,
};
use proto_decl::{DeclView, DeclarationKind};
use std::test::Fail;

/// Keeps what has a comment before it.
#[derive(Drop)]
struct Commented;

impl FilterCallback for Commented {
    ghost gives = { λ _ seen keep. IsTrue keep ↔ (seen.leading ≢ []) };

    fn call(&self, view: &DeclView<'_>) -> bool {
        !view.leading().is_empty()
    }
}

/// Documents the values of enums by the text behind them, and leaves the rest to other rules.
#[derive(Drop)]
struct BehindValues;

impl DocCallback for BehindValues {
    fn call(&self, view: &DeclView<'_>) -> DocChoice {
        match view.kind() {
            DeclarationKind::Value => DocChoice::Trailing,
            _ => DocChoice::Pass,
        }
    }
}

/// The promise that what has a comment before it is kept, and nothing else.
#[derive(Drop)]
struct OnlyCommented;

impl FilterPromise for OnlyCommented {
    ghost may = { λ _ seen keep. IsTrue keep ↔ (seen.leading ≢ []) };

    fn allows(&self, view: &DeclView<'_>, keep: bool) -> bool {
        keep != view.leading().is_empty()
    }
}

#[test]
fn a_filter_a_rule_and_a_promise_of_ones_own(rt: HostRuntime) -> Result<(), Fail> {
    let alloc = rt.alloc();
    let filter = Box::new(alloc, Filter::new(OnlyCommented, Commented))?;
    let rule = Box::new(alloc, DocRule::new(AnyAnswer, BehindValues))?;
    let mut registry = Registry::new(alloc);
    if let Err((filter, _)) = registry.add_filter(filter) {
        see_added(&rt, registry.add_filter(filter));
    }
    if let Err((rule, _)) = registry.add_doc(rule) {
        see_added(&rt, registry.add_doc(rule));
    }
    let view = DeclView::new(DeclarationKind::Value, "A", "a.A", "A value.", "");
    let (keep, doc) = (true, DocChoice::Trailing);
    let is_promised = OnlyCommented.allows(&view, keep);
    let is_chosen = registry.choose(&view) == Choice { keep, doc };
    see(
        &rt,
        is_promised && is_chosen,
        "kept, with the text behind it",
    );
    Ok(())
}
