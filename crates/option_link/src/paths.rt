//! Declarations inside one another, by their paths.

ghost use Rattle.std.specs.Prelude.{◌≡◌, ◌↔◌, ◌++◌, ◌∷◌, [], IsTrue};
ghost use Rattle.proto_decl.specs.declared.declaration.DeclarationStep.{DeclarationStep};

use crate::table::is_kind;
use crate::words::is_text;
use proto_decl::{Declaration, DeclarationStep};

/// Whether two steps are the same.
fn is_same_step(step: &DeclarationStep<'_>, other: &DeclarationStep<'_>) -> bool
    ensures { IsTrue result ↔ (step.now ≡ other.now) }
{
    if !is_kind(step.kind, other.kind) {
        return false;
    }
    is_text(step.name.as_str(), other.name.as_str())
}

/// Whether two paths have the same steps.
fn are_same_steps(steps: &[DeclarationStep<'_>], others: &[DeclarationStep<'_>]) -> bool
    ensures { IsTrue result ↔ (steps.now ≡ others.now) }
{
    if steps.len() != others.len() {
        return false;
    }
    for index in 0..steps.len() {
        if !is_same_step(&steps[index], &others[index]) {
            return false;
        }
    }
    true
}

/// Whether these steps are this one.
fn is_only(steps: &[DeclarationStep<'_>], step: &DeclarationStep<'_>) -> bool
    ensures { IsTrue result ↔ (steps.now ≡ step.now ∷ []) }
{
    match steps {
        [] => false,
        [one] => is_same_step(one, step),
        [_, _, ..] => false,
    }
}

/// Whether these steps are those in front and one more.
fn are_with_last(
    steps: &[DeclarationStep<'_>],
    front: &[DeclarationStep<'_>],
    last: &DeclarationStep<'_>,
) -> bool
    ensures { IsTrue result ↔ (steps.now ≡ front.now ++ last.now ∷ []) }
{
    if steps.len() < front.len() {
        return false;
    }
    let (start, end) = steps.split_at(front.len());
    if !are_same_steps(start, front) {
        return false;
    }
    is_only(end, last)
}

/// Whether a declaration is directly inside another one.
pub(crate) fn is_inside(inner: &Declaration<'_>, outer: &Declaration<'_>) -> bool
    ensures { IsTrue result ↔ ((step : DeclarationStep) × (inner.now.path ≡ outer.now.path ++ step ∷ [])) }
{
    let inner_path = inner.path();
    let outer_path = outer.path();
    let (around, _step) = inner_path.parts();
    let (front, last) = outer_path.parts();
    are_with_last(around, front, last)
}
