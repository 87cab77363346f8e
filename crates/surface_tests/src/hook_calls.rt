//! What several tests of hooks share.

use crate::shared::see;
use index_hooks::{
    AnyAnswer, BoxedFilter, BoxedRule, Choice, Chooses, DocCallback, DocChoice, DocHook, DocRule,
    Filter, FilterCallback, FilterHook, HookFault, Registry, Turns,
};
use proto_decl::{DeclView, DeclarationKind};
use std::alloc::{AllocError, Global};
use std::process::Abort;
use std::sync::Arc;
use std::sync::atomic::{AtomicU64, Ordering};

/// Fails the test where a filter or a rule isn't taken that was handed in again.
pub(crate) fn see_added<T: Drop>(rt: &impl Abort, answer: Result<(), (T, HookFault)>) {
    see(rt, answer.is_ok(), "added again");
}

/// The view of a message.
pub(crate) fn message() -> DeclView<'static> {
    DeclView::new(DeclarationKind::Message, "M", "a.M", "before", "behind")
}

/// Asks this filter and this rule alone.
#[derive(Drop)]
pub(crate) struct Alone<'a>(pub &'a BoxedFilter, pub &'a BoxedRule);

impl<'a> Chooses for Alone<'a> {
    ghost allows = { λ _ _ _. Unit {0} };

    fn choose_by(&self, mut turns: Turns, view: &DeclView<'_>) -> Choice {
        Choice {
            keep: self.0.ask(turns.next(), view),
            doc: self.1.ask(turns.next(), view),
        }
    }
}

/// The calls of callbacks in order, a hexadecimal digit each: each callback has one of its own.
pub(crate) type Calls = Arc<AtomicU64>;

/// No calls.
pub(crate) fn no_calls(alloc: Global) -> Result<Calls, AllocError> {
    Ok(Arc::new(alloc, AtomicU64::new(0))?)
}

/// Notes a call of the callback with this digit.
fn note(calls: &AtomicU64, digit: u64) {
    let before = calls.load(Ordering::SeqCst);
    calls.store(
        before.wrapping_mul(16).wrapping_add(digit),
        Ordering::SeqCst,
    );
}

/// Gives this answer, and notes each of its calls by its digit.
#[derive(Drop)]
pub(crate) struct Noting<T> {
    pub answer: T,
    pub digit: u64,
    pub calls: Calls,
}

impl FilterCallback for Noting<bool> {
    fn call(&self, _view: &DeclView<'_>) -> bool {
        note(&self.calls, self.digit);
        self.answer
    }
}

impl DocCallback for Noting<DocChoice> {
    fn call(&self, _view: &DeclView<'_>) -> DocChoice {
        note(&self.calls, self.digit);
        self.answer
    }
}

/// A filter that gives this answer, and notes its calls.
pub(crate) fn noting_filter(
    alloc: Global,
    answer: bool,
    digit: u64,
    calls: &Calls,
) -> Result<Box<Filter<AnyAnswer, Noting<bool>>>, AllocError> {
    let calls = Arc::try_clone(calls)?;
    let callback = Noting {
        answer,
        digit,
        calls,
    };
    Ok(Box::new(alloc, Filter::new(AnyAnswer, callback))?)
}

/// A rule that gives this answer, and notes its calls, likewise.
pub(crate) fn noting_rule(
    alloc: Global,
    answer: DocChoice,
    digit: u64,
    calls: &Calls,
) -> Result<Box<DocRule<AnyAnswer, Noting<DocChoice>>>, AllocError> {
    let calls = Arc::try_clone(calls)?;
    let callback = Noting {
        answer,
        digit,
        calls,
    };
    Ok(Box::new(alloc, DocRule::new(AnyAnswer, callback))?)
}

/// Whether the registry chooses so for a message, each of so many times.
pub(crate) fn chooses(registry: &Registry, keep: bool, doc: DocChoice, times: usize) -> bool {
    for _ in 0..times {
        if registry.choose(&message()) != (Choice { keep, doc }) {
            return false;
        }
    }
    true
}
