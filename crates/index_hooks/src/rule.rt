//! A documentation rule.

ghost use Rattle.std.specs.Prelude.{◌≡◌};
ghost use Rattle.proto_decl.specs.Values.{Seen};
ghost use Rattle.index_hooks.specs.declared.choice.DocChoice.{DocChoice};

use crate::callback::DocCallback;
use crate::choice::DocChoice;
use crate::hook::DocHook;
use crate::promise::DocPromise;
use crate::turns::Turn;
use proto_decl::DeclView;
use std::marker::Model;

/// A callback that says of each declaration which texts document it, beside a promise that allows each of its
/// answers. Contracts see both; in a registry, only the promise.
#[derive(Drop)]
pub struct DocRule<P: DocPromise, C: DocCallback> {
    promise: P,
    callback: C,
}

impl<P: DocPromise, C: DocCallback> Model for DocRule<P, C> {
    ghost use Rattle.proto_decl.specs.Values.{Seen};
    ghost use Rattle.index_hooks.specs.Promised.{Promised};
    ghost use Rattle.index_hooks.specs.declared.choice.DocChoice.{DocChoice};

    ghost Value = { Promised P C };

    ghost view = { λ r. record { promise = r.promise; callback = r.callback } };

    ghost invariant = { λ r. (seen : Seen) (answer : DocChoice) → C.gives r.callback seen answer → P.may r.promise seen
        answer };
}

impl<P: DocPromise, C: DocCallback> DocRule<P, C> {
    /// The rule that asks this callback. The promise has to allow each answer that it may give.
    pub fn new(promise: P, callback: C) -> DocRule<P, C>
        requires { (seen : Seen) (answer : DocChoice) → C.gives callback seen answer → P.may promise seen answer }
        ensures promise { result.promise ≡ promise }
        ensures callback { result.callback ≡ callback }
    {
        DocRule { promise, callback }
    }
}

impl<P: DocPromise, C: DocCallback> DocHook for DocRule<P, C> {
    ghost may = { λ r seen answer. P.may r.promise seen answer };

    /// The answer is one that the callback may give, for what is seen here.
    fn ask(&self, _turn: Turn, view: &DeclView<'_>) -> DocChoice
        ensures promised { P.may self.now.promise view.now result }
        ensures asked { C.gives self.now.callback view.now result }
    {
        self.callback.call(view)
    }
}
