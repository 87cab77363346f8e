//! A filter.

ghost use Rattle.std.specs.Prelude.{◌≡◌, Bool};
ghost use Rattle.proto_decl.specs.Values.{Seen};

use crate::callback::FilterCallback;
use crate::hook::FilterHook;
use crate::promise::FilterPromise;
use crate::turns::Turn;
use proto_decl::DeclView;
use std::marker::Model;

/// A callback that says of each declaration whether it is kept, beside a promise that allows each of its answers.
/// Contracts see both; in a registry, only the promise.
#[derive(Drop)]
pub struct Filter<P: FilterPromise, C: FilterCallback> {
    promise: P,
    callback: C,
}

impl<P: FilterPromise, C: FilterCallback> Model for Filter<P, C> {
    ghost use Rattle.std.specs.Prelude.{Bool};
    ghost use Rattle.proto_decl.specs.Values.{Seen};
    ghost use Rattle.index_hooks.specs.Promised.{Promised};

    ghost Value = { Promised P C };

    ghost view = { λ f. record { promise = f.promise; callback = f.callback } };

    ghost invariant = { λ f. (seen : Seen) (keep : Bool) → C.gives f.callback seen keep → P.may f.promise seen keep };
}

impl<P: FilterPromise, C: FilterCallback> Filter<P, C> {
    /// The filter that asks this callback. The promise has to allow each answer that it may give.
    pub fn new(promise: P, callback: C) -> Filter<P, C>
        requires { (seen : Seen) (keep : Bool) → C.gives callback seen keep → P.may promise seen keep }
        ensures promise { result.promise ≡ promise }
        ensures callback { result.callback ≡ callback }
    {
        Filter { promise, callback }
    }
}

impl<P: FilterPromise, C: FilterCallback> FilterHook for Filter<P, C> {
    ghost may = { λ f seen keep. P.may f.promise seen keep };

    /// The answer is one that the callback may give, for what is seen here.
    fn ask(&self, _turn: Turn, view: &DeclView<'_>) -> bool
        ensures promised { P.may self.now.promise view.now result }
        ensures asked { C.gives self.now.callback view.now result }
    {
        self.callback.call(view)
    }
}
