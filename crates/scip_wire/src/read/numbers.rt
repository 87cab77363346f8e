//! A few numbers.

ghost use Rattle.std.specs.Prelude.{◌≡◌, ◌++◌, ◌<◌, ◌==◌, [], ◌∷◌, length, IfNone, IfSome, OnOk};

use arrayvec::ArrayVec;
use std::alloc::{AllocError, Global};
use std::marker::Model;

/// Numbers of which the first four take no memory of their own: a range has three or four. Contracts see the list of
/// them.
#[derive(Drop)]
pub struct Numbers {
    first: ArrayVec<u32, 4>,
    /// Those behind the first four.
    others: Vec<u32>,
}

impl Model for Numbers {
    ghost use Rattle.std.specs.Prelude.{◌≡◌, ◌<◌, ◌++◌, ℕ, List, length};

    ghost Value = { List ℕ };

    ghost view = { λ n. n.first.items ++ n.others.items };

    ghost invariant = { λ n. 0 < length n.others.items → length n.first.items ≡ 4 };
}

impl Numbers {
    /// No numbers. Takes no memory.
    pub fn new(alloc: Global) -> Numbers
        ensures { result ≡ [] }
    {
        Numbers {
            first: ArrayVec::new(),
            others: Vec::new(alloc),
        }
    }

    /// Adds a number at the end.
    #[tactic(auto, using(crate::proofs::NumberLemmas::added_first, crate::proofs::NumberLemmas::added_behind))]
    pub fn push(&mut self, number: u32) -> Result<(), AllocError>
        ensures { OnOk result (self.new ≡ self.old ++ number ∷ []) }
    {
        match self.first.try_push(number) {
            Ok(()) => Ok(()),
            Err(_) => Ok(self.others.push(number)?),
        }
    }

    /// The numbers, if they are four at most.
    #[tactic(auto, using(crate::proofs::NumberLemmas::are_first, crate::proofs::NumberLemmas::are_more))]
    pub fn few(&self) -> Option<&[u32]>
        ensures some { IfSome result (λ few. few.now ≡ self.now) }
        ensures none { IfNone result (4 < length self.now) }
    {
        if self.others.is_empty() {
            Some(self.first.as_slice())
        } else {
            None
        }
    }

    /// Whether there are none.
    pub fn is_empty(&self) -> bool
        ensures { result ≡ (length self.now == 0) }
    {
        match self.few() {
            Some(few) => few.is_empty(),
            None => false,
        }
    }
}
