//! The rule of a lane's deque, and what each step at the deque tells the party that makes it.

ghost use Rattle.std.specs.Prelude.{◌≡◌, ◌≤◌, List, ℕ, ◌++◌, true, false, [], All, Contains, length};
ghost use Rattle.std.specs.List.Sorted.{IsPermutation};

use crossbeam_deque::protocol::{Join, Outcome, Protocol, Split};
use std::collections::LinkedList;

/// What a party of the deque knows of the lane: whether it is the owner's, whether it is the
/// thief's, the numbers that the deque was given, and those that the party popped and stole. No
/// value of it is made.
pub(crate) struct LaneView {
    owns: bool,
    steals: bool,
    given: LinkedList<usize>,
    popped: LinkedList<usize>,
    stolen: LinkedList<usize>,
}

/// The deque and the views of its parties are a lane. At first one party owns and steals.
pub(crate) struct LaneRule;

impl Protocol<usize, LaneView> for LaneRule {
    ghost use Rattle.std.specs.Prelude.{true, false, []};
    ghost use Rattle.index_pool.specs.Lane.{lane_view, HoldsLane};

    ghost holds = { HoldsLane };

    ghost first = { lane_view true true [] [] [] };

    ghost guest = { lane_view false false [] [] [] };
}

/// The two ends are parted, and joined.
pub(crate) struct Ends;

impl Split<LaneView> for Ends {
    ghost use Rattle.std.specs.Prelude.{true, false, []};
    ghost use Rattle.index_pool.specs.Lane.{lane_view};

    ghost left = { λ v. lane_view true false v.given v.popped [] };

    ghost right = { λ v. lane_view false true v.given [] v.stolen };
}

impl Join<LaneView> for Ends {
    ghost use Rattle.std.specs.Prelude.{true, false, []};
    ghost use Rattle.index_pool.specs.Lane.{lane_view};

    ghost both = { λ v w. lane_view true true v.given v.popped w.stolen };

    ghost spent = { lane_view false false [] [] [] };
}

/// A push: the numbers given grow.
pub(crate) struct Pushes;

impl Outcome<usize, LaneView> for Pushes {
    ghost use Rattle.index_pool.specs.Lane.{more_given};

    ghost then = { λ v xs w. w ≡ more_given v xs };
}

/// A pop: the numbers popped grow by the queue's first. If none is found, the queue is empty; to an owner that is the
/// thief too, this tells that each number given was popped or stolen, once.
pub(crate) struct Pops;

impl Outcome<usize, LaneView> for Pops {
    ghost use Rattle.index_pool.specs.Lane.{more_popped, OwnerFinds};

    ghost then = { λ v xs w. (w ≡ more_popped v xs) × All (Contains v.given) xs
        × (length (v.popped ++ xs) ≤ length v.given) × ((rest : List ℕ) × OwnerFinds v (xs ++ rest)) };

    ghost empty = { λ v. OwnerFinds v [] × (v.steals ≡ true → IsPermutation v.given (v.popped ++ v.stolen)) };
}

/// A steal: the numbers stolen grow by the queue's first. Where none is left, the queue is empty.
pub(crate) struct Steals;

impl Outcome<usize, LaneView> for Steals {
    ghost use Rattle.index_pool.specs.Lane.{more_stolen, ThiefFinds};

    ghost then = { λ v xs w. (w ≡ more_stolen v xs) × All (Contains v.given) xs
        × (length (v.stolen ++ xs) ≤ length v.given) × ((rest : List ℕ) × ThiefFinds v (xs ++ rest)) };

    ghost empty = { λ v. ThiefFinds v [] };
}
