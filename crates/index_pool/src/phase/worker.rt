//! What one worker does: it empties its own lane, and then steals from its neighbour's.

ghost use Rattle.std.specs.Prelude.{◌≡◌, ℕ, ◌+◌, ◌<◌, true, ◌++◌, All, sum_by, OnOk};
ghost use Rattle.std.specs.List.Sorted.{IsPermutation};
ghost use Rattle.index_pool.specs.LaneEnds.{owner_view, found_empty, thief_view, tries_left};
ghost use Rattle.index_pool.specs.Ticket.{number_of};
ghost use Rattle.index_pool.specs.Tables.PhaseSteps.{
  AllBelow,
  FreshPost,
  PoppedMore,
  StoleMore,
  AllGiven,
  weight,
  Worked,
};

use super::task::Task;
use crate::gate::Gate;
use crate::job::Job;
use crate::lanes::{LaneOwner, LaneThief, Stolen, Ticket};
use std::alloc::AllocError;

/// An input's number, and what `run` returned for it.
#[derive(Drop)]
pub(crate) struct Ran<A> {
    pub(crate) number: usize,
    pub(crate) answer: A,
}

/// What a worker works at: its own lane, and the lane of its neighbour.
#[derive(Drop)]
pub(crate) struct Post {
    pub(crate) owner: LaneOwner,
    pub(crate) thief: LaneThief,
}

/// What a worker brings back. `starved`: room for a result was refused, and inputs weren't run.
#[derive(Drop)]
pub(crate) struct Done<A> {
    pub(crate) post: Post,
    pub(crate) results: Vec<Ran<A>>,
    pub(crate) starved: bool,
}

/// Runs an input, whose ticket it uses up, between the gate's two calls.
fn run_one<J: Job, G: Gate>(task: &Task<'_, J, G>, ticket: Ticket) -> Ran<Result<J::Out, J::Fault>>
    requires { number_of ticket < J.inputs task.now.job.now }
    ensures number { result.number ≡ number_of ticket }
    ensures given { J.gives task.now.job.now result.number result.answer }
{
    let number = ticket.number();
    let entry = task.gate.before(number);
    let answer = task.job.run(ticket);
    task.gate.after(number, entry);
    Ran { number, answer }
}

/// Pops the lane until it is empty, and runs each number before it takes the next. Room for a
/// result is taken before each pop.
pub(crate) fn run_own<J: Job, G: Gate>(
    task: &Task<'_, J, G>,
    owner: &mut LaneOwner,
    results: &mut Vec<Ran<Result<J::Out, J::Fault>>>,
) -> Result<(), AllocError>
    requires { AllBelow (J.inputs task.now.job.now) (owner_view owner.old).given }
    ensures owner { PoppedMore owner.old owner.new }
    ensures answers { AllGiven (J.gives task.now.job.now) results.old.items → AllGiven (J.gives task.now.job.now)
        results.new.items }
    ensures weighed { OnOk result ((h : ℕ → ℕ) → weight h results.new.items + sum_by h (owner_view owner.old).popped
        ≡ weight h results.old.items + sum_by h (owner_view owner.new).popped) }
    ensures emptied { OnOk result (found_empty owner.new ≡ true) }
    ensures whole { OnOk result ((owner_view owner.old).steals ≡ true → IsPermutation (owner_view owner.old).given
        ((owner_view owner.new).popped ++ (owner_view owner.old).stolen)) }
{
    'pops: loop {
        results.reserve(1)?;
        let Some(ticket) = owner.pop() else {
            return Ok(());
        };
        let ran = run_one(task, ticket);
        results.push_reserved(ran);
    }
}

/// Steals from the neighbour's lane, once the worker's own was found empty, until no try is left, and
/// runs each number before it takes the next.
fn run_stolen<J: Job, G: Gate>(
    task: &Task<'_, J, G>,
    own: &LaneOwner,
    thief: &mut LaneThief,
    results: &mut Vec<Ran<Result<J::Out, J::Fault>>>,
) -> Result<(), AllocError>
    requires own { found_empty own.now ≡ true }
    requires below { AllBelow (J.inputs task.now.job.now) (thief_view thief.old).given }
    ensures thief { StoleMore thief.old thief.new }
    ensures answers { AllGiven (J.gives task.now.job.now) results.old.items → AllGiven (J.gives task.now.job.now)
        results.new.items }
    ensures weighed { OnOk result ((h : ℕ → ℕ) → weight h results.new.items + sum_by h (thief_view thief.old).stolen
        ≡ weight h results.old.items + sum_by h (thief_view thief.new).stolen) }
    ensures tried { OnOk result (tries_left thief.new ≡ 0) }
{
    'steals: while thief.tries() > 0 {
        results.reserve(1)?;
        match thief.steal() {
            Stolen::Got(ticket) => {
                let ran = run_one(task, ticket);
                results.push_reserved(ran);
            }
            Stolen::Empty => return Ok(()),
            Stolen::Retry => {}
        }
    }
    Ok(())
}

/// Takes what is left in the lane, without running it.
pub(crate) fn drain(owner: &mut LaneOwner)
    ensures popped { PoppedMore owner.old owner.new }
    ensures emptied { found_empty owner.new ≡ true }
{
    'pops: while owner.pop().is_some() {}
}

/// All that one worker does. If room for a result is refused it runs no more, and empties its own lane.
pub(crate) fn work<J: Job, G: Gate>(
    task: &Task<'_, J, G>,
    post: Post,
) -> Done<Result<J::Out, J::Fault>>
    requires { FreshPost (J.inputs task.now.job.now) post }
    ensures { Worked (J.gives task.now.job.now) post result }
{
    let Post {
        mut owner,
        mut thief,
    } = post;
    let mut results = Vec::new(task.alloc);
    let starved = run_both(task, &mut owner, &mut thief, &mut results).is_err();
    if starved {
        drain(&mut owner);
    }
    Done {
        post: Post { owner, thief },
        results,
        starved,
    }
}

/// Runs what is in the worker's own lane, and then what it steals.
fn run_both<J: Job, G: Gate>(
    task: &Task<'_, J, G>,
    owner: &mut LaneOwner,
    thief: &mut LaneThief,
    results: &mut Vec<Ran<Result<J::Out, J::Fault>>>,
) -> Result<(), AllocError>
    requires own { AllBelow (J.inputs task.now.job.now) (owner_view owner.old).given }
    requires other { AllBelow (J.inputs task.now.job.now) (thief_view thief.old).given }
    ensures owner { PoppedMore owner.old owner.new }
    ensures thief { StoleMore thief.old thief.new }
    ensures emptied { OnOk result (found_empty owner.new ≡ true) }
    ensures tried { OnOk result (tries_left thief.new ≡ 0) }
    ensures answers { AllGiven (J.gives task.now.job.now) results.old.items → AllGiven (J.gives task.now.job.now)
        results.new.items }
    ensures weighed { OnOk result ((h : ℕ → ℕ) → weight h results.new.items +
        (sum_by h (owner_view owner.old).popped + sum_by h (thief_view thief.old).stolen) ≡ weight h results.old.items +
        (sum_by h (owner_view owner.new).popped + sum_by h (thief_view thief.new).stolen)) }
{
    run_own(task, owner, results)?;
    run_stolen(task, owner, thief, results)
}
