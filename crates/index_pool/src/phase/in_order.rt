//! The results of a phase, put into the order of their inputs.

ghost use Rattle.std.specs.Prelude.{◌≡◌, ◌<◌, ◌≤◌, [], Some, None, length, All, vec_capacity, IfOk, IfErr, slice_set};
ghost use Rattle.index_pool.specs.Once.{HasEachOnceBelow};
ghost use Rattle.index_pool.specs.Phase.{AnswersEach, MayRefuse};
ghost use Rattle.index_pool.specs.Tables.PhaseSteps.{numbers_of, IsAmong, IsFilled, IsFull, HasResult};

use super::fault::PoolFault;
use super::worker::Ran;
use std::alloc::{AllocError, Global};

/// The answers in the order of their inputs, or the least faulty input. There is a result for each
/// number below `inputs`, and only one. No thread is refused here, as with one worker.
pub(crate) fn in_order<Out: Drop, Fault: Drop>(
    alloc: Global,
    inputs: usize,
    results: Vec<Ran<Result<Out, Fault>>>,
) -> Result<Vec<Out>, PoolFault<Fault>>
    requires { HasEachOnceBelow inputs (numbers_of results.items) }
    ensures answers { IfOk result (λ outs. AnswersEach (IsAmong results.items) inputs outs.items) }
    ensures refused { IfErr result (MayRefuse (IsAmong results.items) inputs 1) }
{
    let Ok(slots) = placed(alloc, inputs, results) else {
        return Err(PoolFault::Memory);
    };
    let Ok(outs) = Vec::with_capacity(alloc, inputs) else {
        return Err(PoolFault::Memory);
    };
    first_fault_or_all(slots, outs)
}

/// A slot for each input, with its result.
fn placed<A: Drop>(
    alloc: Global,
    inputs: usize,
    results: Vec<Ran<A>>,
) -> Result<Vec<Option<A>>, AllocError>
    requires { HasEachOnceBelow inputs (numbers_of results.items) }
    ensures { IfOk result (λ slots. IsFilled (IsAmong results.items) inputs slots.items) }
{
    let mut slots = empty_slots(alloc, inputs)?;
    for ran in results {
        let Ran { number, answer } = ran;
        put(&mut slots, number, answer);
    }
    Ok(slots)
}

/// A slot for each input, with nothing in it.
fn empty_slots<A: Drop>(alloc: Global, inputs: usize) -> Result<Vec<Option<A>>, AllocError>
    ensures { IfOk result (λ slots. (length slots.items ≡ inputs) × All (λ slot. slot ≡ None) slots.items) }
{
    let mut slots = Vec::with_capacity(alloc, inputs)?;
    for _ in 0..inputs {
        slots.push_reserved(None);
    }
    Ok(slots)
}

/// Puts an answer into its input's slot.
fn put<A: Drop>(slots: &mut Vec<Option<A>>, number: usize, answer: A)
    requires { number < length slots.old.items }
    ensures { slots.new.items ≡ slice_set slots.old.items number (Some answer) }
{
    slots[number] = Some(answer);
}

/// The answers up to the first fault, or all of them.
fn first_fault_or_all<Out: Drop, Fault: Drop>(
    slots: Vec<Option<Result<Out, Fault>>>,
    mut outs: Vec<Out>,
) -> Result<Vec<Out>, PoolFault<Fault>>
    requires room { (outs.items ≡ []) × (length slots.items ≤ vec_capacity outs) }
    requires filled { IsFull slots.items }
    ensures answers { IfOk result (λ all. AnswersEach (HasResult slots.items) (length slots.items) all.items) }
    ensures refused { IfErr result (MayRefuse (HasResult slots.items) (length slots.items) 1) }
{
    for slot in slots {
        match slot {
            Some(Ok(out)) => outs.push_reserved(out),
            Some(Err(fault)) => return Err(PoolFault::Job(outs.len(), fault)),
            None => unreachable!(),
        }
    }
    Ok(outs)
}
