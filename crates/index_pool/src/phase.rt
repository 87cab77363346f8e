//! Phases: the inputs of a job, run by workers who pop and steal their numbers.

ghost use Rattle.std.specs.Prelude.{◌≡◌, ℕ, ◌+◌, ◌<◌, ◌≤◌, All, length, sum_by, Err, IfOk, IfErr};
ghost use Rattle.std.specs.List.{range_with_len};
ghost use Rattle.index_pool.specs.Lane.{lane_numbers};
ghost use Rattle.index_pool.specs.LaneEnds.{owner_view};
ghost use Rattle.index_pool.specs.Phase.{AnswersEach, MayRefuse, EachIsRun, IsStartRefused};
ghost use Rattle.index_pool.specs.declared.phase.fault.PoolFault.TheVariants.{Spawn};
ghost use Rattle.index_pool.specs.Tables.PhaseSteps.{FreshPost, FreshLane, Gathers, RanEach, MayStop, MayEnd};

mod fault;
mod in_order;
mod levels;
mod task;
mod worker;

use crate::gate::Gate;
use crate::job::Job;
use crate::lanes::{LaneOwner, LaneThief, lane};
use crate::workers::{MAX_INPUTS, MAX_WORKERS, Workers};
pub use fault::PoolFault;
use fault::Stop;
use in_order::in_order;
use levels::{Gathered, close, level};
use std::alloc::{AllocError, Global};
use std::sync::Wait;
use std::thread;
use std::thread::Threads;
pub use task::Task;
use worker::{Post, Ran};

/// Runs the job's inputs below `inputs`, each once, on this many workers, with the gate's calls round each run, and
/// answers an entry for each, in order. `inputs` has to be at most `MAX_INPUTS`, and the job has to have that many.
///
/// Every input is run, even if one has a fault. The calling thread is the first worker; each further worker is a
/// thread of its own, which has ended when the phase has. A worker pops its own lane until it is empty, and then
/// steals from its neighbour's until that is empty, or has asked for a further try 64 times in a row. It waits for
/// its threads, so it returns if the job's and the gate's calls do.
///
/// The first of these that holds is the refusal; but without room for the lanes it is `Memory`, and no thread is
/// started.
///
/// - `Spawn`: a thread could not be started. One worker needs none. Inputs may not have been run.
/// - `Memory`: room for the lanes or for results was refused. Inputs may not have been run.
/// - `Job`: the least faulty input, with its fault. Every input was run.
pub fn run_phase<R: Threads + Wait, J: Job, G: Gate>(
    rt: &R,
    alloc: Global,
    job: &J,
    inputs: usize,
    workers: Workers,
    gate: &G,
) -> Result<Vec<J::Out>, PoolFault<J::Fault>>
    requires few { inputs ≤ MAX_INPUTS }
    requires known { inputs ≤ J.inputs job.now }
    ensures answers { IfOk result (λ outs. AnswersEach (J.gives job.now) inputs outs.items) }
    ensures refused { IfErr result (MayRefuse (J.gives job.now) inputs workers) }
    ensures ran { IfErr result (EachIsRun (J.gives job.now) inputs) }
{
    let task = Task { alloc, job, gate };
    match run_phase_refusing(rt, &task, inputs, workers, None) {
        Ok(answer) => answer,
        Err(AllocError) => Err(PoolFault::Memory),
    }
}

/// As `run_phase`, with the same conditions, but the start of this number is refused. It serves tests of such a
/// refusal.
///
/// The starts of the threads are numbered from 1, so that of W workers the last is W - 1. If a start
/// of this number is due, the answer is `Spawn`, whatever memory the workers lack that were started.
/// An error means that not even the lanes could be made, so that no start was tried.
pub fn run_phase_refusing<R: Threads + Wait, J: Job, G: Gate>(
    rt: &R,
    task: &Task<'_, J, G>,
    inputs: usize,
    workers: Workers,
    refused: Option<usize>,
) -> Result<Result<Vec<J::Out>, PoolFault<J::Fault>>, AllocError>
    requires few { inputs ≤ MAX_INPUTS }
    requires known { inputs ≤ J.inputs task.now.job.now }
    ensures answers { IfOk result (λ answer. IfOk answer (λ outs. AnswersEach (J.gives task.now.job.now) inputs
        outs.items)) }
    ensures refused { IfOk result (λ answer. IfErr answer (MayRefuse (J.gives task.now.job.now) inputs workers)) }
    ensures ran { IfOk result (λ answer. IfErr answer (EachIsRun (J.gives task.now.job.now) inputs)) }
    ensures spawn { IfOk result (λ answer. IsStartRefused refused workers → answer ≡ Err Spawn) }
{
    match run_lanes(rt, task, inputs, workers, starts_before(refused)) {
        Ok(results) => Ok(in_order(task.alloc, inputs, results)),
        Err(Stop::Lanes) => Err(AllocError),
        Err(Stop::Spawn(_)) => Ok(Err(PoolFault::Spawn)),
        Err(Stop::Memory) => Ok(Err(PoolFault::Memory)),
    }
}

/// How many threads may be started before the start of this number, from 1.
fn starts_before(refused: Option<usize>) -> usize
    ensures { (workers : ℕ) → IsStartRefused refused workers → result + 1 < workers }
{
    match refused {
        Some(0) | None => MAX_WORKERS,
        Some(number) => number - 1,
    }
}

/// A result for each input, in the order in which they were gathered.
fn run_lanes<R: Threads + Wait, J: Job, G: Gate>(
    rt: &R,
    task: &Task<'_, J, G>,
    inputs: usize,
    workers: Workers,
    starts: usize,
) -> Result<Vec<Ran<Result<J::Out, J::Fault>>>, Stop>
    requires few { inputs ≤ MAX_INPUTS }
    requires known { inputs ≤ J.inputs task.now.job.now }
    ensures ran { IfOk result (λ v. RanEach (J.gives task.now.job.now) inputs v.items) }
    ensures started { IfOk result (λ _. workers ≤ starts + 1) }
    ensures stopped { IfErr result (MayEnd workers starts) }
{
    let Ok((owner, thief)) = lane(task.alloc, inputs, workers, 0) else {
        return Err(Stop::Lanes);
    };
    let Ok(lanes) = further_lanes(task.alloc, inputs, workers) else {
        return Err(Stop::Lanes);
    };
    let post = Post { owner, thief };
    let gathered = start_all(rt, task, post, lanes, starts)?;
    let Gathered { post, mut results } = gathered;
    let Post { owner, thief } = post;
    close(task, owner, thief, &mut results)?;
    Ok(results)
}

/// The lanes of all workers but the first, in order.
fn further_lanes(
    alloc: Global,
    inputs: usize,
    workers: Workers,
) -> Result<Vec<(LaneOwner, LaneThief)>, AllocError>
    requires { inputs ≤ MAX_INPUTS }
    ensures count { IfOk result (λ lanes. length lanes.items + 1 ≡ workers) }
    ensures fresh { IfOk result (λ lanes. All (FreshLane inputs) lanes.items) }
    ensures whole { IfOk result (λ lanes. (h : ℕ → ℕ) → sum_by h (lane_numbers inputs workers 0) + sum_by
        (λ l. sum_by h (owner_view l.0).given) lanes.items ≡ sum_by h (range_with_len 0 inputs)) }
{
    let mut lanes = Vec::new(alloc);
    for worker in 1..workers.count() {
        lanes.push(lane(alloc, inputs, workers, worker)?)?;
    }
    Ok(lanes)
}

/// The scope of the workers' threads.
fn start_all<R: Threads + Wait, J: Job, G: Gate>(
    rt: &R,
    task: &Task<'_, J, G>,
    post: Post,
    lanes: Vec<(LaneOwner, LaneThief)>,
    starts: usize,
) -> Result<Gathered<Result<J::Out, J::Fault>>, Stop>
    requires post { FreshPost (J.inputs task.now.job.now) post }
    requires lanes { All (FreshLane (J.inputs task.now.job.now)) lanes.items }
    ensures gathers { IfOk result (Gathers (J.gives task.now.job.now) post lanes.items) }
    ensures started { IfOk result (λ _. length lanes.items ≤ starts) }
    ensures stopped { IfErr result (MayStop post (length lanes.items) starts) }
{
    thread::scope(
        thread::scope_env(),
        rt,
        |scope| -> Result<Gathered<Result<J::Out, J::Fault>>, Stop>
            requires post { FreshPost (J.inputs task.now.job.now) post }
            requires lanes { All (FreshLane (J.inputs task.now.job.now)) lanes.items }
            ensures gathers { IfOk result (Gathers (J.gives task.entry.now.job.now) post lanes.items) }
            ensures started { IfOk result (λ _. length lanes.items ≤ starts) }
            ensures stopped { IfErr result (MayStop post (length lanes.items) starts) }
        { level(scope, rt, task, post, lanes, starts) },
    )
}
