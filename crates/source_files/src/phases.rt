//! Phases that a refused thread doesn't stop.

ghost use Rattle.std.specs.Prelude.{◌≤◌, IfErr, IfOk};
ghost use Rattle.index_pool.specs.Phase.{AnswersEach, MayRefuse};
ghost use Rattle.index_pool.specs.declared.workers.TheConstants.{MAX_INPUTS};

use index_pool::{Gate, Job, PoolFault, Workers, run_phase};
use std::alloc::Global;
use std::sync::Wait;
use std::thread::Threads;

/// Runs a phase, as `run_phase` does. If a thread can't be started, the calling thread runs it all, from the
/// beginning: so the answer is never `Spawn`.
pub(crate) fn run_anyway<R: Threads + Wait, J: Job, G: Gate>(
    rt: &R,
    alloc: Global,
    job: &J,
    inputs: usize,
    workers: Workers,
    gate: &G,
) -> Result<Vec<J::Out>, PoolFault<J::Fault>>
    requires few { inputs ≤ MAX_INPUTS }
    requires known { inputs ≤ J.inputs job.now }
    ensures answers { IfOk result (λ outs. AnswersEach (J.gives job.now) inputs outs.items) }
    ensures refused { IfErr result (MayRefuse (J.gives job.now) inputs 1) }
{
    match run_phase(rt, alloc, job, inputs, workers, gate) {
        Ok(outs) => Ok(outs),
        Err(PoolFault::Spawn) => {
            let alone = Workers::new(1).unwrap();
            run_phase(rt, alloc, job, inputs, alone, gate)
        }
        Err(PoolFault::Memory) => Err(PoolFault::Memory),
        Err(PoolFault::Job(number, fault)) => Err(PoolFault::Job(number, fault)),
    }
}
