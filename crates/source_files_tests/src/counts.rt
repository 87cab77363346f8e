//! How often inputs are run, and what stands after a refused start.

ghost use Rattle.std.specs.Prelude.{◌≡◌, ◌*◌, Ok};

use crate::called::{Counts, no_counts, none_if};
use crate::pool_calls::workers;
use crate::roots::see;
use index_pool::{
    Gate, Job, MAX_INPUTS, NoGate, PoolFault, Task, Ticket, Workers, run_phase, run_phase_refusing,
};
use std::alloc::{AllocError, Global};
use std::sync::Wait;
use std::thread::Threads;

const INPUTS: usize = 100;

impl Job for Counts {
    type Out = usize;

    type Fault = ();

    ghost inputs = { λ _. 65536 };

    ghost gives = { λ _ k r. r ≡ Ok (2 * k) };

    fn run(&self, ticket: Ticket) -> Result<usize, ()> {
        let number = ticket.number();
        self.add_run(number);
        Ok(2 * number)
    }
}

impl Gate for Counts {
    type Entry = usize;

    fn before(&self, number: usize) -> usize {
        self.add_before(number);
        number
    }

    fn after(&self, number: usize, entry: usize) {
        if entry == number {
            self.add_after(number);
        }
    }
}

/// Whether each answer is twice its number.
fn are_doubled(outs: &Vec<usize>) -> bool {
    for number in 0..outs.len() {
        if outs[number] / 2 != number || outs[number] % 2 != 0 {
            return false;
        }
    }
    true
}

/// Whether the answers are twice each number; nothing where memory or a thread was refused, after
/// which alone a test calls again.
fn told(answer: Result<Vec<usize>, PoolFault<()>>, inputs: usize) -> Option<bool> {
    match answer {
        Ok(outs) => Some(outs.len() == inputs && are_doubled(&outs)),
        Err(PoolFault::Memory | PoolFault::Spawn) => None,
        Err(PoolFault::Job(_, _)) => Some(false),
    }
}

/// Whether a phase of so many inputs (`INPUTS` at most) gives twice each number, and calls the job
/// and the gate once for each. Nothing where memory or a thread is refused, and no input was called for
/// twice.
fn is_each_run_once<R: Threads + Wait>(
    rt: &R,
    alloc: Global,
    counts: &Counts,
    inputs: usize,
    workers: Workers,
) -> Option<bool> {
    let inputs = inputs.min(INPUTS);
    let answer = run_phase(rt, alloc, counts, inputs, workers, counts);
    match told(answer, inputs) {
        Some(right) => Some(right && counts.are_once(inputs)),
        None => none_if(counts.are_ended()),
    }
}

/// Whether a phase of the most inputs gives twice each number, by as many calls of `run` as there are
/// inputs. Nothing where memory or a thread is refused, and there were no more calls.
fn are_most_answered<R: Threads + Wait>(
    rt: &R,
    alloc: Global,
    counts: &Counts,
    workers: Workers,
) -> Option<bool> {
    let answer = run_phase(rt, alloc, counts, MAX_INPUTS, workers, &NoGate);
    let calls = counts.calls();
    match told(answer, MAX_INPUTS) {
        Some(right) => Some(right && calls == MAX_INPUTS as u64),
        None => none_if(calls <= MAX_INPUTS as u64),
    }
}

/// Whether a phase of so many inputs answers what is due: the calls for each are counted, or, of the most inputs, all
/// calls. Nothing where memory or a thread is refused.
fn is_answered<R: Threads + Wait>(
    rt: &R,
    alloc: Global,
    counts: &Counts,
    inputs: usize,
    workers: Workers,
) -> Option<bool> {
    if inputs == MAX_INPUTS {
        return are_most_answered(rt, alloc, counts, workers);
    }
    is_each_run_once(rt, alloc, counts, inputs, workers)
}

/// The same of a phase with counts of its own.
fn answers_so<R: Threads + Wait>(
    rt: &R,
    alloc: Global,
    inputs: usize,
    workers: Workers,
) -> Option<bool> {
    match no_counts(alloc, INPUTS) {
        Ok(counts) => is_answered(rt, alloc, &counts, inputs, workers),
        Err(AllocError) => None,
    }
}

/// Numbers of inputs and of workers. The sixth reads: 3 inputs on 16 workers, of which thirteen have no lane with an
/// input.
const PHASES: [(usize, usize); 8] = [
    (100, 1),
    (100, 2),
    (100, 3),
    (100, 16),
    (1, 2),
    (3, 16),
    (0, 16),
    (MAX_INPUTS, 3),
];

#[test]
fn each_input_is_run_once(rt: HostRuntime) {
    for (inputs, count) in &PHASES {
        let workers = workers(&rt, *count);
        let is_so = match answers_so(&rt, rt.alloc(), *inputs, workers) {
            None => answers_so(&rt, rt.alloc(), *inputs, workers),
            is_so => is_so,
        };
        see(&rt, is_so == Some(true), "each once");
    }
}

/// Whether a phase that has no start of this number answers, and any other says that a thread is
/// refused; whether it leaves no run half done; and answers where no start is refused after it.
/// Nothing where memory for the lanes or another thread is refused, or memory where no start is.
fn ends_with<R: Threads + Wait>(
    rt: &R,
    alloc: Global,
    counts: &Counts,
    workers: Workers,
    refused: usize,
) -> Option<bool> {
    let task = Task {
        alloc,
        job: counts,
        gate: counts,
    };
    let spawned = refused >= workers.count();
    let Ok(answer) = run_phase_refusing(rt, &task, INPUTS, workers, Some(refused)) else {
        return none_if(counts.are_once(0));
    };
    let is_refused = matches!(&answer, Err(PoolFault::Spawn));
    let is_due = match told(answer, INPUTS) {
        None if spawned => return none_if(counts.are_ended()),
        None => is_refused,
        Some(right) => spawned && right,
    };
    if !is_due || !counts.are_ended() {
        return Some(false);
    }
    told(
        run_phase(rt, alloc, counts, INPUTS, workers, &NoGate),
        INPUTS,
    )
}

/// The same of a phase with counts of its own.
fn ends_so<R: Threads + Wait>(
    rt: &R,
    alloc: Global,
    workers: Workers,
    refused: usize,
) -> Option<bool> {
    match no_counts(alloc, INPUTS) {
        Ok(counts) => ends_with(rt, alloc, &counts, workers, refused),
        Err(AllocError) => None,
    }
}

/// Numbers of workers, and the start that is refused. With 4 workers, three threads are to be started: there is no
/// start 4.
const STARTS: [(usize, usize); 9] = [
    (1, 1),
    (2, 1),
    (4, 1),
    (4, 2),
    (4, 3),
    (4, 4),
    (16, 1),
    (16, 15),
    (16, 16),
];

#[test]
fn a_refused_start_is_spawn(rt: HostRuntime) {
    for (count, refused) in &STARTS {
        let workers = workers(&rt, *count);
        let ended = match ends_so(&rt, rt.alloc(), workers, *refused) {
            None => ends_so(&rt, rt.alloc(), workers, *refused),
            ended => ended,
        };
        see(&rt, ended == Some(true), "refused start");
    }
}
