//! Phases, the lanes that their workers take numbers from, and the core machine.

ghost use Rattle.std.specs.Prelude.{◌≡◌, Ok};

use crate::shared::see;
use index_pool::{
    Core, Event, Gate, Job, LaneOwner, NoGate, NotPossible, PoolFault, Stolen, Ticket, Workers,
    lane, run_phase,
};
use std::alloc::Global;
use std::process::Abort;
use std::sync::Wait;
use std::sync::atomic::{AtomicU64, Ordering};
use std::test::Fail;
use std::thread::Threads;

/// Numbers of workers, and whether there can be so many.
const NUMBERS: [(usize, bool); 5] = [
    (0, false),
    (1, true),
    (16, true),
    (17, false),
    (usize::MAX, false),
];

#[test]
fn workers_are_one_to_sixteen(rt: HostRuntime) {
    for (number, taken) in &NUMBERS {
        let count = Workers::new(*number).map(Workers::count);
        let due = taken.then_some(*number);
        see(&rt, count == due, "the number of workers");
    }
}

/// Four inputs, each of which is its own answer.
#[derive(Drop)]
struct Echo;

impl Job for Echo {
    type Out = usize;

    type Fault = usize;

    ghost inputs = { λ _. 4 };

    ghost gives = { λ _ k r. r ≡ Ok k };

    fn run(&self, ticket: Ticket) -> Result<usize, usize> {
        Ok(ticket.number())
    }
}

/// Four inputs, of which the last two are faulty.
#[derive(Drop)]
struct Halting;

impl Job for Halting {
    type Out = usize;

    type Fault = usize;

    ghost inputs = { λ _. 4 };

    ghost gives = { λ _ _ _. Unit {0} };

    fn run(&self, ticket: Ticket) -> Result<usize, usize> {
        match ticket.number() {
            2 => Err(12),
            3 => Err(13),
            other => Ok(other),
        }
    }
}

/// Counts the calls before and after runs.
#[derive(Drop)]
struct Counting {
    before: AtomicU64,
    after: AtomicU64,
}

impl Gate for Counting {
    type Entry = usize;

    fn before(&self, number: usize) -> usize {
        self.before.fetch_add(1, Ordering::SeqCst);
        number
    }

    fn after(&self, number: usize, entry: usize) {
        if number == entry {
            self.after.fetch_add(1, Ordering::SeqCst);
        }
    }
}

/// Sees that each of four inputs is answered, and that a gate is called before and after each.
fn see_answers<R: Threads + Wait + Abort>(
    rt: &R,
    alloc: Global,
    workers: Workers,
    gate: &Counting,
) -> Result<(), Fail> {
    let answers = run_phase(rt, alloc, &Echo, 4, workers, gate)?;
    see(
        rt,
        answers.as_slice() == [0, 1, 2, 3].as_slice(),
        "the answers",
    );
    Ok(())
}

#[test]
fn run_phase_answers_each_input(rt: HostRuntime) -> Result<(), Fail> {
    let gate = Counting {
        before: AtomicU64::new(0),
        after: AtomicU64::new(0),
    };
    let workers = Workers::new(2).ok_or("two workers")?;
    see_answers(&rt, rt.alloc(), workers, &gate)?;
    let before = gate.before.load(Ordering::SeqCst);
    see(&rt, before == 4, "the calls before");
    let after = gate.after.load(Ordering::SeqCst);
    see(&rt, after == 4, "the calls after");
    Ok(())
}

/// Whether the least of two faulty inputs is named.
fn is_least_named<R: Threads + Wait>(rt: &R, alloc: Global, workers: Workers) -> bool {
    let answer = run_phase(rt, alloc, &Halting, 4, workers, &NoGate);
    matches!(answer, Err(PoolFault::Job(2, 12)))
}

#[test]
fn run_phase_names_the_least_faulty_input(rt: HostRuntime) -> Result<(), Fail> {
    let workers = Workers::new(1).ok_or("one worker")?;
    let is_so = is_least_named(&rt, rt.alloc(), workers);
    see(&rt, is_so, "the least");
    Ok(())
}

/// The number that a steal gives.
fn stolen(found: Stolen) -> Option<usize> {
    match found {
        Stolen::Got(ticket) => Some(ticket.number()),
        Stolen::Empty => None,
        Stolen::Retry => None,
    }
}

/// The number that a pop gives.
fn popped(found: Option<Ticket>) -> Option<usize> {
    match found {
        Some(ticket) => Some(ticket.number()),
        None => None,
    }
}

#[test]
fn lane_gives_its_inputs_in_order(rt: HostRuntime) -> Result<(), Fail> {
    let Some(workers) = Workers::new(2) else {
        return Err("two workers".into());
    };
    let (mut owner, mut thief) = lane(rt.alloc(), 3, workers, 0)?;
    see(&rt, stolen(thief.steal()) == Some(0), "the first is stolen");
    see(&rt, popped(owner.pop()) == Some(2), "the next is popped");
    see(&rt, popped(owner.pop()) == None, "then there is none");
    see(&rt, stolen(thief.steal()) == None, "nor one to steal");
    owner.rejoin(thief);
    see(&rt, popped(owner.pop()) == None, "and none after");
    Ok(())
}

/// Events of three inputs on two workers, and what each answers. The first is a pop before each input is in a queue, the
/// last a steal from an empty queue.
const STEPS: [(Event, Result<Option<usize>, NotPossible>); 12] = [
    (Event::Pop(0), Err(NotPossible)),
    (Event::Seed(0), Ok(None)),
    (Event::Seed(1), Ok(None)),
    (Event::Seed(2), Ok(None)),
    (Event::Pop(1), Ok(Some(1))),
    (Event::PopEmpty(1), Ok(None)),
    (Event::StealRetry(1), Ok(None)),
    (Event::Steal(1), Ok(Some(0))),
    (Event::Pop(0), Ok(Some(2))),
    (Event::PopEmpty(0), Ok(None)),
    (Event::StealEmpty(0), Ok(None)),
    (Event::Steal(0), Err(NotPossible)),
];

/// Sees what each event answers.
fn see_steps(rt: &impl Abort, core: &mut Core) {
    for (event, due) in &STEPS {
        see(rt, core.step(*event) == *due, "what the step answers");
    }
}

#[test]
fn core_steps_by_its_rules(rt: HostRuntime) -> Result<(), Fail> {
    let workers = Workers::new(2).ok_or("two workers")?;
    see_steps(&rt, &mut Core::new(rt.alloc(), 3, workers)?);
    Ok(())
}
