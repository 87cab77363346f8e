//! Gates that wait for other inputs: they show that workers run at one time, and that they steal.

ghost use Rattle.std.specs.Prelude.{◌≡◌, ◌≤◌, Ok, length};

use crate::called::{Counts, no_counts, none_if, zeros};
use crate::pool_calls::workers;
use crate::roots::see;
use index_pool::{Gate, Job, PoolFault, Ticket, Workers, run_phase};
use std::alloc::{AllocError, Global};
use std::process::Abort;
use std::sync::Wait;
use std::sync::atomic::{AtomicU64, Ordering};
use std::test::Fail;
use std::thread;
use std::thread::Threads;
use std::time::{Clock, Duration};

/// How many milliseconds a gate waits at most.
const MOST_TURNS: u64 = 5000;

/// A job that does nothing, and its gate. Before an input is run, this waits until the inputs that
/// the input awaits were entered: a bit for each. It keeps which were entered, a bit for each, how many were
/// before each, how many waits ran out, and the calls for each input.
#[derive(Drop)]
struct Waiting<'a, C> {
    clock: C,
    awaited: &'a [u64],
    entered: AtomicU64,
    order: Vec<AtomicU64>,
    run_outs: AtomicU64,
    counts: Counts,
}

impl<'a, C: Clock + Sync> Job for Waiting<'a, C> {
    type Out = ();

    type Fault = ();

    ghost inputs = { λ _. 65536 };

    ghost gives = { λ _ _ r. r ≡ Ok tt };

    fn run(&self, ticket: Ticket) -> Result<(), ()> {
        self.counts.add_run(ticket.number());
        Ok(())
    }
}

impl<'a, C: Clock + Sync> Gate for Waiting<'a, C> {
    type Entry = ();

    fn before(&self, number: usize) {
        self.counts.add_before(number);
        let earlier = self.entered.fetch_add(bit_of(number), Ordering::SeqCst);
        if number < self.order.len() {
            self.order[number].store(u64::from(earlier.count_ones()), Ordering::SeqCst);
        }
        let awaited = self.awaited.get(number).copied().unwrap_or(0);
        for _ in 0..MOST_TURNS {
            if self.entered.load(Ordering::SeqCst) & awaited == awaited {
                return;
            }
            thread::sleep(&self.clock, Duration::from_millis(1));
        }
        self.run_outs.fetch_add(1, Ordering::SeqCst);
    }

    fn after(&self, number: usize, _entry: ()) {
        self.counts.add_after(number);
    }
}

/// The bit of an input.
fn bit_of(number: usize) -> u64 {
    if number < 64 { 1 << number } else { 0 }
}

/// One that nobody has come to.
fn waiting_gate<'a, C: Drop>(
    alloc: Global,
    clock: C,
    awaited: &'a [u64],
) -> Result<Waiting<'a, C>, AllocError> {
    Ok(Waiting {
        clock,
        awaited,
        entered: AtomicU64::new(0),
        order: zeros(alloc, awaited.len())?,
        run_outs: AtomicU64::new(0),
        counts: no_counts(alloc, awaited.len())?,
    })
}

/// Whether inputs were entered in this order.
fn are_in_order(entries: &Vec<AtomicU64>, numbers: &[usize]) -> bool {
    let mut least = 0u64;
    for number in numbers {
        if *number >= entries.len() {
            return false;
        }
        let earlier = entries[*number].load(Ordering::SeqCst);
        if earlier < least {
            return false;
        }
        least = earlier.saturating_add(1);
    }
    true
}

/// Whether a phase answers, no wait runs out, the job and the gate are called once for each input, and some inputs are
/// entered in this order. Nothing where memory or a thread is refused, and no input was called for twice.
fn are_met<R: Threads + Wait + Clock + Sync>(
    rt: &R,
    alloc: Global,
    workers: Workers,
    awaited: &[u64],
    order: &[usize],
) -> Result<Option<bool>, AllocError>
    requires { length awaited.now ≤ 64 }
{
    let gate = waiting_gate(alloc, rt, awaited)?;
    let inputs = awaited.len();
    let answer = run_phase(rt, alloc, &gate, inputs, workers, &gate);
    if matches!(&answer, Err(PoolFault::Memory | PoolFault::Spawn)) {
        return Ok(none_if(gate.counts.are_ended()));
    }
    let is_quiet = answer.is_ok() && gate.run_outs.load(Ordering::SeqCst) == 0;
    Ok(Some(is_quiet && gate.counts.are_once(inputs) && are_in_order(&gate.order, order)))
}

/// Sees that they are, by so many workers; once more after want of memory or of a thread.
fn see_met<R: Threads + Wait + Clock + Sync + Abort>(
    rt: &R,
    alloc: Global,
    count: usize,
    awaited: &[u64],
    order: &[usize],
) -> Result<(), AllocError>
    requires { length awaited.now ≤ 64 }
{
    let workers = workers(rt, count);
    let met = match are_met(rt, alloc, workers, awaited, order)? {
        None => are_met(rt, alloc, workers, awaited, order)?,
        met => met,
    };
    see(rt, met == Some(true), "met, and entered in order");
    Ok(())
}

#[test]
fn sixteen_workers_wait_for_all(rt: HostRuntime) -> Result<(), Fail> {
    Ok(see_met(&rt, rt.alloc(), 16, &[0xffff; 16], &[])?)
}

#[test]
fn a_worker_empties_its_lane_and_then_steals(rt: HostRuntime) -> Result<(), Fail> {
    // Input 0 holds the first worker until 4 is entered: the second runs its own 1, 3 and 5, and then
    // steals 2 and 4.
    let awaited = [0b1_0000, 0, 0, 0, 0, 0];
    Ok(see_met(&rt, rt.alloc(), 2, &awaited, &[1, 3, 5, 2, 4])?)
}

#[test]
fn each_of_three_steals_from_the_next(rt: HostRuntime) -> Result<(), Fail> {
    // Inputs 0 and 1 hold the first two workers until 6 and 7 are entered. The third, once both are
    // held, runs its own 2, 5 and 8 and steals 3 and 6 from the first; and that one, which finds its
    // own lane empty, steals 4 and 7 from the second.
    let awaited = [0b100_0000, 0b1000_0000, 0b11, 0, 0, 0, 0, 0, 0];
    Ok(see_met(&rt, rt.alloc(), 3, &awaited, &[2, 5, 8, 3, 6, 4, 7])?)
}
