//! Which fault a phase answers.

ghost use Rattle.std.specs.Prelude.{◌≡◌, ◌⊎◌, Ok, Err};

use crate::pool_calls::workers;
use crate::roots::see;
use index_pool::{Job, NoGate, NotPossible, PoolFault, Ticket, Workers, run_phase};
use std::alloc::Global;
use std::sync::Wait;
use std::sync::atomic::{AtomicU64, Ordering};
use std::test::Fail;
use std::thread::Threads;

const INPUTS: usize = 100;

/// A job with two faulty inputs, whose fault is their number. It counts the calls of `run`.
#[derive(Drop)]
struct TwoFaults {
    calls: AtomicU64,
}

impl Job for TwoFaults {
    type Out = ();

    type Fault = usize;

    ghost inputs = { λ _. 65536 };

    ghost gives = { λ _ k r. (r ≡ Ok tt) ⊎ (r ≡ Err k) };

    fn run(&self, ticket: Ticket) -> Result<(), usize> {
        let number = ticket.number();
        self.calls.fetch_add(1, Ordering::SeqCst);
        if number == 7 || number == 70 {
            Err(number)
        } else {
            Ok(())
        }
    }
}

/// Whether the least fault is answered, and each input is run, also after it. Nothing where memory or a
/// thread is refused, and there were no more calls.
fn answers_the_least<R: Threads + Wait>(rt: &R, alloc: Global, workers: Workers) -> Option<bool> {
    let job = TwoFaults {
        calls: AtomicU64::new(0),
    };
    let answer = run_phase(rt, alloc, &job, INPUTS, workers, &NoGate);
    let calls = job.calls.load(Ordering::SeqCst);
    match answer {
        Err(PoolFault::Job(7, 7)) => Some(calls == INPUTS as u64),
        Err(PoolFault::Memory | PoolFault::Spawn) if calls <= INPUTS as u64 => None,
        _ => Some(false),
    }
}

#[test]
fn the_least_fault_is_answered(rt: HostRuntime) -> Result<(), Fail> {
    for count in [1, 2, 3, 16] {
        let some = workers(&rt, count);
        let least = match answers_the_least(&rt, rt.alloc(), some) {
            None => answers_the_least(&rt, rt.alloc(), some),
            told => told,
        };
        see(&rt, least == Some(true), "Job(7)");
    }
    Ok(())
}

/// Faults, and how they are shown.
const SHOWN: [(PoolFault<u8>, &str); 3] = [
    (PoolFault::Spawn, "a thread could not be started"),
    (PoolFault::Memory, "memory ran out"),
    (PoolFault::Job(7, 70), "input 7 is faulty: 70"),
];

#[test]
fn faults_are_shown_in_sentences(rt: HostRuntime) -> Result<(), Fail> {
    for (fault, due) in &SHOWN {
        let text = format!(in rt.alloc(); "{fault}")?;
        see(&rt, text.as_str() == *due, due);
    }
    let text = format!(in rt.alloc(); "{NotPossible}")?;
    see(
        &rt,
        text.as_str() == "the event is not possible in this state",
        "not possible",
    );
    Ok(())
}
