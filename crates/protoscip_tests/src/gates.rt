//! A gate round both phases.

use crate::built::{asked_for, run_of, site_of};
use crate::calls::{Given, see};
use index_hooks::Registry;
use index_pool::Gate;
use scip_build::Faulty;
use std::alloc::{AllocError, Global};
use std::process::Abort;
use std::sync::Wait;
use std::sync::atomic::{AtomicU64, Ordering};
use std::test::Fail;
use std::thread;
use std::thread::Threads;
use std::time::{Clock, Duration};

/// How many milliseconds a gate waits at most.
const MOST_TURNS: u64 = 5000;

/// Of two files, each waits until the other was entered as often. Keeps how often each was entered,
/// how often one was left, and how many waits ran out.
#[derive(Drop)]
struct Meeting<C> {
    clock: C,
    first: AtomicU64,
    second: AtomicU64,
    left: AtomicU64,
    run_outs: AtomicU64,
}

impl<C: Clock + Sync> Gate for Meeting<C> {
    type Entry = ();

    fn before(&self, number: usize) {
        let (own, other) = if number == 0 {
            (&self.first, &self.second)
        } else {
            (&self.second, &self.first)
        };
        let earlier = own.fetch_add(1, Ordering::SeqCst);
        for _ in 0..MOST_TURNS {
            if other.load(Ordering::SeqCst) > earlier {
                return;
            }
            thread::sleep(&self.clock, Duration::from_millis(1));
        }
        self.run_outs.fetch_add(1, Ordering::SeqCst);
    }

    fn after(&self, _number: usize, _entry: ()) {
        self.left.fetch_add(1, Ordering::SeqCst);
    }
}

/// Two files that import each other.
const EACH_OTHER: &str =
    "a.proto\nsyntax = \"proto3\";\nimport \"b.proto\";\nmessage A { B b = 1; }\n|\
b.proto\nsyntax = \"proto3\";\nimport \"a.proto\";\nmessage B { A a = 1; }\n";

const DUE: &str = "a.proto
0 0 0 0 1 `a.proto`/
1 7 1 16 2 `b.proto`/
2 8 2 9 1 A#
2 12 2 13 0 B#
2 14 2 15 1 A#b.
b.proto
0 0 0 0 1 `b.proto`/
1 7 1 16 2 `a.proto`/
2 8 2 9 1 B#
2 12 2 13 0 A#
2 14 2 15 1 B#a.
";

/// Whether the index that is due is built, by two workers that meet in each phase.
fn is_met<R: Threads + Wait + Clock + Sync + Abort>(rt: &R, alloc: Global, site: &Given) -> bool {
    let gate = Meeting {
        clock: rt,
        first: AtomicU64::new(0),
        second: AtomicU64::new(0),
        left: AtomicU64::new(0),
        run_outs: AtomicU64::new(0),
    };
    let run = run_of(rt, alloc, 2, &gate);
    asked_for(&run, site, DUE) == Some(4)
        && gate.first.load(Ordering::SeqCst) == 2
        && gate.second.load(Ordering::SeqCst) == 2
        && gate.left.load(Ordering::SeqCst) == 4
        && gate.run_outs.load(Ordering::SeqCst) == 0
}

/// Sees that two workers met, at the first try or at the second.
fn see_met<R: Threads + Wait + Clock + Sync + Abort>(
    rt: &R,
    alloc: Global,
    registry: &Registry,
) -> Result<(), AllocError> {
    let site = site_of(rt, registry, alloc, EACH_OTHER, Faulty::Refuse)?;
    let met = is_met(rt, alloc, &site) || is_met(rt, alloc, &site);
    see(rt, met, "two met");
    Ok(())
}

#[test]
fn two_workers_meet_in_each_phase(rt: HostRuntime) -> Result<(), Fail> {
    let registry = Registry::new(rt.alloc());
    Ok(see_met(&rt, rt.alloc(), &registry)?)
}
