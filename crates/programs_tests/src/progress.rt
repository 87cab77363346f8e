//! How far a run is, as a terminal is told.

use crate::shared::see;
use index_pool::Gate;
use programs::Progress;
use std::alloc::Global;
use std::fmt::Display;
use std::io;
use std::sync::atomic::{AtomicU64, Ordering};
use std::test::Fail;
use std::time::{Clock, Duration, Instant};

/// What the terminal is told, in this order.
static TOLD: [&str; 3] = [
    "\rprotoscip: 20 of 20 files read, 12 made",
    "\rprotoscip: 20 of 20 files read, 44 made",
    "\r                                                            \r",
];

/// A terminal that compares what it is told, and its clock, which counts milliseconds up to a limit.
#[derive(Drop)]
struct Terminal {
    alloc: Global,
    millis: AtomicU64,
    told: AtomicU64,
    wrong: AtomicU64,
}

/// The last time that its clock tells.
const LIMIT: u64 = 5_000;

impl Clock for Terminal {
    fn monotonic(&self) -> io::Result<Duration> {
        let millis = self.millis.load(Ordering::SeqCst);
        if millis > LIMIT {
            return Err(io::Error::from(io::ErrorKind::Other));
        }
        Ok(Duration::from_millis(millis))
    }

    fn since_1970(&self) -> io::Result<Duration> {
        self.monotonic()
    }
}

impl Eprint for Terminal {
    fn eprint<D: Display + Drop>(&self, value: D) -> io::Result<()> {
        let number = self.told.fetch_add(1, Ordering::SeqCst);
        let is_due = match format!(in self.alloc; "{value}") {
            Ok(text) => match TOLD.get(number as usize) {
                Some(due) => text.as_str() == *due,
                None => false,
            },
            // Memory ran out for the test alone.
            Err(_) => true,
        };
        if !is_due {
            self.wrong.fetch_add(1, Ordering::SeqCst);
        }
        Ok(())
    }

    fn eprintln<D: Display + Drop>(&self, value: D) -> io::Result<()> {
        self.eprint(value)
    }
}

/// One whose clock is at its beginning.
fn new_terminal(alloc: Global) -> Terminal {
    Terminal {
        alloc,
        millis: AtomicU64::new(0),
        told: AtomicU64::new(0),
        wrong: AtomicU64::new(0),
    }
}

/// At each time so many files come past the gate.
fn pass(gate: &Progress<'_, Terminal>, terminal: &Terminal, times: &[u64]) {
    for millis in times {
        terminal.millis.store(*millis, Ordering::SeqCst);
        for number in 0..16usize {
            let entry = gate.before(number);
            gate.after(number, entry);
        }
    }
}

#[test]
fn shown_after_a_second_and_wiped(rt: HostRuntime) -> Result<(), Fail> {
    let terminal = new_terminal(rt.alloc());
    let begun = Instant::now(&terminal)?;
    let gate = Progress::new(rt.alloc(), &terminal, Some(begun), 20);
    pass(&gate, &terminal, &[999, 1_000, 1_099, 1_100, LIMIT + 1]);
    let told = terminal.told.load(Ordering::SeqCst);
    gate.wipe();
    // Each line is missing that memory ran out for.
    see(&rt, told <= 2, "times");
    see(
        &rt,
        terminal.told.load(Ordering::SeqCst).checked_sub(1) == Some(told),
        "wiped",
    );
    see(
        &rt,
        told < 2 || terminal.wrong.load(Ordering::SeqCst) == 0,
        "what is told",
    );
    Ok(())
}

#[test]
fn quiet_or_soon_over(rt: HostRuntime) -> Result<(), Fail> {
    let terminal = new_terminal(rt.alloc());
    let begun = Instant::now(&terminal)?;
    let quiet = Progress::new(rt.alloc(), &terminal, None, 20);
    pass(&quiet, &terminal, &[1_000, 2_000]);
    quiet.wipe();
    let short = Progress::new(rt.alloc(), &terminal, Some(begun), 20);
    pass(&short, &terminal, &[0, 999]);
    short.wipe();
    see(
        &rt,
        terminal.told.load(Ordering::SeqCst) == 0,
        "nothing is told",
    );
    Ok(())
}
