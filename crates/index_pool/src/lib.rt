//! Phases: the inputs of a job, run on workers who take their numbers from deques.
#![tactic(auto)]

// What a phase runs, and on how many workers; its observer.
mod gate;
mod job;
mod workers;

// How it runs: the deques of the workers, and the threads.
mod lanes;
mod phase;

// The same without threads.
mod core_machine;

// The laws.
mod laws;

pub use core_machine::{Core, Event, NotPossible};
pub use gate::{Gate, NoGate};
pub use job::Job;
pub use lanes::{LaneOwner, LaneThief, Stolen, Ticket, lane};
pub use laws::{
    core_loses_no_number, core_shows_lanes, core_takes_each_number, lanes_give_their_first,
    lanes_keep_their_numbers, lanes_run_as_core,
};
pub use phase::{PoolFault, Task, run_phase, run_phase_refusing};
pub use workers::{MAX_INPUTS, MAX_WORKERS, Workers};
