//! Laws about the core machine, each the contract of an empty function.

ghost use Rattle.index_pool.specs.CoreMachine.{LosesNoNumber, TakesEachNumber};
ghost use Rattle.index_pool.specs.CoreLanes.{ShowsLanes};
ghost use Rattle.index_pool.specs.Lane.{GivesItsFirst, LanesKeepTheirNumbers};
ghost use Rattle.index_pool.specs.LaneRuns.{LanesRunAsCore};

/// In every state to which events lead, each seeded number is in one queue or in one worker's takings, once.
pub fn core_loses_no_number()
    ensures { LosesNoNumber }
{}

/// If every worker has noted that its queue is empty, the takings of all are the numbers below the bound, each once.
pub fn core_takes_each_number()
    ensures { TakesEachNumber }
{}

/// In every state to which events lead, each queue is that of a lane, and a worker took what it
/// popped of its own lane and then what it stole of its neighbour's: each event changes what is
/// known of the lanes as the push, the pop or the steal does whose event it is.
pub fn core_shows_lanes()
    ensures { ShowsLanes }
{}

/// By the rule of a lane that was given its numbers, each of them is queued, popped or stolen, once, no other number
/// is, and the queue has the last ones of them, rising.
pub fn lanes_keep_their_numbers()
    ensures { LanesKeepTheirNumbers }
{}

/// The rule of a lane lets a pop and a steal take the first number of the queue, and nothing else.
pub fn lanes_give_their_first()
    ensures { GivesItsFirst }
{}

/// However the steps of the workers at their deques come after one another, for any number of workers:
/// if each deque by itself allows the steps at it, and each worker steals only once its own lane was
/// found empty, the steps are a run of the core machine, with the same numbers got.
pub fn lanes_run_as_core()
    ensures { LanesRunAsCore }
{}
