//! The workers' threads, started by recursion: each level starts one, recurs for the rest, and joins it.

ghost use Rattle.std.specs.Prelude.{◌≡◌, ℕ, ◌+◌, ◌<◌, ◌≤◌, false, [], All, length, sum_by, IfOk, IfErr, IfSome, OnOk};
ghost use Rattle.index_pool.specs.LaneEnds.{owner_deque, owner_view, thief_deque, thief_view};
ghost use Rattle.index_pool.specs.Tables.PhaseSteps.{
  AllBelow,
  FreshPost,
  FreshLane,
  AllGiven,
  weight,
  Worked,
  Gathers,
  Settles,
  MayStop,
};
ghost use Rattle.index_pool.specs.declared.phase.fault.Stop.TheVariants.{Memory};

use super::fault::Stop;
use super::task::Task;
use super::worker::{Done, Post, Ran, drain, run_own, work};
use crate::gate::Gate;
use crate::job::Job;
use crate::lanes::{LaneOwner, LaneThief};
use std::alloc::AllocError;
use std::snapshot::Snapshot;
use std::thread::{Promise, PromisedHandle, Scope, Threads};

/// The calling thread's post, with all results so far.
#[derive(Drop)]
pub(crate) struct Gathered<A> {
    pub(crate) post: Post,
    pub(crate) results: Vec<Ran<A>>,
}

/// What a started thread is to do: the worker's part of this job at this post.
#[derive(Drop)]
pub(crate) struct Duty<J> {
    job: Snapshot<J>,
    post: Snapshot<Post>,
}

impl<J: Job> Promise<Done<Result<J::Out, J::Fault>>> for Duty<J> {
    ghost use Rattle.index_pool.specs.Tables.PhaseSteps.{Worked};

    ghost kept_by = { λ p r. Worked (J.gives p.job.value) p.post.value r };
}

/// Starts the thread of one worker, if one more start is allowed. None if it can't be started; its post is then
/// dropped.
fn start<'s, E, J: Job, G: Gate>(
    scope: &'s Scope<'s, E>,
    task: &Task<'s, J, G>,
    post: Post,
    starts: usize,
) -> Option<PromisedHandle<Done<Result<J::Out, J::Fault>>, Duty<J>>>
    requires { FreshPost (J.inputs task.now.job.now) post }
    ensures { IfSome result (λ h. (h.promise.job.value ≡ task.now.job.now) × (h.promise.post.value ≡ post)
        × (0 < starts)) }
{
    if starts == 0 {
        return None;
    }
    let (alloc, job, gate) = (task.alloc, task.job, task.gate);
    let duty = Duty {
        job: Snapshot::of(job),
        post: Snapshot::of(&post),
    };
    let run = move || -> Done<Result<J::Out, J::Fault>>
        requires { FreshPost (J.inputs job.now) post }
        ensures { Worked (J.gives job.entry.now) post result }
    { work(&Task { alloc, job, gate }, post) };
    scope.spawn_with(duty, run).ok()
}

/// Starts one worker for each lane, the last lane's first, and works at the post that is left. So
/// worker w steals from the lane of worker w + 1, and the last one from the calling thread's.
/// `starts` threads may be started; a further start is refused.
pub(crate) fn level<'s, E, R: Threads, J: Job, G: Gate>(
    scope: &'s Scope<'s, E>,
    rt: &R,
    task: &Task<'s, J, G>,
    post: Post,
    mut lanes: Vec<(LaneOwner, LaneThief)>,
    starts: usize,
) -> Result<Gathered<Result<J::Out, J::Fault>>, Stop>
    requires post { FreshPost (J.inputs task.now.job.now) post }
    requires lanes { All (FreshLane (J.inputs task.now.job.now)) lanes.items }
    ensures gathers { IfOk result (Gathers (J.gives task.now.job.now) post lanes.items) }
    ensures started { IfOk result (λ _. length lanes.items ≤ starts) }
    ensures stopped { IfErr result (MayStop post (length lanes.items) starts) }
{
    let Some(last) = lanes.pop() else {
        return alone(task, post);
    };
    let (theirs, ours) = swapped(post, last);
    let Some(child) = start(scope, task, theirs, starts) else {
        let Post { mut owner, thief } = ours;
        drain(&mut owner);
        drop(thief);
        return Err(Stop::Spawn(owner));
    };
    let rest = level(scope, rt, task, ours, lanes, starts - 1);
    let done = child.join(rt);
    settle(task, done, rest?)
}

/// The post of the worker whose lane this is, who steals where the calling thread would, and the
/// calling thread's new post, which steals from that lane.
fn swapped(post: Post, lane: (LaneOwner, LaneThief)) -> (Post, Post)
    ensures theirs { result.0 ≡ record { owner = lane.0; thief = post.thief } }
    ensures ours { result.1 ≡ record { owner = post.owner; thief = lane.1 } }
{
    let Post {
        owner: own,
        thief: held,
    } = post;
    let (owner, thief) = lane;
    (Post { owner, thief: held }, Post { owner: own, thief })
}

/// The calling thread's own work, once every thread was started.
fn alone<J: Job, G: Gate>(
    task: &Task<'_, J, G>,
    post: Post,
) -> Result<Gathered<Result<J::Out, J::Fault>>, Stop>
    requires { FreshPost (J.inputs task.now.job.now) post }
    ensures gathers { IfOk result (Gathers (J.gives task.now.job.now) post []) }
    ensures stopped { IfErr result (λ stop. stop ≡ Memory) }
{
    let Done {
        post,
        results,
        starved,
    } = work(task, post);
    if starved {
        return Err(Stop::Memory);
    }
    Ok(Gathered { post, results })
}

/// A joined worker's results and those of the rest. Its lane, of which both ends are at hand now, is
/// popped until it is empty.
fn settle<J: Job, G: Gate>(
    task: &Task<'_, J, G>,
    done: Done<Result<J::Out, J::Fault>>,
    rest: Gathered<Result<J::Out, J::Fault>>,
) -> Result<Gathered<Result<J::Out, J::Fault>>, Stop>
    requires deque { thief_deque rest.post.thief ≡ owner_deque done.post.owner }
    requires below { AllBelow (J.inputs task.now.job.now) (owner_view done.post.owner).given }
    ensures settles { IfOk result (Settles (J.gives task.now.job.now) done rest) }
    ensures stopped { IfErr result (λ stop. stop ≡ Memory) }
{
    let Done {
        post: theirs,
        mut results,
        starved,
    } = done;
    if starved {
        return Err(Stop::Memory);
    }
    let Gathered {
        post: ours,
        results: mut others,
    } = rest;
    results.append(&mut others)?;
    let Post {
        owner: settled,
        thief: held,
    } = theirs;
    let Post { owner, thief } = ours;
    close(task, settled, thief, &mut results)?;
    Ok(Gathered {
        post: Post { owner, thief: held },
        results,
    })
}

/// Brings the two ends of a lane together, and pops it until it is empty.
pub(crate) fn close<J: Job, G: Gate>(
    task: &Task<'_, J, G>,
    mut owner: LaneOwner,
    thief: LaneThief,
    results: &mut Vec<Ran<Result<J::Out, J::Fault>>>,
) -> Result<(), AllocError>
    requires deque { thief_deque thief ≡ owner_deque owner }
    requires below { AllBelow (J.inputs task.now.job.now) (owner_view owner).given }
    ensures answers { AllGiven (J.gives task.now.job.now) results.old.items → AllGiven (J.gives task.now.job.now)
        results.new.items }
    ensures weighed { OnOk result ((h : ℕ → ℕ) → weight h results.new.items +
        (sum_by h (owner_view owner).popped + sum_by h (thief_view thief).stolen) ≡ weight h results.old.items + sum_by
        h (owner_view owner).given) }
{
    owner.rejoin(thief);
    run_own(task, &mut owner, results)?;
    Ok(())
}
