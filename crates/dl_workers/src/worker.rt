//! Fetch workers: each takes jobs from a queue and ends their batches.

ghost use Rattle.std.specs.Prelude.{◌≡◌, ◌⊎◌, ◌++◌, MatchBool, length};
ghost use Rattle.dl_desk.specs.Service.{Answers};
ghost use Rattle.dl_loader.specs.JobEnd.{WasEnded};
ghost use Rattle.dl_workers.specs.Seats.{HasEnded, IsTakerOf, taken_jobs};
ghost use Rattle.dl_workers.specs.WorkerResult.{Took, Worked};

use crate::gate::Gate;
use crate::queue::JobQueue;
use crate::seats::Taker;
use dl_desk::Job;
use dl_loader::{Loader, LoaderName, Pass, end_job};
use dl_source::Source;
use std::alloc::Global;
use std::sync::Wait;

/// How a worker ended.
#[derive(Clone, Copy, Debug, PartialEq, Eq)]
pub enum WorkerEnd {
    /// The queue is shut, or the seat is full. The worker took this many jobs, and ended the batch of each.
    Done { batches: u32 },
    /// The worker stopped the loader: it couldn't end this batch, or a cell of it refused its outcome.
    GaveUp { batch: u32 },
}

/// Takes jobs from a queue until it is shut, and ends the batch of each as [`end_job`] does: by what the source answers
/// or, if memory runs out for that, as one that failed. Call it on a thread of its own, with the source of the loader
/// and a seat at the queue. The gate hears of each step.
///
/// If the worker can't end a batch, or a cell of it refuses its outcome, it stops the loader. Then it takes the jobs
/// that are left, until the queue is shut, and drops them.
///
/// # Examples
/// From `crates/example_loaders/src/worker.rt`, with a gate that does nothing:
///
/// ```rust
/// let end = work(rt, alloc, loader, source, &mut worker, &queue, taker, gate);
/// ```
pub fn work<L: LoaderName, S: Source, G: Gate, R: Wait>(
    rt: &R,
    alloc: Global,
    loader: &Loader<L>,
    source: &S,
    pass: &mut Pass<L>,
    queue: &JobQueue,
    taker: &mut Taker,
    gate: &G,
) -> WorkerEnd
    requires source { Answers (S.answer source.now) L.service }
    requires seat { IsTakerOf queue.now taker.old }
    ensures seat { IsTakerOf queue.now taker.new }
    ensures worked { Worked L.service result (taken_jobs taker.old) (taken_jobs taker.new) pass.old.trace pass.new.trace }
    ensures ended { HasEnded taker.new }
    ensures tickets { pass.new.trace.tickets ≡ pass.old.trace.tickets }
{
    let worker = Worker {
        alloc,
        loader,
        source,
        gate,
    };
    let mut batches = 0;
    for _ in rt.forever() {
        let Some(job) = queue.take(rt, taker) else {
            return WorkerEnd::Done { batches };
        };
        let batch = job.batch;
        if !worker.end_shown(rt, pass, job) {
            loader.stop(rt);
            drop_rest(rt, queue, taker);
            return WorkerEnd::GaveUp { batch };
        }
        batches += 1;
    }
    unreachable!()
}

/// What a worker needs to end batches.
#[derive(Drop)]
struct Worker<'a, L: LoaderName, S, G> {
    alloc: Global,
    loader: &'a Loader<L>,
    source: &'a S,
    gate: &'a G,
}

impl<L: LoaderName, S: Source, G: Gate> Worker<'_, L, S, G> {
    /// Ends the batch of a job, and lets the gate hear of it before and after. The answer is whether each of its cells
    /// took its outcome.
    fn end_shown(&self, rt: &impl Wait, pass: &mut Pass<L>, job: Job) -> bool
        requires source { Answers (S.answer self.now.source.now) L.service }
        ensures ended { MatchBool result (WasEnded L.service pass.old.trace job pass.new.trace)
            ((pass.new.trace ≡ pass.old.trace) ⊎ WasEnded L.service pass.old.trace job pass.new.trace) }
        ensures tickets { pass.new.trace.tickets ≡ pass.old.trace.tickets }
    {
        let batch = job.batch;
        self.gate.before_fetch(batch);
        let Ok(settled) = end_job(rt, self.alloc, self.loader, self.source, pass, job) else {
            return false;
        };
        self.gate.after_settle(batch);
        settled.refused == 0
    }
}

/// Takes jobs until the queue is shut, and drops them.
fn drop_rest<R: Wait>(rt: &R, queue: &JobQueue, taker: &mut Taker)
    requires { IsTakerOf queue.now taker.old }
    ensures seat { IsTakerOf queue.now taker.new }
    ensures took { Took (taken_jobs taker.old) (taken_jobs taker.new) }
    ensures ended { HasEnded taker.new }
{
    for _ in rt.forever() {
        if queue.take(rt, taker).is_none() {
            return;
        }
    }
}
