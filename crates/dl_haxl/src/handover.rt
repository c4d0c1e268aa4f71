//! Evaluates terms whose jobs go to fetch workers.

ghost use Rattle.std.specs.Prelude.{◌≡◌, ◌≤◌, ◌++◌, ℕ, List, IfErr, IfOk, OnErr, OnOk};
ghost use Rattle.dl_values.specs.declared.outcome.BatchFault.TheVariants.{Unsent};
ghost use Rattle.dl_values.specs.declared.job.Job.{Job};
ghost use Rattle.dl_desk.specs.declared.event.Call.TheVariants.{Fail};
ghost use Rattle.dl_desk.specs.declared.event.Reply.TheVariants.{Done};
ghost use Rattle.dl_loader.specs.Additions.{Grows, KeepsTickets};
ghost use Rattle.dl_loader.specs.EventEffect.{WasMade};
ghost use Rattle.dl_terms.specs.Tree.{depth_of};
ghost use Rattle.dl_terms.specs.View.{term_view};
ghost use Rattle.dl_workers.specs.Seats.{IsSenderOf, sent_jobs};
ghost use Rattle.dl_haxl.specs.Rounds.{AddsAndSends, EvaluatesQueued, HandedOver, SentMore};
ghost use Rattle.dl_haxl.specs.RunFaults.{IsRunFault};

use crate::evaluator::Evaluator;
use crate::fault::RunFault;
use crate::outlet::Outlet;
use dl_desk::Job;
use dl_loader::{GiveUp, Loader, LoaderName, Pass};
use dl_terms::{Answer, Term};
use dl_workers::{JobQueue, Sender};
use std::alloc::Global;
use std::hash::RandomState;
use std::sync::Wait;

/// Evaluates a term, and leaves its jobs to fetch workers. You get the answer, and how many rounds of loads it took: at
/// most the term's depth. Each round loads the keys that the term waits for, dispatches, sends each job to the queue,
/// and waits for the outcome of each load. If a job comes back, because the queue is shut or the seat is full, this
/// call fails its batch as unsent.
///
/// Use a seat of this queue, and let workers take its jobs meanwhile: this call waits for them, if need be for ever.
/// `hashing` hashes keys, and nothing that you see depends on it.
///
/// # Errors
/// `Call` if the loader rejects a call, `Stopped` if it is stopped or a cell refuses its outcome, and `OutOfMemory`.
/// What the pass gained until then stays, and so does what this call sent. If it can't fail a job that came back, or a
/// cell refuses that failure, it stops the loader.
pub fn run_term<L: LoaderName, R: Wait>(
    rt: &R,
    alloc: Global,
    hashing: RandomState,
    loader: &Loader<L>,
    pass: &mut Pass<L>,
    queue: &JobQueue,
    sender: &mut Sender,
    term: Term,
) -> Result<(Answer, u32), RunFault>
    requires seat { IsSenderOf queue.now sender.old }
    ensures seat { IsSenderOf queue.now sender.new }
    ensures evaluates { IfOk result (λ r. AddsAndSends pass.old.trace pass.new.trace (sent_jobs sender.old) (sent_jobs sender.new)
        (λ lines sent. EvaluatesQueued pass.old.trace.caller (term_view term) lines r.0 r.1 sent)) }
    ensures rounds { IfOk result (λ r. r.1 ≤ depth_of (term_view term)) }
    ensures sent { OnErr result (SentMore (sent_jobs sender.old) (sent_jobs sender.new)) }
    ensures older { KeepsTickets pass.old.trace pass.new.trace }
    ensures fault { IfErr result (IsRunFault L.service pass.old.trace.caller pass.new.flags) }
    ensures grows { OnErr result (Grows pass.old.trace pass.new.trace) }
{
    let evaluator = Evaluator {
        alloc,
        hashing,
        loader,
        outlet: queue,
        room: &None,
    };
    evaluator.evaluate(rt, sender, pass, term)
}

impl<L: LoaderName> Outlet<L> for JobQueue {
    type Seat = Sender;

    ghost fits = { IsSenderOf };

    ghost sent_by = { sent_jobs };

    ghost jobs_end = { HandedOver };

    /// Sends each job. If one comes back, fails its batch as unsent.
    fn give_out<R: Wait>(
        evaluator: &Evaluator<'_, L, Self>,
        rt: &R,
        seat: &mut Sender,
        pass: &mut Pass<L>,
        jobs: Vec<Job>,
    ) -> Result<(), RunFault> {
        for job in jobs {
            if let Err(job) = evaluator.outlet.send(rt, seat, job) {
                if let Err(fault) = evaluator.fail_unsent(rt, pass, job) {
                    evaluator.loader.stop(rt);
                    return Err(fault);
                }
            }
        }
        Ok(())
    }
}

impl<L: LoaderName> Evaluator<'_, L, JobQueue> {
    /// Fails the batch of a job that the queue didn't take. All its cells show that then.
    fn fail_unsent(&self, rt: &impl Wait, pass: &mut Pass<L>, job: Job) -> Result<(), RunFault>
        ensures failed { OnOk result (WasMade L.service pass.old.trace (Fail job.batch Unsent) Done pass.new.trace) }
        ensures tickets { pass.new.trace.tickets ≡ pass.old.trace.tickets }
        ensures fault { IfErr result (IsRunFault L.service pass.old.trace.caller pass.new.flags) }
        ensures grows { OnErr result (Grows pass.old.trace pass.new.trace) }
    {
        match self.loader.fail(rt, self.alloc, pass, job, GiveUp::Unsent) {
            Ok(settled) if settled.refused > 0 => Err(RunFault::Stopped),
            Ok(_) => Ok(()),
            Err((fault, _)) => Err(RunFault::Call(fault)),
        }
    }
}
