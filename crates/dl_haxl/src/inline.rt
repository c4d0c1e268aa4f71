//! Evaluates terms on the caller's own thread.

ghost use Rattle.std.specs.Prelude.{◌≡◌, ◌≤◌, ℕ, List, [], IfErr, IfOk, OnErr, OnOk};
ghost use Rattle.dl_values.specs.declared.job.Job.{Job};
ghost use Rattle.dl_desk.specs.Service.{Answers};
ghost use Rattle.dl_loader.specs.Additions.{Adds, Grows, KeepsTickets};
ghost use Rattle.dl_terms.specs.Tree.{depth_of};
ghost use Rattle.dl_terms.specs.View.{term_view};
ghost use Rattle.dl_loader.specs.JobEnd.{WasEnded};
ghost use Rattle.dl_haxl.specs.Rounds.{EndedInline, EvaluatesInline};
ghost use Rattle.dl_haxl.specs.RunFaults.{IsRunFault};

use crate::evaluator::Evaluator;
use crate::fault::RunFault;
use crate::outlet::Outlet;
use dl_desk::Job;
use dl_loader::{Loader, LoaderName, Pass, end_job};
use dl_source::Source;
use dl_terms::{Answer, Term};
use std::alloc::Global;
use std::hash::RandomState;
use std::sync::Wait;

/// Evaluates a term on your own thread. You get the answer, and how many rounds of loads it took: at most the term's
/// depth. Each round loads the keys that the term waits for, dispatches, and ends each job by what the source answers
/// to its keys or, if memory runs out for that, as one that failed. Use the source of the loader. `hashing` hashes
/// keys, and nothing that you see depends on it.
///
/// # Errors
/// `Call` if the loader rejects a call, `Stopped` if it is stopped or a cell refuses its outcome, and `OutOfMemory`.
/// What the pass gained until then stays. If this call can't end a job, or a cell of it refuses its outcome, it stops
/// the loader.
///
/// # Examples
/// From `crates/dl_bench`, which counts no rounds:
///
/// ```rust
/// let (answer, _rounds) = run_inline(scene.rt, alloc, hashing, loader, source, pass, term)?;
/// match answer {
///     Answer::Value(_) => Ok(()),
///     Answer::Fault(_) => bail!("a term without a value"),
/// }
/// ```
pub fn run_inline<L: LoaderName, S: Source>(
    rt: &impl Wait,
    alloc: Global,
    hashing: RandomState,
    loader: &Loader<L>,
    source: &S,
    pass: &mut Pass<L>,
    term: Term,
) -> Result<(Answer, u32), RunFault>
    requires source { Answers (S.answer source.now) L.service }
    ensures evaluates { IfOk result (λ r. Adds pass.old.trace pass.new.trace
        (λ lines. EvaluatesInline L.service pass.old.trace.caller (term_view term) lines r.0 r.1)) }
    ensures rounds { IfOk result (λ r. r.1 ≤ depth_of (term_view term)) }
    ensures older { KeepsTickets pass.old.trace pass.new.trace }
    ensures fault { IfErr result (IsRunFault L.service pass.old.trace.caller pass.new.flags) }
    ensures grows { OnErr result (Grows pass.old.trace pass.new.trace) }
{
    let outlet = OwnThread { source };
    let evaluator = Evaluator {
        alloc,
        hashing,
        loader,
        outlet: &outlet,
        room: &None,
    };
    evaluator.evaluate(rt, &mut (), pass, term)
}

/// The outlet of the evaluating thread, which fetches from the source.
#[derive(Drop)]
struct OwnThread<'s, S> {
    source: &'s S,
}

impl<L: LoaderName, S: Source> Outlet<L> for OwnThread<'_, S> {
    type Seat = ();

    ghost fits = { λ outlet _. Answers (S.answer outlet.source.now) L.service };

    ghost sent_by = { λ _. [] };

    ghost jobs_end = { EndedInline L.service };

    /// Ends the batch of each job by what the loader's source answers.
    fn give_out<R: Wait>(
        evaluator: &Evaluator<'_, L, Self>,
        rt: &R,
        _seat: &mut (),
        pass: &mut Pass<L>,
        jobs: Vec<Job>,
    ) -> Result<(), RunFault> {
        for job in jobs {
            if let Err(fault) = evaluator.end_shown(rt, pass, job) {
                evaluator.loader.stop(rt);
                return Err(fault);
            }
        }
        Ok(())
    }
}

impl<L: LoaderName, S: Source> Evaluator<'_, L, OwnThread<'_, S>> {
    /// Ends the batch of a job. All its cells show their outcomes then.
    fn end_shown(&self, rt: &impl Wait, pass: &mut Pass<L>, job: Job) -> Result<(), RunFault>
        requires source { Answers (S.answer self.now.outlet.now.source.now) L.service }
        ensures ended { OnOk result (WasEnded L.service pass.old.trace job pass.new.trace) }
        ensures tickets { pass.new.trace.tickets ≡ pass.old.trace.tickets }
        ensures fault { IfErr result (IsRunFault L.service pass.old.trace.caller pass.new.flags) }
        ensures grows { OnErr result (Grows pass.old.trace pass.new.trace) }
    {
        let settled = end_job(rt, self.alloc, self.loader, self.outlet.source, pass, job)?;
        if settled.refused > 0 {
            return Err(RunFault::Stopped);
        }
        Ok(())
    }
}
