//! Where the jobs of a round go.

ghost use Rattle.std.specs.Prelude.{◌≡◌, ℕ, List, IfErr, OnErr, OnOk};
ghost use Rattle.dl_values.specs.declared.job.Job.{Job};
ghost use Rattle.dl_history.specs.Entries.{Entry};
ghost use Rattle.dl_loader.specs.Additions.{Grows};
ghost use Rattle.dl_haxl.specs.Rounds.{AddsAndSends, SentMore};
ghost use Rattle.dl_haxl.specs.RunFaults.{IsRunFault};

use crate::evaluator::Evaluator;
use crate::fault::RunFault;
use dl_desk::Job;
use dl_loader::{LoaderName, Pass};
use std::sync::Wait;

/// Where the jobs of a round go: to the source, on the evaluating thread, or to fetch workers.
pub(crate) trait Outlet<L: LoaderName> {
    /// What the evaluating thread needs to give out jobs: nothing, or a seat at a queue.
    type Seat;

    // The seat is one of this outlet.
    ghost fits: { Self → Self.Seat → Type 0 };

    // The jobs that the seat has sent to fetch workers.
    ghost sent_by: { Self.Seat → List Job };

    // Of the jobs of a caller's dispatch: those that go to fetch workers, and the entries of the ends of the others.
    ghost jobs_end: { ℕ → List Job → List Job → List Entry → Type 0 };

    /// Gives out the jobs of a dispatch, in order. If it can't end a batch, or a cell refuses its outcome, it stops the
    /// loader.
    ///
    /// # Errors
    /// `Call` if it can't end a batch, and `Stopped` if a cell refuses its outcome.
    fn give_out<R: Wait>(
        evaluator: &Evaluator<'_, L, Self>,
        rt: &R,
        seat: &mut Self::Seat,
        pass: &mut Pass<L>,
        jobs: Vec<Job>,
    ) -> Result<(), RunFault>
        requires fits { fits evaluator.now.outlet.now seat.old }
        ensures fits { fits evaluator.now.outlet.now seat.new }
        ensures gives_out { OnOk result (AddsAndSends pass.old.trace pass.new.trace (sent_by seat.old) (sent_by seat.new)
            (λ ends sent. jobs_end pass.old.trace.caller jobs.items sent ends)) }
        ensures sent { SentMore (sent_by seat.old) (sent_by seat.new) }
        ensures tickets { pass.new.trace.tickets ≡ pass.old.trace.tickets }
        ensures fault { IfErr result (IsRunFault L.service pass.old.trace.caller pass.new.flags) }
        ensures grows { OnErr result (Grows pass.old.trace pass.new.trace) };
}
