//! Evaluates terms in rounds of loads, wherever the jobs go.

ghost use Rattle.std.specs.Prelude.{◌≡◌, ◌≤◌, ◌^◌, ◌<◌, [], true, IfErr, IfOk, OnErr, OnOk, length};
ghost use Rattle.dl_history.specs.Entries.{front_of};
ghost use Rattle.dl_loader.specs.Additions.{Grows, KeepsTickets};
ghost use Rattle.dl_terms.specs.Tree.{Tree, depth_of};
ghost use Rattle.dl_terms.specs.View.{term_view};
ghost use Rattle.dl_haxl.specs.Pairs.{all_show, outcomes_shown};
ghost use Rattle.dl_haxl.specs.Inside.Reads.{GaveFresh, KeepsOthers, Reads};
ghost use Rattle.dl_haxl.specs.Rounds.{AddsAndSends, Evaluates, Round, SentMore};
ghost use Rattle.dl_haxl.specs.Run.{IsRunOf, asked_by};
ghost use Rattle.dl_haxl.specs.RunView.{seen};
ghost use Rattle.dl_haxl.specs.RunFaults.{IsRunFault};

use crate::fault::RunFault;
use crate::outlet::Outlet;
use crate::run::TermRun;
use dl_desk::FetchKey;
use dl_loader::{Loader, LoaderName, Pass, Stopped, Ticket};
use dl_terms::{Answer, Room, Term, laws};
use futures::task::Poll;
use std::alloc::Global;
use std::hash::RandomState;
use std::sync::Wait;

/// What it takes to evaluate terms: the loader that loads their keys, the outlet to which the dispatched jobs go, and
/// the room that the terms share.
#[derive(Drop)]
pub(crate) struct Evaluator<'l, L: LoaderName, O> {
    pub(crate) alloc: Global,
    // Hashes the keys of each term.
    pub(crate) hashing: RandomState,
    pub(crate) loader: &'l Loader<L>,
    pub(crate) outlet: &'l O,
    // What the terms may still make; without a room there is no bound.
    pub(crate) room: &'l Option<Room>,
}

impl<'l, L: LoaderName, O: Outlet<L>> Evaluator<'l, L, O> {
    /// Evaluates a term. You get its answer, and how many rounds of loads it took: at most the term's depth. Each round
    /// loads the keys that the term waits for, dispatches, gives out the jobs, and reads the outcome of each load.
    ///
    /// # Errors
    /// `Call` if the loader rejects a call, `Stopped` if it is stopped or a cell refuses its outcome, and
    /// `OutOfMemory`.
    pub(crate) fn evaluate<R: Wait>(
        &self,
        rt: &R,
        seat: &mut O::Seat,
        pass: &mut Pass<L>,
        term: Term,
    ) -> Result<(Answer, u32), RunFault>
        requires fits { O.fits self.now.outlet.now seat.old }
        ensures fits { O.fits self.now.outlet.now seat.new }
        ensures evaluates { IfOk result (λ r. AddsAndSends pass.old.trace pass.new.trace (O.sent_by seat.old) (O.sent_by seat.new)
            (λ lines sent. Evaluates (O.jobs_end pass.old.trace.caller) pass.old.trace.caller (term_view term) lines r.0 r.1 sent)) }
        ensures rounds { IfOk result (λ r. r.1 ≤ depth_of (term_view term)) }
        ensures sent { SentMore (O.sent_by seat.old) (O.sent_by seat.new) }
        ensures older { KeepsTickets pass.old.trace pass.new.trace }
        ensures fault { IfErr result (IsRunFault L.service pass.old.trace.caller pass.new.flags) }
        ensures grows { OnErr result (Grows pass.old.trace pass.new.trace) }
    {
        let mut run = TermRun::in_room(self.alloc, self.hashing, term, self.room.as_ref())?;
        self.go_on(rt, seat, pass, &mut run)
    }

    /// Takes a new run to its answer. You get that, and how many rounds of loads it took.
    fn go_on<R: Wait>(
        &self,
        rt: &R,
        seat: &mut O::Seat,
        pass: &mut Pass<L>,
        run: &mut TermRun<'l, L>,
    ) -> Result<(Answer, u32), RunFault>
        requires fits { O.fits self.now.outlet.now seat.old }
        requires nothing_learned { (seen run.old).learned ≡ [] }
        requires nothing_asked { asked_by (seen run.old) ≡ [] }
        requires no_tickets { (seen run.old).tickets ≡ [] }
        ensures fits { O.fits self.now.outlet.now seat.new }
        ensures evaluates { IfOk result (λ r. (t : Tree) → IsRunOf t (seen run.old)
            → AddsAndSends pass.old.trace pass.new.trace (O.sent_by seat.old) (O.sent_by seat.new)
            (λ lines sent. Evaluates (O.jobs_end pass.old.trace.caller) pass.old.trace.caller t lines r.0 r.1 sent)) }
        ensures rounds { IfOk result (λ r. (t : Tree) → IsRunOf t (seen run.old) → r.1 ≤ depth_of t) }
        ensures sent { SentMore (O.sent_by seat.old) (O.sent_by seat.new) }
        ensures older { KeepsTickets pass.old.trace pass.new.trace }
        ensures fault { IfErr result (IsRunFault L.service pass.old.trace.caller pass.new.flags) }
        ensures grows { OnErr result (Grows pass.old.trace pass.new.trace) }
    {
        laws::gives_by_depth();
        let mut rounds = 0;
        for _ in rt.forever() {
            match run.advance() {
                Poll::Ready(Ok(answer)) => return Ok((answer, rounds)),
                Poll::Ready(Err(_)) => return Err(RunFault::OutOfMemory),
                Poll::Pending => {}
            }
            let tickets = self.round(rt, seat, pass, run.wanted())?;
            run.supply(tickets);
            rounds += 1;
        }
        unreachable!()
    }

    /// One round: loads the wanted keys, dispatches once nobody who takes part runs, gives out the jobs, and reads the
    /// outcome of each load. You get a ticket for each key, and each of them shows its outcome.
    ///
    /// # Errors
    /// Those of [`evaluate`](Evaluator::evaluate). If the outlet fails to end a job, the loader is stopped.
    fn round<R: Wait>(
        &self,
        rt: &R,
        seat: &mut O::Seat,
        pass: &mut Pass<L>,
        wanted: &[FetchKey],
    ) -> Result<Vec<Ticket<'l, L>>, RunFault>
        requires fits { O.fits self.now.outlet.now seat.old }
        ensures fits { O.fits self.now.outlet.now seat.new }
        ensures round { IfOk result (λ tickets. AddsAndSends pass.old.trace pass.new.trace (O.sent_by seat.old) (O.sent_by seat.new)
            (λ lines sent. Round (O.jobs_end pass.old.trace.caller) pass.old.trace.caller wanted.now lines (outcomes_shown tickets.items) sent)) }
        ensures shown { IfOk result (λ tickets. all_show tickets.items ≡ true) }
        ensures each { IfOk result (λ tickets. length tickets.items ≡ length wanted.now) }
        ensures front { OnOk result (front_of pass.old.trace.entries < front_of pass.new.trace.entries) }
        ensures bound { OnOk result (front_of pass.new.trace.entries < 2 ^ 32) }
        ensures sent { SentMore (O.sent_by seat.old) (O.sent_by seat.new) }
        ensures older { KeepsTickets pass.old.trace pass.new.trace }
        ensures fault { IfErr result (IsRunFault L.service pass.old.trace.caller pass.new.flags) }
        ensures grows { OnErr result (Grows pass.old.trace pass.new.trace) }
    {
        let mut tickets = self.loader.load_many(rt, self.alloc, pass, wanted)?;
        let jobs = self.loader.gather(rt, self.alloc, pass)?;
        O::give_out(self, rt, seat, pass, jobs)?;
        read_each(rt, self.loader, pass, tickets.as_mut_slice())?;
        // By its clause, the greatest place fits a `u32`.
        let _front = pass.front();
        Ok(tickets)
    }
}

/// Waits for each of the tickets and reads its outcome. They must be tickets that the pass got and has not read yet.
///
/// # Errors
/// `Stopped` if the loader is stopped and a cell has not ended.
fn read_each<L: LoaderName>(
    rt: &impl Wait,
    loader: &Loader<L>,
    pass: &mut Pass<L>,
    tickets: &mut [Ticket<'_, L>],
) -> Result<(), Stopped>
    requires gave { GaveFresh pass.old.trace tickets.old }
    ensures reads { OnOk result (Reads pass.old.trace pass.new.trace tickets.old tickets.new) }
    ensures others { KeepsOthers tickets.old pass.old.trace pass.new.trace }
    ensures stopped { OnErr result (pass.new.flags.stopped ≡ true) }
    ensures grows { OnErr result (Grows pass.old.trace pass.new.trace) }
{
    for ticket in tickets.iter_mut() {
        loader.wait(rt, pass, ticket)?;
    }
    Ok(())
}
