//! The one step of a book: an event, whatever its call.

ghost use Rattle.std.specs.Prelude.{◌≡◌, ◌+◌, ◌<◌, ◌≤◌, false, true, IfErr, IfOk, None, OnErr, OnOk, length};
ghost use Rattle.dl_history.specs.Entries.{cell_of_load};
ghost use Rattle.dl_history.specs.Journal.{refusals};
ghost use Rattle.dl_history.specs.Lists.{Every};
ghost use Rattle.dl_loader.specs.Inside.Preparation.{ended_count};
ghost use Rattle.dl_loader.specs.EventEffect.{KnowsStop, Makes, WasMade, WasRefused, loads_of};
ghost use Rattle.dl_history.specs.Pass.{with_tickets};
ghost use Rattle.dl_loader.specs.Refusals.{IsRefusal, refusal};

use crate::book::Book;
use crate::dues::{count, give};
use crate::event_call::{EventCall, Prepared};
use crate::load_replies::begun_in;
use crate::reply::Settled;
use dl_history::{CallFault, CellRows, Event, LoaderName, Pass};
use std::alloc::Global;
use std::sync::Wait;

impl<L: LoaderName> Book<L> {
    /// Makes a call as an event of the pass, which gets its tickets. Answers what the desk replied, and how the cells
    /// that the call ends took their outcomes. The loader runs.
    ///
    /// # Errors
    /// The first of these causes that applies: `Behind`, `LogFull`, the call's own; else `OutOfMemory` or
    /// `LogRefused`. The book is then as it was, and so are the calls, reads and tickets of the pass.
    // Inlined, so that an event is made where it will lie, and not moved there.
    #[inline(always)]
    pub(crate) fn record<C: EventCall>(
        &mut self,
        alloc: Global,
        rows: &CellRows<L>,
        pass: &mut Pass<L>,
        call: &C,
    ) -> Result<(C::Reply, Settled), CallFault>
        requires running { self.old.flags.stopped ≡ false }
        requires answers { C.brings call.now L.service.answer }
        ensures made { IfOk result (λ r. Makes self.old pass.old.trace (C.call call.now) (C.told r.0) self.new pass.new.trace) }
        ensures accepted { OnOk result (refusal L.service self.old pass.old.trace (C.call call.now) (C.job call.now) ≡ None) }
        ensures refused { IfOk result (λ r. refusals self.new.cells ≡ refusals self.old.cells + r.1.refused) }
        ensures each { IfOk result (λ r. r.1.shown + r.1.refused ≡ ended_count (C.job call.now) (C.told r.0)) }
        ensures fault { IfErr result (IsRefusal L.service self.old pass.old.trace (C.call call.now) (C.job call.now)) }
        ensures unchanged { OnErr result ((self.new ≡ self.old) × (pass.new.trace ≡ pass.old.trace)) }
    {
        self.admit(rows, pass)?;
        let caller = pass.caller();
        let at = self.journal.next_place(rows);
        let prepared = call.prepare(alloc, at, &mut self.desk)?;
        let Prepared {
            call: copy,
            reply,
            dues,
            answer,
        } = prepared;
        let cells = begun_in(rows, &reply);
        let loads = C::loads(&answer);
        pass.reserve(loads.len())?;
        let event = Event {
            caller,
            call: copy,
            reply,
        };
        pass.add_event(rows, &mut self.journal, event, cells)?;
        call.show(&mut self.desk);
        pass.add_tickets(&self.journal, loads);
        let ended = count(&dues);
        let refused = give(&mut self.journal, rows, dues);
        Ok((answer, settled(rows, ended, refused)))
    }

    /// The same, unless the loader is stopped: then the call fails by `Stopped`.
    #[inline(always)]
    pub(crate) fn record_unless_stopped<C: EventCall>(
        &mut self,
        alloc: Global,
        rows: &CellRows<L>,
        pass: &mut Pass<L>,
        call: &C,
    ) -> Result<(C::Reply, Settled), CallFault>
        requires answers { C.brings call.now L.service.answer }
        ensures made { IfOk result (λ r. Makes self.old pass.old.trace (C.call call.now) (C.told r.0) self.new pass.new.trace) }
        ensures accepted { OnOk result (refusal L.service self.old pass.old.trace (C.call call.now) (C.job call.now) ≡ None) }
        ensures refused { IfOk result (λ r. refusals self.new.cells ≡ refusals self.old.cells + r.1.refused) }
        ensures each { IfOk result (λ r. r.1.shown + r.1.refused ≡ ended_count (C.job call.now) (C.told r.0)) }
        ensures fault { IfErr result (IsRefusal L.service self.old pass.old.trace (C.call call.now) (C.job call.now)) }
        ensures unchanged { OnErr result ((self.new ≡ self.old) × (pass.new.trace ≡ pass.old.trace)) }
    {
        if self.flags.is_stopped() {
            return Err(CallFault::Stopped);
        }
        self.record(alloc, rows, pass, call)
    }

    /// The same, as its caller knows it.
    #[inline(always)]
    pub(crate) fn make<C: EventCall>(
        &mut self,
        alloc: Global,
        rows: &CellRows<L>,
        pass: &mut Pass<L>,
        call: &C,
    ) -> Result<(C::Reply, Settled), CallFault>
        requires answers { C.brings call.now L.service.answer }
        ensures made { IfOk result (λ r. WasMade L.service pass.old.trace (C.call call.now) (C.told r.0) pass.new.trace) }
        ensures tickets { IfOk result (λ r. pass.new.trace.tickets ≡ (with_tickets pass.old.trace (loads_of (C.told r.0))).tickets) }
        ensures begun { IfOk result (λ r. Every (λ load. cell_of_load load < length self.new.cells) (loads_of (C.told r.0))) }
        ensures each { IfOk result (λ r. r.1.shown + r.1.refused ≡ ended_count (C.job call.now) (C.told r.0)) }
        ensures flags { self.new.flags ≡ self.old.flags }
        ensures fault { IfErr result (WasRefused L.service pass.old.trace (C.call call.now) (C.job call.now)) }
        ensures knows { IfErr result (KnowsStop pass.new.flags) }
        ensures unchanged { OnErr result (pass.new.trace ≡ pass.old.trace) }
    {
        self.keeps();
        match self.record_unless_stopped(alloc, rows, pass, call) {
            Ok(made) => {
                self.keeps();
                Ok(made)
            }
            Err(fault) => {
                self.tell_stop(pass, fault);
                Err(fault)
            }
        }
    }

    /// The same for a call that gives no tickets. If a cell refused its outcome, the pass then knows that.
    #[inline(always)]
    pub(crate) fn make_known<C: EventCall>(
        &mut self,
        rt: &impl Wait,
        alloc: Global,
        rows: &CellRows<L>,
        pass: &mut Pass<L>,
        call: &C,
    ) -> Result<(C::Reply, Settled), CallFault>
        requires answers { C.brings call.now L.service.answer }
        ensures made { IfOk result (λ r. WasMade L.service pass.old.trace (C.call call.now) (C.told r.0) pass.new.trace) }
        ensures tickets { IfOk result (λ r. pass.new.trace.tickets ≡ (with_tickets pass.old.trace (loads_of (C.told r.0))).tickets) }
        ensures each { IfOk result (λ r. r.1.shown + r.1.refused ≡ ended_count (C.job call.now) (C.told r.0)) }
        ensures refused { IfOk result (λ r. 0 < r.1.refused → pass.new.flags.refused ≡ true) }
        ensures stopped { self.new.flags.stopped ≡ self.old.flags.stopped }
        ensures fault { IfErr result (WasRefused L.service pass.old.trace (C.call call.now) (C.job call.now)) }
        ensures knows { IfErr result (KnowsStop pass.new.flags) }
        ensures unchanged { OnErr result (pass.new.trace ≡ pass.old.trace) }
    {
        let made = self.make(alloc, rows, pass, call)?;
        if made.1.refused > 0 {
            self.refuse(rt, rows, pass);
        }
        Ok(made)
    }

    /// Lets the pass know that the loader is stopped, if its call failed by that.
    #[cold]
    fn tell_stop(&self, pass: &mut Pass<L>, fault: CallFault)
        requires { KnowsStop self.now.flags fault }
        ensures trace { pass.new.trace ≡ pass.old.trace }
        ensures knows { KnowsStop pass.new.flags fault }
    {
        if let CallFault::Stopped = fault {
            pass.learn_stop(&self.flags);
        }
    }
}

/// The end of `cells` cells, `refused` of which refused their outcome.
fn settled<L: LoaderName>(rows: &CellRows<L>, cells: usize, refused: usize) -> Settled
    requires few { cells ≤ L.service.rules.limits.max_cells }
    requires among { refused ≤ cells }
    ensures each { result.shown + result.refused ≡ cells }
    ensures refused { result.refused ≡ refused }
{
    let most = rows.limits().max_cells() as usize;
    prove!(cells <= most);
    Settled {
        shown: (cells - refused) as u32,
        refused: refused as u32,
    }
}
