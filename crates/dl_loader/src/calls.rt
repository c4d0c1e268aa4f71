//! The event calls. Each takes the lock, makes one event, and gives the lock back.

ghost use Rattle.std.specs.Prelude.{◌≡◌, ◌+◌, ◌<◌, true, IfErr, IfOk, OnErr};
ghost use Rattle.dl_loader.specs.EventEffect.{KnowsStop, WasMade, WasRefused, loads_of};
ghost use Rattle.dl_loader.specs.Inside.Preparation.{ended_count};
ghost use Rattle.dl_history.specs.Pass.{with_tickets};

mod ends;
pub(crate) mod keys;
mod loads;

use crate::event_call::EventCall;
use crate::loader::Loader;
use crate::reply::Settled;
use dl_history::{CallFault, LoaderName, Pass};
use std::alloc::Global;
use std::sync::Wait;

impl<L: LoaderName> Loader<L> {
    /// Makes a call that gives no tickets as an event of the pass. Answers what the desk replied, and how the cells
    /// that the call ends took their outcomes.
    ///
    /// # Errors
    /// Those of `Book::make`. A rejected call leaves the calls, reads and tickets of the pass as they were.
    // The one place for all of them at which the book is locked and given back, whichever way the call goes.
    #[inline(always)]
    fn call<C: EventCall>(
        &self,
        rt: &impl Wait,
        alloc: Global,
        pass: &mut Pass<L>,
        call: &C,
    ) -> Result<(C::Reply, Settled), CallFault>
        requires answers { C.brings call.now L.service.answer }
        ensures made { IfOk result (λ r. WasMade L.service pass.old.trace (C.call call.now) (C.told r.0) pass.new.trace) }
        ensures tickets { IfOk result (λ r. pass.new.trace.tickets ≡ (with_tickets pass.old.trace (loads_of (C.told r.0))).tickets) }
        ensures each { IfOk result (λ r. r.1.shown + r.1.refused ≡ ended_count (C.job call.now) (C.told r.0)) }
        ensures refused { IfOk result (λ r. 0 < r.1.refused → pass.new.flags.refused ≡ true) }
        ensures fault { IfErr result (WasRefused L.service pass.old.trace (C.call call.now) (C.job call.now)) }
        ensures knows { IfErr result (KnowsStop pass.new.flags) }
        ensures unchanged { OnErr result (pass.new.trace ≡ pass.old.trace) }
    {
        self.book
            .lock(rt)
            .make_known(rt, alloc, &self.rows, pass, call)
    }
}
