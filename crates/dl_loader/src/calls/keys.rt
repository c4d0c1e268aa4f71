//! The calls on keys, and the dispatch.

ghost use Rattle.std.specs.Prelude.{◌≡◌, ◌<◌, ◌≤◌, true, None, IfErr, IfOk, OnErr, OnOk};
ghost use Rattle.dl_desk.specs.Calls.{primed};
ghost use Rattle.dl_desk.specs.declared.event.Call.TheVariants as call;
ghost use Rattle.dl_desk.specs.declared.event.Reply.TheVariants as reply;
ghost use Rattle.dl_loader.specs.EventReplies.{refused_by, reply_by};
ghost use Rattle.dl_loader.specs.EventEffect.{KnowsStop, WasMade, WasRefused};

use crate::event_call::{Clear, Dispatch, Prime};
use crate::loader::Loader;
use crate::reply::{PrimeReply, Settled};
use dl_desk::{DeskPrime, FetchKey, Job, Outcome};
use dl_gather::Gathering;
use dl_history::{CallFault, LoaderName, Pass};
use std::alloc::Global;
use std::sync::{MutexGuard, Wait};

impl<L: LoaderName> Loader<L> {
    /// Gives a key that the loader doesn't hold a new cell, which ends with the outcome at once. If the loader holds
    /// the key, nothing changes but the history (DataLoader: `prime`).
    ///
    /// # Errors
    /// `Stopped`, `Behind`, `LogFull`, `CellsFull`, `OutOfMemory`, `LogRefused`.
    pub fn prime(
        &self,
        rt: &impl Wait,
        alloc: Global,
        pass: &mut Pass<L>,
        key: &FetchKey,
        outcome: Outcome,
    ) -> Result<PrimeReply, CallFault>
        ensures made { IfOk result (λ r. WasMade L.service pass.old.trace (call.Prime key.now outcome) (reply_by r) pass.new.trace) }
        ensures refused { IfOk result (λ r. 0 < refused_by r → pass.new.flags.refused ≡ true) }
        ensures tickets { OnOk result (pass.new.trace.tickets ≡ pass.old.trace.tickets) }
        ensures fault { IfErr result (WasRefused L.service pass.old.trace (call.Prime key.now outcome) None) }
        ensures knows { IfErr result (KnowsStop pass.new.flags) }
        ensures unchanged { OnErr result (pass.new.trace ≡ pass.old.trace) }
    {
        let call = Prime {
            key,
            outcome: &outcome,
        };
        let (reply, ended) = self.call(rt, alloc, pass, &call)?;
        Ok(prime_reply(reply, ended))
    }

    /// Forgets the key, if the loader holds it (DataLoader: `clear`).
    ///
    /// # Errors
    /// `Stopped`, `Behind`, `LogFull`, `OutOfMemory`, `LogRefused`.
    pub fn clear(
        &self,
        rt: &impl Wait,
        alloc: Global,
        pass: &mut Pass<L>,
        key: &FetchKey,
    ) -> Result<(), CallFault>
        ensures made { OnOk result (WasMade L.service pass.old.trace (call.Clear key.now) reply.Done pass.new.trace) }
        ensures tickets { OnOk result (pass.new.trace.tickets ≡ pass.old.trace.tickets) }
        ensures fault { IfErr result (WasRefused L.service pass.old.trace (call.Clear key.now) None) }
        ensures knows { IfErr result (KnowsStop pass.new.flags) }
        ensures unchanged { OnErr result (pass.new.trace ≡ pass.old.trace) }
    {
        self.call(rt, alloc, pass, &Clear::Key(key))?;
        Ok(())
    }

    /// Forgets all keys (DataLoader: `clearAll`).
    ///
    /// # Errors
    /// `Stopped`, `Behind`, `LogFull`, `OutOfMemory`, `LogRefused`.
    pub fn clear_all(
        &self,
        rt: &impl Wait,
        alloc: Global,
        pass: &mut Pass<L>,
    ) -> Result<(), CallFault>
        ensures made { OnOk result (WasMade L.service pass.old.trace call.ClearAll reply.Done pass.new.trace) }
        ensures tickets { OnOk result (pass.new.trace.tickets ≡ pass.old.trace.tickets) }
        ensures fault { IfErr result (WasRefused L.service pass.old.trace call.ClearAll None) }
        ensures knows { IfErr result (KnowsStop pass.new.flags) }
        ensures unchanged { OnErr result (pass.new.trace ≡ pass.old.trace) }
    {
        self.call(rt, alloc, pass, &Clear::All)?;
        Ok(())
    }

    /// Sends every batch that has not gone out yet, in order, each as a job. Nobody dispatches for you. Then end each
    /// job, by [`end_jobs`](crate::end_jobs) for example: until you do, nobody gets the outcomes of its keys.
    ///
    /// # Errors
    /// `Stopped`, `Behind`, `LogFull`, `OutOfMemory`, `LogRefused`.
    pub fn dispatch(
        &self,
        rt: &impl Wait,
        alloc: Global,
        pass: &mut Pass<L>,
    ) -> Result<Vec<Job>, CallFault>
        ensures made { IfOk result (λ jobs. WasMade L.service pass.old.trace call.Dispatch (reply.Sent jobs.items) pass.new.trace) }
        ensures tickets { OnOk result (pass.new.trace.tickets ≡ pass.old.trace.tickets) }
        ensures fault { IfErr result (WasRefused L.service pass.old.trace call.Dispatch None) }
        ensures knows { IfErr result (KnowsStop pass.new.flags) }
        ensures unchanged { OnErr result (pass.new.trace ≡ pass.old.trace) }
    {
        let rule = self.turns.lock(rt);
        self.send(rt, alloc, pass, rule)
    }

    /// Waits until none of the callers that take part runs, and then dispatches as [`dispatch`](Loader::dispatch) does.
    /// So callers that make their loads at the same time share batches. One of those that wait here gets the jobs of
    /// all, and the others get none. For a caller that takes no part this is `dispatch`.
    ///
    /// Load again once you have waited for a ticket. Until then others may still send, and a key that you load goes out
    /// with them.
    ///
    /// # Errors
    /// As [`dispatch`](Loader::dispatch).
    pub fn gather(
        &self,
        rt: &impl Wait,
        alloc: Global,
        pass: &mut Pass<L>,
    ) -> Result<Vec<Job>, CallFault>
        ensures made { IfOk result (λ jobs. WasMade L.service pass.old.trace call.Dispatch (reply.Sent jobs.items) pass.new.trace) }
        ensures tickets { OnOk result (pass.new.trace.tickets ≡ pass.old.trace.tickets) }
        ensures fault { IfErr result (WasRefused L.service pass.old.trace call.Dispatch None) }
        ensures knows { IfErr result (KnowsStop pass.new.flags) }
        ensures unchanged { OnErr result (pass.new.trace ≡ pass.old.trace) }
    {
        let rule = self.arrive(rt, pass);
        self.send(rt, alloc, pass, rule)
    }

    /// Dispatches, and notes on the locked rule how many batches went out. Nobody goes on before that.
    fn send(
        &self,
        rt: &impl Wait,
        alloc: Global,
        pass: &mut Pass<L>,
        rule: MutexGuard<'_, Gathering>,
    ) -> Result<Vec<Job>, CallFault>
        ensures made { IfOk result (λ jobs. WasMade L.service pass.old.trace call.Dispatch (reply.Sent jobs.items) pass.new.trace) }
        ensures tickets { OnOk result (pass.new.trace.tickets ≡ pass.old.trace.tickets) }
        ensures fault { IfErr result (WasRefused L.service pass.old.trace call.Dispatch None) }
        ensures knows { IfErr result (KnowsStop pass.new.flags) }
        ensures unchanged { OnErr result (pass.new.trace ≡ pass.old.trace) }
    {
        let sent = self.jobs(rt, alloc, pass);
        let batches = match &sent {
            Ok(jobs) => jobs.len(),
            Err(_) => 0,
        };
        self.note_sent(rule, pass.caller(), batches);
        sent
    }

    /// The event of a dispatch.
    fn jobs(&self, rt: &impl Wait, alloc: Global, pass: &mut Pass<L>) -> Result<Vec<Job>, CallFault>
        ensures made { IfOk result (λ jobs. WasMade L.service pass.old.trace call.Dispatch (reply.Sent jobs.items) pass.new.trace) }
        ensures tickets { OnOk result (pass.new.trace.tickets ≡ pass.old.trace.tickets) }
        ensures fault { IfErr result (WasRefused L.service pass.old.trace call.Dispatch None) }
        ensures knows { IfErr result (KnowsStop pass.new.flags) }
        ensures unchanged { OnErr result (pass.new.trace ≡ pass.old.trace) }
    {
        let (sent, _) = self.call(rt, alloc, pass, &Dispatch)?;
        Ok(sent.into_jobs())
    }
}

/// What a prime answers, by the desk's reply and by how the cell took its outcome.
pub(crate) fn prime_reply(prime: DeskPrime, ended: Settled) -> PrimeReply
    ensures told { reply_by result ≡ primed prime }
    ensures refused { refused_by result ≤ ended.refused }
{
    match prime {
        DeskPrime::Primed(cell) => PrimeReply::Primed {
            cell,
            shown: ended.refused == 0,
        },
        DeskPrime::Kept => PrimeReply::Kept,
    }
}
