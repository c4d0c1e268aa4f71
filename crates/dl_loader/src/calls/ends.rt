//! The ends of batches.

ghost use Rattle.dl_desk.specs.Service.{Answers};
ghost use Rattle.std.specs.Prelude.{◌≡◌, ◌+◌, ◌<◌, true, IfErr, IfOk, OnErr, OnOk, Some, length};
ghost use Rattle.dl_source.specs.Fetched.{answer_of, job_of, source_of};
ghost use Rattle.dl_desk.specs.declared.event.Call.TheVariants as call;
ghost use Rattle.dl_desk.specs.declared.event.Reply.TheVariants as reply;
ghost use Rattle.dl_loader.specs.Asks.{end_by, fault_of};
ghost use Rattle.dl_loader.specs.EventEffect.{KnowsStop, WasMade, WasRefused};

use crate::ask::GiveUp;
use crate::event_call::EndBatch;
use crate::loader::Loader;
use crate::reply::Settled;
use dl_desk::Job;
use dl_history::{CallFault, LoaderName, Pass};
use dl_source::{Fetched, Source};
use std::alloc::Global;
use std::sync::Wait;

impl<L: LoaderName> Loader<L> {
    /// Ends a batch by what the loader's source answered to it: each key gets its outcome or, if the source breaks, the
    /// batch fails with the break's text. [`fetch_job`](dl_source::fetch_job) gives you `fetched`.
    ///
    /// # Errors
    /// `Stopped`, `Behind`, `LogFull`, `NoBatch`, `NotSent`, `SettledBefore`, `WrongKeys`, `OutOfMemory`, `LogRefused`.
    /// You get `fetched` back.
    pub fn settle<'s, S: Source>(
        &self,
        rt: &impl Wait,
        alloc: Global,
        pass: &mut Pass<L>,
        fetched: Fetched<'s, S>,
    ) -> Result<Settled, (CallFault, Fetched<'s, S>)>
        requires source { Answers (S.answer (source_of fetched)) L.service }
        ensures made { OnOk result
            (WasMade L.service pass.old.trace (end_by (job_of fetched.entry).batch (answer_of fetched.entry)) reply.Done pass.new.trace) }
        ensures tickets { OnOk result (pass.new.trace.tickets ≡ pass.old.trace.tickets) }
        ensures each { IfOk result (λ settled. settled.shown + settled.refused ≡ length (job_of fetched.entry).keys) }
        ensures refused { IfOk result (λ settled. 0 < settled.refused → pass.new.flags.refused ≡ true) }
        ensures fault { IfErr result
            (λ e. WasRefused L.service pass.old.trace (end_by (job_of fetched.entry).batch (answer_of fetched.entry)) (Some (job_of fetched.entry)) e.0) }
        ensures knows { IfErr result (λ e. KnowsStop pass.new.flags e.0) }
        ensures back { IfErr result (λ e. e.1 ≡ fetched.entry) }
        ensures unchanged { OnErr result (pass.new.trace ≡ pass.old.trace) }
    {
        let rule = self.turns.lock(rt);
        match self.call(rt, alloc, pass, &EndBatch::settle(&fetched)) {
            Ok((_, settled)) => {
                self.note_end(rule);
                Ok(settled)
            }
            Err(fault) => Err((fault, fetched)),
        }
    }

    /// Fails a batch that you give up: each load in it ends with that failure.
    ///
    /// # Errors
    /// `Stopped`, `Behind`, `LogFull`, `NoBatch`, `NotSent`, `SettledBefore`, `WrongKeys`, `OutOfMemory`, `LogRefused`.
    /// You get the job back.
    pub fn fail(
        &self,
        rt: &impl Wait,
        alloc: Global,
        pass: &mut Pass<L>,
        job: Job,
        give_up: GiveUp,
    ) -> Result<Settled, (CallFault, Job)>
        ensures made { OnOk result (WasMade L.service pass.old.trace (call.Fail job.batch (fault_of give_up)) reply.Done pass.new.trace) }
        ensures tickets { OnOk result (pass.new.trace.tickets ≡ pass.old.trace.tickets) }
        ensures each { IfOk result (λ settled. settled.shown + settled.refused ≡ length job.keys) }
        ensures refused { IfOk result (λ settled. 0 < settled.refused → pass.new.flags.refused ≡ true) }
        ensures fault { IfErr result (λ e. WasRefused L.service pass.old.trace (call.Fail job.batch (fault_of give_up)) (Some job) e.0) }
        ensures knows { IfErr result (λ e. KnowsStop pass.new.flags e.0) }
        ensures back { IfErr result (λ e. e.1 ≡ job) }
        ensures unchanged { OnErr result (pass.new.trace ≡ pass.old.trace) }
    {
        let rule = self.turns.lock(rt);
        match self.call(rt, alloc, pass, &EndBatch::fail(&job, give_up)) {
            Ok((_, settled)) => {
                self.note_end(rule);
                Ok(settled)
            }
            Err(fault) => Err((fault, job)),
        }
    }
}
