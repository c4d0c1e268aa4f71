//! The calls of a serial loader that are events.

ghost use Rattle.std.specs.Prelude.{◌≡◌, ◌+◌, ◌<◌, IfErr, IfOk, None, OnErr, OnOk, Some, length};
ghost use Rattle.dl_desk.specs.Service.{Answers};
ghost use Rattle.dl_desk.specs.declared.event.Call.TheVariants as call;
ghost use Rattle.dl_desk.specs.declared.event.Reply.TheVariants as reply;
ghost use Rattle.dl_history.specs.Journal.{refusals};
ghost use Rattle.dl_loader.specs.Asks.{end_by, fault_of};
ghost use Rattle.dl_loader.specs.EventReplies.{refused_by, reply_by};
ghost use Rattle.dl_loader.specs.SerialLoader.{IsMade, IsRefused};
ghost use Rattle.dl_source.specs.Fetched.{answer_of, job_of, source_of};

use crate::ask::GiveUp;
use crate::calls::keys::prime_reply;
use crate::event_call::{Clear, Dispatch, EndBatch, Load, LoadMany, Prime};
use crate::reply::{PrimeReply, Settled};
use crate::serial_loader::SerialLoader;
use dl_desk::{FetchKey, Job, LoadReply, Outcome};
use dl_history::{CallFault, LoaderName, Replies};
use dl_source::{Fetched, Source};
use std::alloc::Global;

impl<L: LoaderName> SerialLoader<L> {
    /// Loads a key for a caller, which gets its next ticket for that (DataLoader: `load`).
    ///
    /// # Errors
    /// `Stopped`, `Behind`, `LogFull`, `CellsFull`, `OutOfMemory`, `LogRefused`.
    pub fn load(
        &mut self,
        alloc: Global,
        caller: u32,
        key: &FetchKey,
    ) -> Result<LoadReply, CallFault>
        requires caller { caller < length self.old.traces }
        ensures made { IfOk result (λ r. IsMade caller (call.Load key.now) (reply.Loaded r) self.old self.new) }
        ensures fault { IfErr result (IsRefused L.service caller (call.Load key.now) None self.old) }
        ensures unchanged { OnErr result (self.new ≡ self.old) }
    {
        let (reply, _) = self.call(alloc, caller, &Load { key })?;
        Ok(reply)
    }

    /// Loads keys in order, as one call. The caller gets its next tickets, one for each (DataLoader: `loadMany`).
    ///
    /// # Errors
    /// `Stopped`, `Behind`, `LogFull`, `CellsFull`, `OutOfMemory`, `LogRefused`.
    pub fn load_many(
        &mut self,
        alloc: Global,
        caller: u32,
        keys: &[FetchKey],
    ) -> Result<Replies, CallFault>
        requires caller { caller < length self.old.traces }
        ensures made { IfOk result (λ rs. IsMade caller (call.LoadMany keys.now) (reply.Many rs) self.old self.new) }
        ensures fault { IfErr result (IsRefused L.service caller (call.LoadMany keys.now) None self.old) }
        ensures unchanged { OnErr result (self.new ≡ self.old) }
    {
        let (replies, _) = self.call(alloc, caller, &LoadMany { keys })?;
        Ok(replies)
    }

    /// Gives a key that the loader doesn't hold a new cell, which ends with the outcome at once. If the loader holds
    /// the key, nothing changes but the history (DataLoader: `prime`).
    ///
    /// # Errors
    /// `Stopped`, `Behind`, `LogFull`, `CellsFull`, `OutOfMemory`, `LogRefused`.
    pub fn prime(
        &mut self,
        alloc: Global,
        caller: u32,
        key: &FetchKey,
        outcome: &Outcome,
    ) -> Result<PrimeReply, CallFault>
        requires caller { caller < length self.old.traces }
        ensures made { IfOk result (λ r. IsMade caller (call.Prime key.now outcome.now) (reply_by r) self.old self.new) }
        ensures refused { IfOk result (λ r. 0 < refused_by r → refusals self.old.book.cells < refusals self.new.book.cells) }
        ensures fault { IfErr result (IsRefused L.service caller (call.Prime key.now outcome.now) None self.old) }
        ensures unchanged { OnErr result (self.new ≡ self.old) }
    {
        let (reply, ended) = self.call(alloc, caller, &Prime { key, outcome })?;
        Ok(prime_reply(reply, ended))
    }

    /// Forgets the key, if the loader holds it (DataLoader: `clear`).
    ///
    /// # Errors
    /// `Stopped`, `Behind`, `LogFull`, `OutOfMemory`, `LogRefused`.
    pub fn clear(&mut self, alloc: Global, caller: u32, key: &FetchKey) -> Result<(), CallFault>
        requires caller { caller < length self.old.traces }
        ensures made { OnOk result (IsMade caller (call.Clear key.now) reply.Done self.old self.new) }
        ensures fault { IfErr result (IsRefused L.service caller (call.Clear key.now) None self.old) }
        ensures unchanged { OnErr result (self.new ≡ self.old) }
    {
        self.call(alloc, caller, &Clear::Key(key))?;
        Ok(())
    }

    /// Forgets all keys (DataLoader: `clearAll`).
    ///
    /// # Errors
    /// `Stopped`, `Behind`, `LogFull`, `OutOfMemory`, `LogRefused`.
    pub fn clear_all(&mut self, alloc: Global, caller: u32) -> Result<(), CallFault>
        requires caller { caller < length self.old.traces }
        ensures made { OnOk result (IsMade caller call.ClearAll reply.Done self.old self.new) }
        ensures fault { IfErr result (IsRefused L.service caller call.ClearAll None self.old) }
        ensures unchanged { OnErr result (self.new ≡ self.old) }
    {
        self.call(alloc, caller, &Clear::All)?;
        Ok(())
    }

    /// Sends every batch that has not gone out yet, in order, each as a job. End each of them by
    /// [`settle`](SerialLoader::settle) or [`fail`](SerialLoader::fail).
    ///
    /// # Errors
    /// `Stopped`, `Behind`, `LogFull`, `OutOfMemory`, `LogRefused`.
    pub fn dispatch(&mut self, alloc: Global, caller: u32) -> Result<Vec<Job>, CallFault>
        requires caller { caller < length self.old.traces }
        ensures made { IfOk result (λ jobs. IsMade caller call.Dispatch (reply.Sent jobs.items) self.old self.new) }
        ensures fault { IfErr result (IsRefused L.service caller call.Dispatch None self.old) }
        ensures unchanged { OnErr result (self.new ≡ self.old) }
    {
        let (sent, _) = self.call(alloc, caller, &Dispatch)?;
        Ok(sent.into_jobs())
    }

    /// Ends a batch by what the loader's source answered to it: each key gets its outcome or, if the source breaks, the
    /// batch fails with the break's text. [`fetch_job`](dl_source::fetch_job) gives you `fetched`.
    ///
    /// # Errors
    /// `Stopped`, `Behind`, `LogFull`, `NoBatch`, `NotSent`, `SettledBefore`, `WrongKeys`, `OutOfMemory`, `LogRefused`.
    pub fn settle<S: Source>(
        &mut self,
        alloc: Global,
        caller: u32,
        fetched: &Fetched<'_, S>,
    ) -> Result<Settled, CallFault>
        requires caller { caller < length self.old.traces }
        requires source { Answers (S.answer (source_of fetched.now)) L.service }
        ensures made { OnOk result (IsMade caller (end_by (job_of fetched.now).batch (answer_of fetched.now)) reply.Done self.old self.new) }
        ensures each { IfOk result (λ settled. settled.shown + settled.refused ≡ length (job_of fetched.now).keys) }
        ensures refused { IfOk result (λ settled. refusals self.new.book.cells ≡ refusals self.old.book.cells + settled.refused) }
        ensures fault { IfErr result
            (IsRefused L.service caller (end_by (job_of fetched.now).batch (answer_of fetched.now)) (Some (job_of fetched.now)) self.old) }
        ensures unchanged { OnErr result (self.new ≡ self.old) }
    {
        let (_, settled) = self.call(alloc, caller, &EndBatch::settle(fetched))?;
        Ok(settled)
    }

    /// Fails a batch that you give up: each load in it ends with that failure.
    ///
    /// # Errors
    /// `Stopped`, `Behind`, `LogFull`, `NoBatch`, `NotSent`, `SettledBefore`, `WrongKeys`, `OutOfMemory`, `LogRefused`.
    pub fn fail(
        &mut self,
        alloc: Global,
        caller: u32,
        job: &Job,
        give_up: GiveUp,
    ) -> Result<Settled, CallFault>
        requires caller { caller < length self.old.traces }
        ensures made { OnOk result (IsMade caller (call.Fail job.now.batch (fault_of give_up)) reply.Done self.old self.new) }
        ensures each { IfOk result (λ settled. settled.shown + settled.refused ≡ length job.now.keys) }
        ensures refused { IfOk result (λ settled. refusals self.new.book.cells ≡ refusals self.old.book.cells + settled.refused) }
        ensures fault { IfErr result (IsRefused L.service caller (call.Fail job.now.batch (fault_of give_up)) (Some job.now) self.old) }
        ensures unchanged { OnErr result (self.new ≡ self.old) }
    {
        let (_, settled) = self.call(alloc, caller, &EndBatch::fail(job, give_up))?;
        Ok(settled)
    }
}
