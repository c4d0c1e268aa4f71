//! The ends of batches.

ghost use Rattle.std.specs.Prelude.{◌≡◌, [], IfErr, IfOk, List, None, OnOk, Some, length, map};
ghost use Rattle.dl_desk.specs.BatchBook.{StandsFor, MayEndIn};
ghost use Rattle.dl_desk.specs.History.{Atom, members};
ghost use Rattle.dl_desk.specs.Service.{Answers, Service};
ghost use Rattle.dl_desk.specs.declared.event.Call.TheVariants as made;
ghost use Rattle.dl_desk.specs.declared.event.Reply.TheVariants as reply;
ghost use Rattle.dl_loader.specs.Asks.{end_by, fault_of};
ghost use Rattle.dl_loader.specs.Inside.EventCalls.{Brings, call_ended, end_made, ended_len, job_ended};
ghost use Rattle.dl_loader.specs.Inside.Dues.{end_as, end_refusal};
ghost use Rattle.dl_source.specs.Fetched.{answer_of, job_of, source_of};

use crate::ask::GiveUp;
use crate::dues::dues;
use crate::event_call::{EventCall, Prepared};
use dl_desk::{BatchFault, Desk, End, FetchKey, Job, LoadReply};
use dl_history::{Call, CallFault, Reply};
use dl_source::{BatchAnswer, Fetched, Source};
use std::alloc::{AllocError, Global};

/// The end of a batch with these keys.
#[derive(Drop)]
pub(crate) struct EndBatch<'a> {
    batch: u32,
    keys: &'a [FetchKey],
    /// What the source answered to the keys, or why the caller gives the batch up.
    answer: Result<&'a BatchAnswer, GiveUp>,
    ghost fits: { ended_len (length keys.now) answer ≡ length keys.now },
}

impl<'a> EndBatch<'a> {
    /// The end by what the source answered.
    pub(crate) fn settle<S: Source>(fetched: &'a Fetched<'_, S>) -> EndBatch<'a>
        ensures call { call_ended result.batch result.answer ≡ end_by (job_of fetched.now).batch (answer_of fetched.now) }
        ensures job { job_ended result.batch result.keys.now ≡ job_of fetched.now }
        ensures brings { (service : Service) → Answers (S.answer (source_of fetched.now)) service → Brings result.keys.now result.answer service.answer }
    {
        EndBatch {
            batch: fetched.batch(),
            keys: fetched.keys(),
            answer: Ok(fetched.answer()),
        }
    }

    /// The failure of a batch that its caller gives up.
    pub(crate) fn fail(job: &'a Job, give_up: GiveUp) -> EndBatch<'a>
        ensures call { call_ended result.batch result.answer ≡ made.Fail job.now.batch (fault_of give_up) }
        ensures job { job_ended result.batch result.keys.now ≡ job.now }
        ensures brings { (service : Service) → Brings result.keys.now result.answer service.answer }
    {
        EndBatch {
            batch: job.batch,
            keys: job.keys.as_slice(),
            answer: Err(give_up),
        }
    }

    /// The call of its event. Fails if a reference count would overflow.
    fn call(&self) -> Result<Call, AllocError>
        ensures { IfOk result (λ call. call ≡ call_ended self.now.batch self.now.answer) }
    {
        let batch = self.batch;
        match self.answer {
            Ok(answer) => end_call(batch, answer),
            Err(give_up) => {
                let fault = batch_fault(give_up);
                Ok(Call::Fail { batch, fault })
            }
        }
    }

    /// How the desk ends the batch.
    fn end(&self) -> End
        ensures { result ≡ end_made self.now.answer }
    {
        match self.answer {
            Ok(answer) => end_as(answer),
            Err(_) => End::Failed,
        }
    }
}

impl EventCall for EndBatch<'_> {
    type Reply = ();

    ghost call = { λ c. call_ended c.batch c.answer };

    ghost job = { λ c. Some (job_ended c.batch c.keys.now) };

    ghost told = { λ _. reply.Done };

    ghost brings = { λ c. Brings c.keys.now c.answer };

    ghost ready = { λ c desk. MayEndIn desk.book c.batch };

    fn prepare(&self, alloc: Global, at: u16, desk: &mut Desk) -> Result<Prepared<()>, CallFault> {
        let cells = cells_of(desk, self.batch, self.keys)?;
        let call = self.call()?;
        let dues = dues(alloc, at, cells, &call)?;
        Ok(Prepared {
            call,
            reply: Reply::Done,
            dues: Some(dues),
            answer: (),
        })
    }

    fn show(&self, desk: &mut Desk) {
        desk.end(self.batch, self.end());
    }

    fn loads(_reply: &()) -> &[LoadReply]
        ensures { [] ≡ result.now }
    {
        &[]
    }

    fn tell(_reply: ()) -> Reply
        ensures { result ≡ reply.Done }
    {
        Reply::Done
    }
}

/// The cells of a batch's members, in order, if the batch may end and these are its keys.
fn cells_of<'a>(desk: &'a Desk, batch: u32, keys: &[FetchKey]) -> Result<&'a [u32], CallFault>
    ensures cells { IfOk result (λ cells. (history : List Atom) → StandsFor desk.now.book history → cells.now ≡ map (λ m. m.1) (members history batch)) }
    ensures each { IfOk result (λ cells. length cells.now ≡ length keys.now) }
    ensures may { OnOk result (MayEndIn desk.now.book batch) }
    ensures accepted { OnOk result ((history : List Atom) → StandsFor desk.now.book history → end_refusal history batch keys.now ≡ None) }
    ensures fault { IfErr result (λ fault. (history : List Atom) → StandsFor desk.now.book history → end_refusal history batch keys.now ≡ Some fault) }
{
    let view = desk.ending(batch)?;
    if keys != view.keys() {
        return Err(CallFault::WrongKeys);
    }
    Ok(view.cells())
}

/// The call that ends a batch by what its source answered. Fails if a reference count would overflow.
fn end_call(batch: u32, answer: &BatchAnswer) -> Result<Call, AllocError>
    ensures { IfOk result (λ call. call ≡ end_by batch answer.now) }
{
    match answer {
        BatchAnswer::Each(outcomes) => {
            let outcomes = outcomes.try_copy()?;
            Ok(Call::Settle { batch, outcomes })
        }
        BatchAnswer::Break(text) => {
            let fault = BatchFault::Source(text.try_copy()?);
            Ok(Call::Fail { batch, fault })
        }
    }
}

/// How the desk ends a batch by what its source answered.
fn end_as(answer: &BatchAnswer) -> End
    ensures { result ≡ end_as answer.now }
{
    match answer {
        BatchAnswer::Each(_) => End::Settled,
        BatchAnswer::Break(_) => End::Failed,
    }
}

/// The fault of a batch that its caller gives up.
fn batch_fault(give_up: GiveUp) -> BatchFault
    ensures { result ≡ fault_of give_up }
{
    match give_up {
        GiveUp::Memory => BatchFault::Memory,
        GiveUp::Unsent => BatchFault::Unsent,
    }
}
