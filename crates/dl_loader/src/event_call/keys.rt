//! The calls on keys, and the dispatch.

ghost use Rattle.std.specs.Prelude.{◌≡◌, [], IfOk};
ghost use Rattle.dl_desk.specs.declared.call.DeskCall.TheVariants as asked;
ghost use Rattle.dl_desk.specs.Calls.{primed};
ghost use Rattle.dl_desk.specs.declared.event.Call.TheVariants as made;
ghost use Rattle.dl_desk.specs.declared.event.Reply.TheVariants as reply;
ghost use Rattle.dl_loader.specs.Inside.EventCalls.{clear_made};
ghost use Rattle.dl_loader.specs.Inside.Preparation.{IsReady, cell_primed};
ghost use Rattle.dl_loader.specs.EventEffect.{loads_of};

use crate::dues::dues;
use crate::event_call::{EventCall, Prepared};
use dl_desk::{Desk, DeskPrime, FetchKey, Job, LoadReply, Outcome};
use dl_history::{Call, CallFault, Jobs, Reply, Shared};
use std::alloc::{AllocError, Global};
use std::marker::Model;
use std::slice;

/// The clear of a key, or of all: the memo forgets what it holds.
#[derive(Drop)]
pub(crate) enum Clear<'a> {
    Key(&'a FetchKey),
    All,
}

impl EventCall for Clear<'_> {
    type Reply = ();

    ghost call = { clear_made };

    ghost told = { λ _. reply.Done };

    ghost ready = { λ _ _. Unit {0} };

    fn prepare(
        &self,
        _alloc: Global,
        _at: u16,
        _desk: &mut Desk,
    ) -> Result<Prepared<()>, CallFault> {
        Ok(Prepared {
            call: clear_call(self)?,
            reply: Reply::Done,
            dues: None,
            answer: (),
        })
    }

    fn show(&self, desk: &mut Desk) {
        match self {
            Clear::Key(key) => desk.clear(key),
            Clear::All => desk.clear_all(),
        }
    }

    fn loads(_reply: &()) -> &[LoadReply]
        ensures { [] ≡ result.now }
    {
        &[]
    }

    fn tell(_reply: ()) -> Reply
        ensures { result ≡ reply.Done }
    {
        Reply::Done
    }
}

/// The call of a clear's event. Fails if a reference count would overflow.
fn clear_call(clear: &Clear<'_>) -> Result<Call, AllocError>
    ensures { IfOk result (λ call. call ≡ clear_made clear.now) }
{
    match clear {
        Clear::Key(key) => Ok(Call::Clear(key.try_copy()?)),
        Clear::All => Ok(Call::ClearAll),
    }
}

/// The prime of a key with an outcome: a key that the memo doesn't hold gets a cell that ends with it.
#[derive(Drop)]
pub(crate) struct Prime<'a> {
    pub(crate) key: &'a FetchKey,
    pub(crate) outcome: &'a Outcome,
}

impl EventCall for Prime<'_> {
    type Reply = DeskPrime;

    ghost call = { λ c. made.Prime c.key.now c.outcome.now };

    ghost told = { primed };

    ghost ready = { λ c desk. IsReady desk (asked.Prime c.key.now) };

    fn prepare(
        &self,
        alloc: Global,
        at: u16,
        desk: &mut Desk,
    ) -> Result<Prepared<DeskPrime>, CallFault> {
        let reply = desk.prepare_prime(self.key)?;
        let outcome = Shared::new(alloc, self.outcome.try_copy()?)?;
        let call = Call::Prime(self.key.try_copy()?, outcome);
        let dues = dues(alloc, at, cell_primed(&reply), &call)?;
        Ok(Prepared {
            call,
            reply: prime_told(reply),
            dues: Some(dues),
            answer: reply,
        })
    }

    fn show(&self, desk: &mut Desk) {
        desk.make_prepared();
    }

    fn loads(reply: &DeskPrime) -> &[LoadReply]
        ensures { loads_of (primed reply.now) ≡ result.now }
    {
        let _ = *reply;
        &[]
    }

    fn tell(reply: DeskPrime) -> Reply
        ensures { result ≡ primed reply }
    {
        prime_told(reply)
    }
}

/// The jobs of a dispatch, to hand out, and once more for its event. Contracts see the list.
#[derive(Drop)]
pub(crate) struct SentJobs {
    jobs: Vec<Job>,
    told: Jobs,
}

impl Model for SentJobs {
    ghost use Rattle.std.specs.Prelude.{◌≡◌, List};
    ghost use Rattle.dl_values.specs.declared.job.Job.{Job};

    ghost Value = { List Job };

    ghost view = { λ s. s.told };

    ghost invariant = { λ s. s.jobs.items ≡ s.told };
}

impl SentJobs {
    /// The jobs to hand out.
    pub(crate) fn into_jobs(self) -> Vec<Job>
        ensures { result.items ≡ self }
    {
        let SentJobs { jobs, .. } = self;
        jobs
    }

    /// The jobs as the event has them.
    pub(crate) fn into_told(self) -> Jobs
        ensures { result ≡ self }
    {
        let SentJobs { told, .. } = self;
        told
    }
}

/// The dispatch: it sends every batch that has not gone out yet, each as a job.
#[derive(Drop)]
pub(crate) struct Dispatch;

impl EventCall for Dispatch {
    type Reply = SentJobs;

    ghost call = { λ _. made.Dispatch };

    ghost told = { λ jobs. reply.Sent jobs };

    ghost ready = { λ _ desk. IsReady desk asked.Dispatch };

    fn prepare(
        &self,
        alloc: Global,
        _at: u16,
        desk: &mut Desk,
    ) -> Result<Prepared<SentJobs>, CallFault> {
        let jobs = desk.prepare_dispatch(alloc)?;
        let told = Jobs::copy_of(alloc, jobs.as_slice())?;
        let copy = told.try_copy()?;
        Ok(Prepared {
            call: Call::Dispatch,
            reply: Reply::Sent(copy),
            dues: None,
            answer: SentJobs { jobs, told },
        })
    }

    fn show(&self, desk: &mut Desk) {
        desk.make_prepared();
    }

    fn loads(_jobs: &SentJobs) -> &[LoadReply]
        ensures { [] ≡ result.now }
    {
        &[]
    }

    fn tell(sent: SentJobs) -> Reply
        ensures { result ≡ reply.Sent sent }
    {
        Reply::Sent(sent.into_told())
    }
}

/// The desk's reply to a prime, as the history has it.
fn prime_told(reply: DeskPrime) -> Reply
    ensures { result ≡ primed reply }
{
    match reply {
        DeskPrime::Primed(cell) => Reply::Primed(cell),
        DeskPrime::Kept => Reply::Kept,
    }
}

/// The cell that a prime begins and ends, if any.
fn cell_primed(reply: &DeskPrime) -> &[u32]
    ensures { result.now ≡ cell_primed reply.now }
{
    match reply {
        DeskPrime::Primed(cell) => slice::from_ref(cell),
        DeskPrime::Kept => &[],
    }
}
