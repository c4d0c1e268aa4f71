//! Ending the batches of jobs by what a source answers.

ghost use Rattle.std.specs.Prelude.{◌≡◌, ◌+◌, ◌<◌, true, IfErr, IfOk, OnErr, OnOk, length};
ghost use Rattle.dl_desk.specs.Service.{Answers};
ghost use Rattle.dl_loader.specs.EventEffect.{KnowsStop};
ghost use Rattle.dl_loader.specs.JobEnd.{WasEnded, WasNotEnded, WereEnded, WereEndedBefore};

use crate::ask::GiveUp;
use crate::loader::Loader;
use crate::reply::Settled;
use dl_desk::Job;
use dl_history::{CallFault, LoaderName, Pass};
use dl_source::{Source, fetch_job};
use std::alloc::Global;
use std::sync::Wait;

/// Ends the batch of a job: asks the loader's source for the job's keys, and settles the batch by the answer. If memory
/// runs out for that, it fails the batch instead, as [`GiveUp::Memory`].
///
/// # Errors
/// Those of [`Loader::settle`] and [`Loader::fail`]. `OutOfMemory` comes only if memory runs out for the failure too.
/// The job is gone, and the pass has the calls, reads and tickets that it had.
pub fn end_job<L: LoaderName, S: Source>(
    rt: &impl Wait,
    alloc: Global,
    loader: &Loader<L>,
    source: &S,
    pass: &mut Pass<L>,
    job: Job,
) -> Result<Settled, CallFault>
    requires source { Answers (S.answer source.now) L.service }
    ensures ended { OnOk result (WasEnded L.service pass.old.trace job pass.new.trace) }
    ensures each { IfOk result (λ settled. settled.shown + settled.refused ≡ length job.keys) }
    ensures refused { IfOk result (λ settled. 0 < settled.refused → pass.new.flags.refused ≡ true) }
    ensures fault { IfErr result (WasNotEnded L.service pass.old.trace job) }
    ensures knows { IfErr result (KnowsStop pass.new.flags) }
    ensures unchanged { OnErr result (pass.new.trace ≡ pass.old.trace) }
    ensures tickets { pass.new.trace.tickets ≡ pass.old.trace.tickets }
{
    match fetch_job(alloc, source, job) {
        Ok(fetched) => match loader.settle(rt, alloc, pass, fetched) {
            Ok(settled) => Ok(settled),
            Err((CallFault::OutOfMemory, fetched)) => {
                give_up(rt, alloc, loader, pass, fetched.into_job())
            }
            Err((fault, _)) => Err(fault),
        },
        Err((job, _)) => give_up(rt, alloc, loader, pass, job),
    }
}

/// Ends the batch of each job as [`end_job`] does, in order.
///
/// # Errors
/// The first error of [`end_job`]. The jobs before that one have ended, and the others are gone. So stop the loader, or
/// whoever waits for their keys waits for ever.
pub fn end_jobs<L: LoaderName, S: Source>(
    rt: &impl Wait,
    alloc: Global,
    loader: &Loader<L>,
    source: &S,
    pass: &mut Pass<L>,
    jobs: Vec<Job>,
) -> Result<(), CallFault>
    requires source { Answers (S.answer source.now) L.service }
    ensures ended { OnOk result (WereEnded L.service pass.old.trace jobs.items pass.new.trace) }
    ensures knows { IfErr result (KnowsStop pass.new.flags) }
    ensures stopped { IfErr result (WereEndedBefore L.service pass.old.trace jobs.items pass.new.trace) }
    ensures tickets { pass.new.trace.tickets ≡ pass.old.trace.tickets }
{
    for job in jobs {
        end_job(rt, alloc, loader, source, pass, job)?;
    }
    Ok(())
}

/// Fails the batch of a job, since memory ran out.
fn give_up<L: LoaderName>(
    rt: &impl Wait,
    alloc: Global,
    loader: &Loader<L>,
    pass: &mut Pass<L>,
    job: Job,
) -> Result<Settled, CallFault>
    ensures ended { OnOk result (WasEnded L.service pass.old.trace job pass.new.trace) }
    ensures each { IfOk result (λ settled. settled.shown + settled.refused ≡ length job.keys) }
    ensures refused { IfOk result (λ settled. 0 < settled.refused → pass.new.flags.refused ≡ true) }
    ensures fault { IfErr result (WasNotEnded L.service pass.old.trace job) }
    ensures knows { IfErr result (KnowsStop pass.new.flags) }
    ensures unchanged { OnErr result (pass.new.trace ≡ pass.old.trace) }
    ensures tickets { pass.new.trace.tickets ≡ pass.old.trace.tickets }
{
    match loader.fail(rt, alloc, pass, job, GiveUp::Memory) {
        Ok(settled) => Ok(settled),
        Err((fault, _)) => Err(fault),
    }
}
