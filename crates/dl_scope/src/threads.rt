//! The threads of a server: one for each worker and each plan, all at once.
//!
//! [`deal`](task_lists::deal) deals passes and seats out to the threads: a [`PlanTask`] or a [`WorkerTask`] for each. A
//! thread gives back a [`PlanRun`] or a [`WorkerRun`](runs::WorkerRun).
//! [`ThreadResults`](thread_results::ThreadResults) puts these together, and ends the queue by their seats.

ghost use Rattle.std.specs.Prelude.{◌≡◌, [], All, IfOk};
ghost use Rattle.std.specs.List.{AllZip};
ghost use Rattle.dl_desk.specs.Service.{Answers};
ghost use Rattle.dl_workers.specs.Seats.{IsSenderOf, IsTakerOf};
ghost use Rattle.dl_scope.specs.Inside.ThreadRuns.{IsPlanRun, IsWorkerRun, SendsNothing};

pub(crate) mod plans;
pub(crate) mod runs;
pub(crate) mod server;
pub(crate) mod task_lists;
mod tasks;
pub(crate) mod thread_results;
mod workers;

use crate::threads::plans::start_plan;
use crate::threads::runs::{PlanRun, Runs, with_plan, with_worker};
use crate::threads::server::Server;
use crate::threads::tasks::{PlanTask, WorkerTask};
use crate::threads::workers::start_worker;
use dl_loader::LoaderName;
use dl_source::Source;
use dl_workers::{Gate, Sender};
use std::alloc::AllocError;
use std::sync::Wait;
use std::thread;
use std::thread::{Scope, Threads};

/// Runs each worker and each plan on a thread of its own, all at once, and joins them. The server's own sender shuts
/// the queue once the plans have ended or the system refuses a thread, so no worker is left waiting.
///
/// # Errors
/// `AllocError` if memory runs out or the system refuses a thread. Each thread that started has ended by then.
pub(crate) fn run_all<
    L: LoaderName + Send + Sync,
    S: Source + Sync,
    G: Gate + Sync,
    R: Threads + Wait + Sync,
>(
    rt: &R,
    server: &Server<'_, L, S, G>,
    workers: Vec<WorkerTask<L>>,
    plans: Vec<PlanTask<L>>,
    own: Sender,
) -> Result<Runs<L>, AllocError>
    requires source { Answers (S.answer server.now.resources.now.source.now) L.service }
    requires workers { All (λ task. IsTakerOf server.now.queue.now task.taker) workers.items }
    requires plans { All (λ task. IsSenderOf server.now.queue.now task.sender) plans.items }
    requires own { IsSenderOf server.now.queue.now own }
    ensures workers { IfOk result (λ runs. AllZip (IsWorkerRun server.now.queue.now L.service) workers.items runs.workers.items) }
    ensures plans { IfOk result (λ runs. AllZip (IsPlanRun server.now.queue.now L.service) plans.items runs.plans.items) }
    ensures own { IfOk result (λ runs. SendsNothing server.now.queue.now own runs.own) }
{
    thread::scope(
        thread::scope_env(),
        rt,
        |scope| -> Result<Runs<L>, AllocError>
            requires { Answers (S.answer server.now.resources.now.source.now) L.service
                × All (λ task. IsTakerOf server.now.queue.now task.taker) workers.items
                × All (λ task. IsSenderOf server.now.queue.now task.sender) plans.items × IsSenderOf server.now.queue.now own }
            ensures workers { IfOk result (λ runs. AllZip (IsWorkerRun server.entry.now.queue.now L.service) workers.items runs.workers.items) }
            ensures plans { IfOk result (λ runs. AllZip (IsPlanRun server.entry.now.queue.now L.service) plans.items runs.plans.items) }
            ensures own { IfOk result (λ runs. SendsNothing server.entry.now.queue.now own runs.own) }
        { run_workers(scope, rt, server, workers, plans, own) },
    )
}

/// Starts a thread for each worker, the last first, then runs the plans, and joins the workers.
fn run_workers<
    's,
    E,
    L: LoaderName + Send + Sync + 's,
    S: Source + Sync + 's,
    G: Gate + Sync + 's,
    R: Threads + Wait + Sync + 's,
>(
    scope: &Scope<'s, E>,
    rt: &'s R,
    server: &'s Server<'s, L, S, G>,
    mut workers: Vec<WorkerTask<L>>,
    plans: Vec<PlanTask<L>>,
    own: Sender,
) -> Result<Runs<L>, AllocError>
    requires source { Answers (S.answer server.now.resources.now.source.now) L.service }
    requires workers { All (λ task. IsTakerOf server.now.queue.now task.taker) workers.items }
    requires plans { All (λ task. IsSenderOf server.now.queue.now task.sender) plans.items }
    requires own { IsSenderOf server.now.queue.now own }
    ensures workers { IfOk result (λ runs. AllZip (IsWorkerRun server.now.queue.now L.service) workers.items runs.workers.items) }
    ensures plans { IfOk result (λ runs. AllZip (IsPlanRun server.now.queue.now L.service) plans.items runs.plans.items) }
    ensures own { IfOk result (λ runs. SendsNothing server.now.queue.now own runs.own) }
{
    let Some(task) = workers.pop() else {
        return run_plans_alone(scope, rt, server, plans, own);
    };
    let Some(child) = start_worker(scope, rt, server, task) else {
        return Err(refused(rt, server, own));
    };
    let rest = run_workers(scope, rt, server, workers, plans, own);
    with_worker(rest, child.join(rt))
}

/// Stops the loader and shuts the queue, since the system refused the thread of a worker.
fn refused<L: LoaderName, S, G>(
    rt: &impl Wait,
    server: &Server<'_, L, S, G>,
    mut own: Sender,
) -> AllocError
    requires own { IsSenderOf server.now.queue.now own }
{
    server.loader.stop(rt);
    server.queue.shut(rt, &mut own);
    AllocError
}

/// Runs the plans, once each worker has started, and shuts the queue.
fn run_plans_alone<
    's,
    E,
    L: LoaderName + Send + Sync + 's,
    S: Sync + 's,
    G: Sync + 's,
    R: Threads + Wait + Sync + 's,
>(
    scope: &Scope<'s, E>,
    rt: &'s R,
    server: &'s Server<'s, L, S, G>,
    plans: Vec<PlanTask<L>>,
    mut own: Sender,
) -> Result<Runs<L>, AllocError>
    requires plans { All (λ task. IsSenderOf server.now.queue.now task.sender) plans.items }
    requires own { IsSenderOf server.now.queue.now own }
    ensures workers { IfOk result (λ runs. runs.workers.items ≡ []) }
    ensures plans { IfOk result (λ runs. AllZip (IsPlanRun server.now.queue.now L.service) plans.items runs.plans.items) }
    ensures own { IfOk result (λ runs. SendsNothing server.now.queue.now own runs.own) }
{
    let plans = run_plans(scope, rt, server, plans);
    server.queue.shut(rt, &mut own);
    Ok(Runs {
        plans: plans?,
        workers: Vec::new(server.resources.alloc),
        own,
    })
}

/// Starts a thread for each plan, the last first, and joins them.
fn run_plans<
    's,
    E,
    L: LoaderName + Send + Sync + 's,
    S: Sync + 's,
    G: Sync + 's,
    R: Threads + Wait + Sync + 's,
>(
    scope: &Scope<'s, E>,
    rt: &'s R,
    server: &'s Server<'s, L, S, G>,
    mut plans: Vec<PlanTask<L>>,
) -> Result<Vec<PlanRun<L>>, AllocError>
    requires plans { All (λ task. IsSenderOf server.now.queue.now task.sender) plans.items }
    ensures plans { IfOk result (λ runs. AllZip (IsPlanRun server.now.queue.now L.service) plans.items runs.items) }
{
    let Some(task) = plans.pop() else {
        return Ok(Vec::new(server.resources.alloc));
    };
    let Some(child) = start_plan(scope, rt, server, task) else {
        // Else plans that never run would hold up the others for ever.
        server.loader.stop(rt);
        return Err(AllocError);
    };
    let rest = run_plans(scope, rt, server, plans);
    with_plan(rest, child.join(rt))
}
