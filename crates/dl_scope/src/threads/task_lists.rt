//! Deals out passes and seats to threads.

ghost use Rattle.std.specs.Prelude.{◌≡◌, ◌≤◌, ◌+◌, ◌++◌, [], All, IfOk, length, map};
ghost use Rattle.dl_workers.specs.Seats.{AreSeatsOf, sent_jobs, taken_jobs};
ghost use Rattle.dl_scope.specs.Inside.Tasks.{AreTasks};

use crate::threads::server::Server;
use crate::threads::tasks::{PlanTask, WorkerTask};
use dl_loader::{LoaderName, Pass};
use dl_terms::Plan;
use dl_workers::{Sender, Taker};
use std::alloc::{AllocError, Global};

/// What all threads get, in the order of their callers, and the server's own sender.
#[derive(Drop)]
pub(crate) struct Tasks<L: LoaderName> {
    /// Those of the plans.
    pub(crate) plans: Vec<PlanTask<L>>,
    /// Those of the workers.
    pub(crate) workers: Vec<WorkerTask<L>>,
    /// The server's own sender.
    pub(crate) own: Sender,
}

/// Deals out these passes and seats. One sender stays the server's own. Fails if memory runs out.
pub(crate) fn deal<L: LoaderName, S, G>(
    server: &Server<'_, L, S, G>,
    mut passes: Vec<Pass<L>>,
    mut senders: Vec<Sender>,
    takers: Vec<Taker>,
    plans: Vec<Plan>,
) -> Result<Tasks<L>, AllocError>
    requires seats { AreSeatsOf server.now.queue.now senders.items takers.items }
    requires senders { length senders.items ≡ length plans.items + 1 }
    requires none_sent { All (λ s. sent_jobs s ≡ []) senders.items }
    requires none_taken { All (λ t. taken_jobs t ≡ []) takers.items }
    requires passes { length passes.items ≡ length plans.items + length takers.items }
    ensures dealt { IfOk result (AreTasks server.now.queue.now passes.items plans.items) }
{
    let Some(own) = senders.pop() else {
        unreachable!()
    };
    let alloc = server.resources.alloc;
    let workers = worker_tasks(alloc, &mut passes, takers)?;
    let plans = plan_tasks(alloc, passes, senders, plans)?;
    Ok(Tasks {
        plans,
        workers,
        own,
    })
}

/// For each plan, in order, its pass and its sender. Fails if memory runs out.
fn plan_tasks<L: LoaderName>(
    alloc: Global,
    mut passes: Vec<Pass<L>>,
    mut senders: Vec<Sender>,
    mut plans: Vec<Plan>,
) -> Result<Vec<PlanTask<L>>, AllocError>
    requires passes { length passes.items ≡ length plans.items }
    requires senders { length senders.items ≡ length plans.items }
    ensures passes { IfOk result (λ tasks. map (λ task. task.pass) tasks.items ≡ passes.items) }
    ensures senders { IfOk result (λ tasks. map (λ task. task.sender) tasks.items ≡ senders.items) }
    ensures plans { IfOk result (λ tasks. map (λ task. task.plan) tasks.items ≡ plans.items) }
{
    let Some(plan) = plans.pop() else {
        return Ok(Vec::new(alloc));
    };
    let Some(pass) = passes.pop() else {
        unreachable!()
    };
    let Some(sender) = senders.pop() else {
        unreachable!()
    };
    let mut tasks = plan_tasks(alloc, passes, senders, plans)?;
    tasks.push(PlanTask { pass, sender, plan })?;
    Ok(tasks)
}

/// For each worker, in order, its pass and its taker. The passes of the workers come last. Fails if memory runs out.
fn worker_tasks<L: LoaderName>(
    alloc: Global,
    passes: &mut Vec<Pass<L>>,
    mut takers: Vec<Taker>,
) -> Result<Vec<WorkerTask<L>>, AllocError>
    requires passes { length takers.items ≤ length passes.old.items }
    ensures passes { IfOk result (λ tasks. passes.old.items ≡ passes.new.items ++ map (λ task. task.pass) tasks.items) }
    ensures takers { IfOk result (λ tasks. map (λ task. task.taker) tasks.items ≡ takers.items) }
{
    let Some(taker) = takers.pop() else {
        return Ok(Vec::new(alloc));
    };
    let Some(pass) = passes.pop() else {
        unreachable!()
    };
    let mut tasks = worker_tasks(alloc, passes, takers)?;
    tasks.push(WorkerTask { pass, taker })?;
    Ok(tasks)
}
