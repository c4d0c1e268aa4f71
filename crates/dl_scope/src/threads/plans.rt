//! The threads of plans.

ghost use Rattle.std.specs.Prelude.{◌≡◌, IfSome};
ghost use Rattle.dl_workers.specs.Seats.{IsSenderOf};
ghost use Rattle.dl_scope.specs.Inside.ThreadRuns.{IsPlanRun};

use crate::threads::runs::PlanRun;
use crate::threads::server::Server;
use crate::threads::tasks::PlanTask;
use dl_haxl::take_steps;
use dl_loader::{Loader, LoaderName};
use dl_workers::JobQueue;
use std::snapshot::Snapshot;
use std::sync::Wait;
use std::thread::{Promise, PromisedHandle, Scope};

/// Has the callers of all plans take part before a thread starts: so nobody sends before each of them has made its
/// loads. A plan that is alone takes no part, since it has nobody to wait for.
pub(crate) fn enter_plans<L: LoaderName>(
    rt: &impl Wait,
    loader: &Loader<L>,
    plans: &[PlanTask<L>],
) {
    if plans.len() > 1 {
        for task in plans {
            loader.enter(rt, &task.pass);
        }
    }
}

/// Takes the steps of a plan. If one meets a fault, stops the loader. Else its caller takes no part any more.
fn run_plan<L: LoaderName, S, G, R: Wait>(
    rt: &R,
    server: &Server<'_, L, S, G>,
    task: PlanTask<L>,
) -> PlanRun<L>
    requires seat { IsSenderOf server.now.queue.now task.sender }
    ensures run { IsPlanRun server.now.queue.now L.service task result }
{
    let PlanTask {
        mut pass,
        mut sender,
        plan,
    } = task;
    let steps = plan.into_steps();
    let (alloc, hashing) = (server.resources.alloc, server.resources.hashing);
    let (loader, queue) = (server.loader, server.queue);
    let max_answer = server.resources.max_answer;
    let given = take_steps(
        rt,
        alloc,
        hashing,
        loader,
        &mut pass,
        queue,
        &mut sender,
        steps,
        max_answer,
    );
    if given.is_err() {
        loader.stop(rt);
    } else {
        loader.leave(rt, &pass);
    }
    PlanRun {
        pass,
        sender,
        given,
    }
}

/// What the server knows of what a plan's thread gives back.
#[derive(Drop)]
pub(crate) struct PlanPromise<'a, L: LoaderName> {
    pub(crate) queue: &'a JobQueue,
    pub(crate) task: Snapshot<PlanTask<L>>,
}

impl<'a, L: LoaderName> Promise<PlanRun<L>> for PlanPromise<'a, L> {
    ghost kept_by = { λ p r. IsPlanRun p.queue.now L.service p.task.value r };
}

/// Starts the thread of a plan. Returns `None` if the system refuses the thread.
pub(crate) fn start_plan<
    's,
    E,
    L: LoaderName + Send + Sync + 's,
    S: Sync + 's,
    G: Sync + 's,
    R: Wait + Sync + 's,
>(
    scope: &Scope<'s, E>,
    rt: &'s R,
    server: &'s Server<'s, L, S, G>,
    task: PlanTask<L>,
) -> Option<PromisedHandle<PlanRun<L>, PlanPromise<'s, L>>>
    requires seat { IsSenderOf server.now.queue.now task.sender }
    ensures queue { IfSome result (λ child. child.promise.queue.now ≡ server.now.queue.now) }
    ensures task { IfSome result (λ child. child.promise.task.value ≡ task) }
{
    let promise = PlanPromise {
        queue: server.queue,
        task: Snapshot::of(&task),
    };
    scope
        .spawn_with(
            promise,
            move || -> PlanRun<L>
                requires { IsSenderOf server.now.queue.now task.sender }
                ensures { IsPlanRun server.entry.now.queue.now L.service task result }
            { run_plan(rt, server, task) },
        )
        .ok()
}
