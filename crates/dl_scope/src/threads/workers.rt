//! The threads of workers.

ghost use Rattle.std.specs.Prelude.{◌≡◌, IfSome};
ghost use Rattle.dl_desk.specs.Service.{Answers};
ghost use Rattle.dl_workers.specs.Seats.{IsTakerOf};
ghost use Rattle.dl_scope.specs.Inside.ThreadRuns.{IsWorkerRun};

use crate::threads::runs::WorkerRun;
use crate::threads::server::Server;
use crate::threads::tasks::WorkerTask;
use dl_loader::LoaderName;
use dl_source::Source;
use dl_workers::{Gate, JobQueue};
use std::snapshot::Snapshot;
use std::sync::Wait;
use std::thread::{Promise, PromisedHandle, Scope};

/// What the server knows of what a worker's thread gives back.
#[derive(Drop)]
pub(crate) struct WorkerPromise<'a, L: LoaderName> {
    /// The queue at which the worker has its seat.
    pub(crate) queue: &'a JobQueue,
    /// What the thread got.
    pub(crate) task: Snapshot<WorkerTask<L>>,
}

impl<'a, L: LoaderName> Promise<WorkerRun<L>> for WorkerPromise<'a, L> {
    ghost kept_by = { λ p r. IsWorkerRun p.queue.now L.service p.task.value r };
}

/// Starts the thread of a worker. Returns `None` if the system refuses the thread.
pub(crate) fn start_worker<
    's,
    E,
    L: LoaderName + Send + Sync + 's,
    S: Source + Sync + 's,
    G: Gate + Sync + 's,
    R: Wait + Sync + 's,
>(
    scope: &Scope<'s, E>,
    rt: &'s R,
    server: &'s Server<'s, L, S, G>,
    task: WorkerTask<L>,
) -> Option<PromisedHandle<WorkerRun<L>, WorkerPromise<'s, L>>>
    requires source { Answers (S.answer server.now.resources.now.source.now) L.service }
    requires seat { IsTakerOf server.now.queue.now task.taker }
    ensures queue { IfSome result (λ child. child.promise.queue.now ≡ server.now.queue.now) }
    ensures task { IfSome result (λ child. child.promise.task.value ≡ task) }
{
    let promise = WorkerPromise {
        queue: server.queue,
        task: Snapshot::of(&task),
    };
    scope
        .spawn_with(
            promise,
            move || -> WorkerRun<L>
                requires { Answers (S.answer server.now.resources.now.source.now) L.service × IsTakerOf server.now.queue.now task.taker }
                ensures { IsWorkerRun server.entry.now.queue.now L.service task result }
            { task.run(rt, server) },
        )
        .ok()
}
