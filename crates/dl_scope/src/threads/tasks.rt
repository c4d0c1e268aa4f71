//! What each thread of a server gets, and what a worker's thread does with it.

ghost use Rattle.dl_desk.specs.Service.{Answers};
ghost use Rattle.dl_workers.specs.Seats.{IsTakerOf};
ghost use Rattle.dl_scope.specs.Inside.ThreadRuns.{IsWorkerRun};

use crate::threads::runs::WorkerRun;
use crate::threads::server::Server;
use dl_loader::{LoaderName, Pass};
use dl_source::Source;
use dl_terms::Plan;
use dl_workers::{Gate, Sender, Taker, work};
use std::sync::Wait;

/// What a plan's thread gets.
#[derive(Drop)]
pub(crate) struct PlanTask<L: LoaderName> {
    /// The pass of the plan's caller.
    pub(crate) pass: Pass<L>,
    /// Its seat at the queue.
    pub(crate) sender: Sender,
    /// The plan. The thread takes its steps.
    pub(crate) plan: Plan,
}

/// What a worker's thread gets.
#[derive(Drop)]
pub(crate) struct WorkerTask<L: LoaderName> {
    /// The pass of the worker's caller.
    pub(crate) pass: Pass<L>,
    /// Its seat at the queue.
    pub(crate) taker: Taker,
}

impl<L: LoaderName> WorkerTask<L> {
    /// Takes jobs until the queue is shut, and ends the batch of each by what the source answers.
    pub(crate) fn run<S: Source, G: Gate, R: Wait>(
        self,
        rt: &R,
        server: &Server<'_, L, S, G>,
    ) -> WorkerRun<L>
        requires source { Answers (S.answer server.now.resources.now.source.now) L.service }
        requires seat { IsTakerOf server.now.queue.now self.taker }
        ensures run { IsWorkerRun server.now.queue.now L.service self result }
    {
        let WorkerTask {
            mut pass,
            mut taker,
        } = self;
        let resources = server.resources;
        let (alloc, source, gate) = (resources.alloc, resources.source, resources.gate);
        let (loader, queue) = (server.loader, server.queue);
        let end = work(
            rt, alloc, loader, source, &mut pass, queue, &mut taker, gate,
        );
        WorkerRun { pass, taker, end }
    }
}
