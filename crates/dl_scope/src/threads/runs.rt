//! What each thread of a server gives back.

ghost use Rattle.std.specs.Prelude.{◌≡◌, ◌++◌, ◌∷◌, [], IfOk, IsOkAnd, OnOk};
ghost use Rattle.dl_scope.specs.Inside.ThreadResults.{AddsGiven, WasTaken};

use crate::threads::thread_results::ThreadResults;
use dl_haxl::{RunFault, StepAnswers};
use dl_loader::{LoaderName, Pass};
use dl_workers::{Sender, Taker, WorkerEnd};
use std::alloc::AllocError;

/// What a plan's thread gives back.
#[derive(Drop)]
pub(crate) struct PlanRun<L: LoaderName> {
    /// The pass of the plan's caller.
    pub(crate) pass: Pass<L>,
    /// Its seat at the queue.
    pub(crate) sender: Sender,
    /// What the steps gave, or the fault that one of them met.
    pub(crate) given: Result<StepAnswers, RunFault>,
}

impl<L: LoaderName> PlanRun<L> {
    /// Adds this to what the other threads gave back.
    pub(crate) fn add_to(self, all: &mut ThreadResults<L>) -> Result<(), AllocError>
        requires taken { WasTaken self }
        ensures passes { OnOk result (all.new.passes.items ≡ all.old.passes.items ++ self.pass ∷ []) }
        ensures senders { OnOk result (all.new.senders.items ≡ all.old.senders.items ++ self.sender ∷ []) }
        ensures takers { OnOk result (all.new.takers.items ≡ all.old.takers.items) }
        ensures gave { OnOk result (AddsGiven self all.old.answers.items all.old.rounds.items all.new.answers.items all.new.rounds.items) }
    {
        let PlanRun {
            pass,
            sender,
            given,
        } = self;
        let Ok(given) = given else { unreachable!() };
        let StepAnswers { answers, rounds } = given;
        all.passes.push(pass)?;
        all.senders.push(sender)?;
        all.answers.push(answers)?;
        all.rounds.push(rounds)?;
        Ok(())
    }
}

/// What a worker's thread gives back.
#[derive(Drop)]
pub(crate) struct WorkerRun<L: LoaderName> {
    /// The pass of the worker's caller.
    pub(crate) pass: Pass<L>,
    /// Its seat at the queue.
    pub(crate) taker: Taker,
    /// How the work ended.
    pub(crate) end: WorkerEnd,
}

impl<L: LoaderName> WorkerRun<L> {
    /// Adds this to what the other threads gave back.
    pub(crate) fn add_to(self, all: &mut ThreadResults<L>) -> Result<(), AllocError>
        ensures passes { OnOk result (all.new.passes.items ≡ all.old.passes.items ++ self.pass ∷ []) }
        ensures senders { OnOk result (all.new.senders.items ≡ all.old.senders.items) }
        ensures takers { OnOk result (all.new.takers.items ≡ all.old.takers.items ++ self.taker ∷ []) }
        ensures answers { OnOk result (all.new.answers.items ≡ all.old.answers.items) }
        ensures rounds { OnOk result (all.new.rounds.items ≡ all.old.rounds.items) }
    {
        let WorkerRun {
            pass,
            taker,
            end: _,
        } = self;
        all.passes.push(pass)?;
        all.takers.push(taker)?;
        Ok(())
    }
}

/// What all threads gave back, in the order of their callers, and the server's own sender.
#[derive(Drop)]
pub(crate) struct Runs<L: LoaderName> {
    /// Those of the plans.
    pub(crate) plans: Vec<PlanRun<L>>,
    /// Those of the workers.
    pub(crate) workers: Vec<WorkerRun<L>>,
    /// The server's own sender.
    pub(crate) own: Sender,
}

/// Adds what a worker gave back to what the others did.
///
/// # Errors
/// That of the others, or `AllocError` if memory runs out.
pub(crate) fn with_worker<L: LoaderName>(
    rest: Result<Runs<L>, AllocError>,
    run: WorkerRun<L>,
) -> Result<Runs<L>, AllocError>
    ensures workers { IfOk result (λ all. IsOkAnd rest (λ others. all.workers.items ≡ others.workers.items ++ run ∷ [])) }
    ensures plans { IfOk result (λ all. IsOkAnd rest (λ others. all.plans ≡ others.plans)) }
    ensures own { IfOk result (λ all. IsOkAnd rest (λ others. all.own ≡ others.own)) }
{
    let mut all = rest?;
    all.workers.push(run)?;
    Ok(all)
}

/// Adds what a plan's thread gave back to what the others did.
///
/// # Errors
/// That of the others, or `AllocError` if memory runs out.
pub(crate) fn with_plan<L: LoaderName>(
    rest: Result<Vec<PlanRun<L>>, AllocError>,
    run: PlanRun<L>,
) -> Result<Vec<PlanRun<L>>, AllocError>
    ensures { IfOk result (λ all. IsOkAnd rest (λ others. all.items ≡ others.items ++ run ∷ [])) }
{
    let mut all = rest?;
    all.push(run)?;
    Ok(all)
}
