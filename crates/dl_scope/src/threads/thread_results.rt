//! Puts together what the threads give back.

ghost use Rattle.std.specs.Prelude.{◌≡◌, ◌+◌, ◌++◌, [], All, IfOk, OnOk, map};
ghost use Rattle.dl_workers.specs.Balance.{Balances};
ghost use Rattle.dl_workers.specs.Seats.{AreSeatsOf};
ghost use Rattle.dl_scope.specs.Inside.ThreadResults.{AllGave, AreResults, IsNoResult, WasTaken};

use crate::threads::runs::{PlanRun, Runs, WorkerRun};
use dl_haxl::StepAnswer;
use dl_loader::{LoaderName, Pass};
use dl_workers::{JobQueue, Sender, Taker, Tally};
use std::alloc::{AllocError, Global};
use std::sync::Wait;

/// What the threads gave back: passes in the order of their callers, seats, and what the steps of each plan gave.
#[derive(Drop)]
pub(crate) struct ThreadResults<L: LoaderName> {
    /// The passes, those of the plans first.
    pub(crate) passes: Vec<Pass<L>>,
    /// The senders of the plans, and then the server's own.
    pub(crate) senders: Vec<Sender>,
    /// The takers of the workers.
    pub(crate) takers: Vec<Taker>,
    /// For each plan the answers of its terms.
    pub(crate) answers: Vec<Vec<StepAnswer>>,
    /// For each plan how many rounds of loads they took.
    pub(crate) rounds: Vec<u64>,
}

/// What serving plans leaves before the loader is closed.
#[derive(Drop)]
pub(crate) struct ServedPlans<L: LoaderName> {
    /// The passes, those of the plans first.
    pub(crate) passes: Vec<Pass<L>>,
    /// For each plan the answers of its terms.
    pub(crate) answers: Vec<Vec<StepAnswer>>,
    /// For each plan how many rounds of loads they took.
    pub(crate) rounds: Vec<u64>,
    /// How many jobs the queue carried.
    pub(crate) tally: Tally,
}

impl<L: LoaderName> ThreadResults<L> {
    /// Puts together what all threads gave back, if each plan took its steps. Fails if memory runs out.
    pub(crate) fn of(alloc: Global, runs: Runs<L>) -> Result<ThreadResults<L>, AllocError>
        requires taken { All WasTaken runs.plans.items }
        ensures { IfOk result (AreResults runs) }
    {
        let mut all = ThreadResults {
            passes: Vec::new(alloc),
            senders: Vec::new(alloc),
            takers: Vec::new(alloc),
            answers: Vec::new(alloc),
            rounds: Vec::new(alloc),
        };
        all.add(runs)?;
        Ok(all)
    }

    /// Ends the queue, and gives all seats back to it.
    pub(crate) fn finish(self, rt: &impl Wait, queue: JobQueue) -> ServedPlans<L>
        requires { AreSeatsOf queue self.senders.items self.takers.items }
        ensures passes { result.passes ≡ self.passes }
        ensures answers { result.answers ≡ self.answers }
        ensures rounds { result.rounds ≡ self.rounds }
        ensures balance { Balances self.senders.items self.takers.items result.tally }
        ensures sum { result.tally.sent ≡ result.tally.taken + result.tally.left }
    {
        let ThreadResults {
            passes,
            senders,
            takers,
            answers,
            rounds,
        } = self;
        let tally = queue.finish(rt, senders, takers);
        ServedPlans {
            passes,
            answers,
            rounds,
            tally,
        }
    }

    /// Fills an empty result with what all threads gave back.
    fn add(&mut self, runs: Runs<L>) -> Result<(), AllocError>
        requires taken { All WasTaken runs.plans.items }
        requires none { IsNoResult self.old }
        ensures { OnOk result (AreResults runs self.new) }
    {
        let Runs {
            plans,
            workers,
            own,
        } = runs;
        self.add_plans(plans)?;
        self.senders.push(own)?;
        self.add_workers(workers)
    }

    /// Adds what the threads of plans gave back.
    fn add_plans(&mut self, plans: Vec<PlanRun<L>>) -> Result<(), AllocError>
        requires taken { All WasTaken plans.items }
        requires no_answers { self.old.answers.items ≡ [] }
        requires no_rounds { self.old.rounds.items ≡ [] }
        ensures passes { OnOk result (self.new.passes.items ≡ self.old.passes.items ++ map (λ run. run.pass) plans.items) }
        ensures senders { OnOk result (self.new.senders.items ≡ self.old.senders.items ++ map (λ run. run.sender) plans.items) }
        ensures takers { OnOk result (self.new.takers.items ≡ self.old.takers.items) }
        ensures gave { OnOk result (AllGave plans.items (map (λ a. a.items) self.new.answers.items) self.new.rounds.items) }
    {
        for run in plans {
            run.add_to(self)?;
        }
        Ok(())
    }

    /// Adds what the threads of workers gave back.
    fn add_workers(&mut self, workers: Vec<WorkerRun<L>>) -> Result<(), AllocError>
        ensures passes { OnOk result (self.new.passes.items ≡ self.old.passes.items ++ map (λ run. run.pass) workers.items) }
        ensures senders { OnOk result (self.new.senders.items ≡ self.old.senders.items) }
        ensures takers { OnOk result (self.new.takers.items ≡ self.old.takers.items ++ map (λ run. run.taker) workers.items) }
        ensures answers { OnOk result (self.new.answers.items ≡ self.old.answers.items) }
        ensures rounds { OnOk result (self.new.rounds.items ≡ self.old.rounds.items) }
    {
        for run in workers {
            run.add_to(self)?;
        }
        Ok(())
    }
}
