//! Serves plans.

ghost use Rattle.std.specs.Prelude.{◌≡◌, ◌+◌, [], ℕ, List, IfErr, IfOk, OnOk, Some, length, map};
ghost use Rattle.dl_desk.specs.Service.{Answers, Service};
ghost use Rattle.dl_loader.specs.CloseRefusals.{IsLeastOf};
ghost use Rattle.dl_loader.specs.Opening.{AreCallers, Names};
ghost use Rattle.dl_values.specs.Limits.{rules_by};
ghost use Rattle.dl_loader.specs.Pass.{new_traces};
ghost use Rattle.dl_workers.specs.GiveUps.{given_up};
ghost use Rattle.dl_terms.specs.Plans.{ArePlans};
ghost use Rattle.dl_scope.specs.Faults.{AreWorkers, MayServe, RefusedAs};
ghost use Rattle.dl_scope.specs.Setup.{service_of};
ghost use Rattle.dl_scope.specs.Headline.{Headline};
ghost use Rattle.dl_scope.specs.Report.{report};
ghost use Rattle.dl_scope.specs.declared.fault.ScopeFault.TheVariants.{Unfetched};
ghost use Rattle.dl_scope.specs.declared.setup.Setup.{Setup};
ghost use Rattle.dl_terms.specs.declared.plan.Plan.{Plan};
ghost use Rattle.dl_scope.specs.Inside.ServedPlans.{AreServed, IsCounted};

use crate::fault::ScopeFault;
use crate::report::Report;
use crate::results::results_of;
use crate::setup::Setup;
use crate::threads::plans::enter_plans;
use crate::threads::run_all;
use crate::threads::server::{Resources, Server};
use crate::threads::task_lists::{Tasks, deal};
use crate::threads::thread_results::ServedPlans;
use dl_haxl::StepAnswer;
use dl_loader::{History, Loader, LoaderName, Opening, Pass, StartFault};
use dl_source::Source;
use dl_terms::{MOST_PLANS, Plan};
use dl_workers::{Gate, JobQueue, Tally, least_given_up};
use std::alloc::Global;
use std::hash::RandomState;
use std::marker::Brand;
use std::sync::Wait;
use std::thread::Threads;

/// The most fetch workers that you can have.
pub const MOST_WORKERS: u32 = 16;

/// Serves plans at once, over one source and by one shared loader: a thread for each plan, and as many fetch workers as
/// the setup says. You hand in a finished list of plans, at most [`MOST_PLANS`], and get the report once all threads
/// have ended. Plan n is caller n of the loader, and the workers are the callers after the plans. The gate hears of
/// each step of a worker. `hashing` hashes keys, and nothing that you see depends on it. Plans that load keys at the
/// same time share batches: nobody's keys are sent while a plan runs.
///
/// A plan that meets a fault stops the loader, and so does a worker that can't end a batch. Then the others end too.
///
/// # Errors
/// The first cause of [`ScopeFault`] that applies, in its order.
///
/// # Examples
/// Two requests over a table of users, from `crates/example_two_requests`:
///
/// ```rust
/// let setup = Setup {
///     limits: Limits::new(64, 1_024, 4_096)?,
///     tables: None,
///     workers: 2,
///     policy: Policy::Eager,
///     queue: 16,
///     max_answer: None,
/// };
/// let rows = r#"[{"name": "user", "rows": [["u1", "Ada"], ["u2", "Bob"]]}]"#;
/// let users = Tables::from_owned_value(alloc, hashing, Value::from_str(alloc, rows)?)?;
/// let plans = vec![in alloc; load_user(alloc, "u1")?, load_user(alloc, "u2")?]?;
/// let report = serve(&rt, alloc, hashing, &users, setup, plans, &NoGate)?;
/// ```
pub fn serve<S: Source + Sync, G: Gate + Sync, R: Threads + Wait + Sync>(
    rt: &R,
    alloc: Global,
    hashing: RandomState,
    source: &S,
    setup: Setup,
    plans: Vec<Plan>,
    gate: &G,
) -> Result<Report, ScopeFault>
    ensures headline { IfOk result (Headline (service_of setup (length plans.items) (S.answer source.now)) plans.items) }
    ensures accepted { OnOk result (MayServe setup (length plans.items)) }
    ensures refused { IfErr result (RefusedAs (service_of setup (length plans.items) (S.answer source.now)) setup plans.items) }
{
    let callers = callers_of(plans.len(), setup.workers)?;
    let opening = opening(alloc, hashing, source, &setup, callers)?;
    let resources = Resources {
        alloc,
        hashing,
        source,
        gate,
        max_answer: setup.max_answer,
    };
    serve_at::<Brand, S, G, R>(rt, &resources, &setup, opening, plans)
}

/// How many callers the plans and the workers are together.
///
/// # Errors
/// `NoPlans`, `TooManyPlans` or `BadWorkers`, the first that applies.
fn callers_of(plans: usize, workers: u32) -> Result<u32, ScopeFault>
    ensures plans { OnOk result (ArePlans plans) }
    ensures workers { OnOk result (AreWorkers workers) }
    ensures callers { IfOk result (λ callers. callers ≡ plans + workers) }
    ensures refused { IfErr result (λ fault. (service : Service) (setup : Setup) (served : List Plan)
        → length served ≡ plans → setup.workers ≡ workers → RefusedAs service setup served fault) }
{
    if plans == 0 {
        return Err(ScopeFault::NoPlans);
    }
    if plans > MOST_PLANS {
        return Err(ScopeFault::TooManyPlans);
    }
    if workers == 0 || workers > MOST_WORKERS {
        return Err(ScopeFault::BadWorkers);
    }
    Ok(plans as u32 + workers)
}

/// What opens a loader over the source, by the limits and the policy of the setup.
fn opening<'s, S: Source>(
    alloc: Global,
    hashing: RandomState,
    source: &'s S,
    setup: &Setup,
    callers: u32,
) -> Result<Opening<'s, S>, StartFault>
    ensures source { IfOk result (λ o. o.source ≡ source.now) }
    ensures rules { IfOk result (λ o. o.rules ≡ rules_by setup.now.limits setup.now.tables) }
    ensures callers { IfOk result (λ o. o.callers ≡ callers) }
    ensures refused { IfErr result (λ fault. AreCallers callers → fault ≡ StartFault.OutOfMemory) }
{
    let opening = opening_within(alloc, hashing, source, setup, callers)?;
    Ok(opening.sending_by(setup.policy))
}

/// What opens a loader over the source, by the limits of the setup.
fn opening_within<'s, S: Source>(
    alloc: Global,
    hashing: RandomState,
    source: &'s S,
    setup: &Setup,
    callers: u32,
) -> Result<Opening<'s, S>, StartFault>
    ensures source { IfOk result (λ o. o.source ≡ source.now) }
    ensures rules { IfOk result (λ o. o.rules ≡ rules_by setup.now.limits setup.now.tables) }
    ensures callers { IfOk result (λ o. o.callers ≡ callers) }
    ensures refused { IfErr result (λ fault. AreCallers callers → fault ≡ StartFault.OutOfMemory) }
{
    match &setup.tables {
        None => Opening::new(alloc, hashing, source, setup.limits, callers),
        Some(tables) => {
            let tables = tables.try_copy()?;
            Opening::by_table(alloc, hashing, source, setup.limits, tables, callers)
        }
    }
}

/// Serves plans by the loader of an opening. `L` names this loader.
fn serve_at<
    L: LoaderName + Send + Sync,
    S: Source + Sync,
    G: Gate + Sync,
    R: Threads + Wait + Sync,
>(
    rt: &R,
    resources: &Resources<'_, S, G>,
    setup: &Setup,
    opening: Opening<'_, S>,
    plans: Vec<Plan>,
) -> Result<Report, ScopeFault>
    requires source { opening.source ≡ resources.now.source.now }
    requires names { Names S.answer opening L.service L.parts L.cells L.name }
    requires plans { ArePlans (length plans.items) }
    requires workers { AreWorkers setup.now.workers }
    requires callers { opening.callers ≡ length plans.items + setup.now.workers }
    ensures headline { IfOk result (Headline L.service plans.items) }
    ensures accepted { OnOk result (MayServe setup.now (length plans.items)) }
    ensures refused { IfErr result (RefusedAs L.service setup.now plans.items) }
{
    let (loader, passes) = Loader::<L>::start(resources.alloc, opening)?;
    let served = serve_by(rt, resources, setup, &loader, passes, plans)?;
    let ServedPlans {
        passes,
        answers,
        rounds,
        tally,
    } = served;
    match loader.close(resources.alloc, passes) {
        Ok(history) => report(answers, rounds, history, tally),
        Err((fault, _, _)) => Err(ScopeFault::Close(fault)),
    }
}

/// The report, if the source answered each batch. Else the least batch that it didn't answer.
fn report(
    answers: Vec<Vec<StepAnswer>>,
    rounds: Vec<u64>,
    history: History,
    tally: Tally,
) -> Result<Report, ScopeFault>
    ensures report { IfOk result (λ made. made ≡ report (map (λ a. a.items) answers.items) rounds.items history tally) }
    ensures fetched { OnOk result (given_up history.events ≡ []) }
    ensures fault { IfErr result (λ fault. (batch : ℕ) × (fault ≡ Unfetched batch) × IsLeastOf (Some batch) (given_up history.events)) }
{
    if let Some(batch) = least_given_up(&history) {
        return Err(ScopeFault::Unfetched { batch });
    }
    Ok(Report::of(answers, rounds, history, tally))
}

/// Serves plans by a loader whose passes are all new.
fn serve_by<
    L: LoaderName + Send + Sync,
    S: Source + Sync,
    G: Gate + Sync,
    R: Threads + Wait + Sync,
>(
    rt: &R,
    resources: &Resources<'_, S, G>,
    setup: &Setup,
    loader: &Loader<L>,
    passes: Vec<Pass<L>>,
    plans: Vec<Plan>,
) -> Result<ServedPlans<L>, ScopeFault>
    requires source { Answers (S.answer resources.now.source.now) L.service }
    requires plans { ArePlans (length plans.items) }
    requires workers { AreWorkers setup.now.workers }
    requires callers { L.service.callers ≡ length plans.items + setup.now.workers }
    requires passes { map (λ p. p.trace) passes.items ≡ new_traces 0 L.service.callers }
    ensures served { IfOk result (λ s. AreServed 0 plans.items (map (λ a. a.items) s.answers.items) s.rounds.items (map (λ p. p.trace) s.passes.items)) }
    ensures counted { IfOk result (λ s. IsCounted (length plans.items) (map (λ p. p.trace) s.passes.items) s.tally) }
    ensures accepted { OnOk result (MayServe setup.now (length plans.items)) }
    ensures refused { IfErr result (RefusedAs L.service setup.now plans.items) }
{
    let senders = plans.len() as u32 + 1;
    let alloc = resources.alloc;
    let (queue, senders, takers) = match JobQueue::new(alloc, setup.queue, senders, setup.workers) {
        Ok(made) => made,
        Err(fault) => return Err(ScopeFault::Queue(fault)),
    };
    let server = Server {
        resources,
        loader,
        queue: &queue,
    };
    let Tasks {
        plans,
        workers,
        own,
    } = deal(&server, passes, senders, takers, plans)?;
    enter_plans(rt, loader, &plans);
    let runs = run_all(rt, &server, workers, plans, own)?;
    let results = match results_of(alloc, runs) {
        Ok(results) => results,
        Err(fault) => return Err(fault),
    };
    Ok(results.finish(rt, queue))
}
