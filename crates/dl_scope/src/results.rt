//! Whether each plan took its steps and each worker worked to the end, and the fault if not.

ghost use Rattle.std.specs.Prelude.{◌≡◌, ◌≤◌, ◌⊎◌, All, Err, IfErr, IfOk, MatchBool, MatchOption, OnOk, length, map};
ghost use Rattle.dl_terms.specs.Plans.{most_plans};
ghost use Rattle.dl_scope.specs.Inside.ThreadResults.{AreResults, WasTaken};
ghost use Rattle.dl_scope.specs.Faults.{AnyGaveUp, AnyMet, IsLeastFault, IsStop};
ghost use Rattle.dl_scope.specs.declared.fault.ScopeFault.TheVariants.{OutOfMemory};
ghost use Rattle.dl_scope.specs.Inside.Results.{IsDone, IsFaultOf, MetNoOwn, fault_of};

use crate::fault::ScopeFault;
use crate::threads::runs::{PlanRun, Runs, WorkerRun};
use crate::threads::thread_results::ThreadResults;
use dl_haxl::RunFault;
use dl_loader::{CallFault, LoaderName};
use dl_workers::WorkerEnd;
use std::alloc::Global;

/// Puts together what the threads gave back, if each plan took its steps and each worker worked to the end.
///
/// # Errors
/// Those of [`check`]; else `OutOfMemory`.
pub(crate) fn results_of<L: LoaderName>(
    alloc: Global,
    runs: Runs<L>,
) -> Result<ThreadResults<L>, ScopeFault>
    requires few { length runs.plans.items ≤ most_plans }
    ensures done { OnOk result (All IsDone runs.workers.items) }
    ensures results { IfOk result (AreResults runs) }
    ensures fault { IfErr result (λ fault. (fault ≡ OutOfMemory) ⊎ IsFaultOf (map fault_of runs.plans.items) (map (λ run. run.end) runs.workers.items) fault) }
{
    match check(runs.plans.as_slice(), runs.workers.as_slice()) {
        Ok(()) => {}
        Err(fault) => return Err(fault),
    }
    let all = ThreadResults::of(alloc, runs)?;
    Ok(all)
}

/// Checks that each plan took its steps and each worker worked to the end.
///
/// # Errors
/// `Run` for the first plan that met a fault other than that the loader was stopped. `Stopped` if no plan met such a
/// fault, but one found the loader stopped, or a worker gave up.
fn check<L: LoaderName>(plans: &[PlanRun<L>], workers: &[WorkerRun<L>]) -> Result<(), ScopeFault>
    requires few { length plans.now ≤ most_plans }
    ensures taken { OnOk result (All WasTaken plans.now) }
    ensures done { OnOk result (All IsDone workers.now) }
    ensures fault { IfErr result (IsFaultOf (map fault_of plans.now) (map (λ run. run.end) workers.now)) }
{
    if let Some((plan, fault)) = least_fault(plans) {
        return Err(ScopeFault::Run { plan, fault });
    }
    if any_met(plans) || any_gave_up(workers) {
        return Err(ScopeFault::Stopped);
    }
    Ok(())
}

/// The first plan that met a fault, other than that the loader was stopped, with its fault.
fn least_fault<L: LoaderName>(plans: &[PlanRun<L>]) -> Option<(u32, RunFault)>
    requires few { length plans.now ≤ most_plans }
    ensures { MatchOption result (All MetNoOwn plans.now) (λ named. IsLeastFault (map fault_of plans.now) named.0 named.1) }
{
    for (plan, run) in plans.iter().enumerate() {
        if let Some(fault) = own_fault(run) {
            return Some((plan as u32, fault));
        }
    }
    None
}

/// The fault that a plan met, other than that the loader was stopped.
fn own_fault<L: LoaderName>(run: &PlanRun<L>) -> Option<RunFault>
    ensures { MatchOption result (MetNoOwn run.now) (λ fault. (run.now.given ≡ Err fault) × (IsStop fault → ⊥)) }
{
    match run.given {
        Ok(_) => None,
        Err(RunFault::Stopped | RunFault::Call(CallFault::Stopped)) => None,
        Err(fault) => Some(fault),
    }
}

/// Whether a plan met a fault.
fn any_met<L: LoaderName>(plans: &[PlanRun<L>]) -> bool
    ensures { MatchBool result (AnyMet (map fault_of plans.now)) (All WasTaken plans.now) }
{
    for run in plans {
        match run.given {
            Ok(_) => {}
            Err(_) => return true,
        }
    }
    false
}

/// Whether a worker gave up.
fn any_gave_up<L: LoaderName>(workers: &[WorkerRun<L>]) -> bool
    ensures { MatchBool result (AnyGaveUp (map (λ run. run.end) workers.now)) (All IsDone workers.now) }
{
    for run in workers {
        if let WorkerEnd::GaveUp { .. } = run.end {
            return true;
        }
    }
    false
}
