//! The workload of plans that `serve` serves at once.

use crate::alike::Alike;
use crate::counts::Counts;
use crate::keys::limits;
use crate::scene::Scene;
use crate::terms::{Terms, term_of};
use anyhow::Result;
use dl_scope::{Plan, Policy, Setup, Step, serve};
use dl_workers::NoGate;
use std::alloc::{AllocError, Global};
use std::sync::Wait;
use std::thread::Threads;

/// The number of jobs that the queue between plans and workers has room for.
const QUEUE: u32 = 16;

/// Serves a plan for each term with this many workers, over a source that answers each key with one row.
pub(crate) fn served<R: Threads + Wait + Sync>(
    scene: &Scene<'_, R>,
    counts: &mut Counts,
    terms: Terms,
    workers: u32,
    batch: u32,
) -> Result<()> {
    let alloc = scene.alloc;
    let limits = limits(batch)?;
    let source = Alike::row(alloc)?;
    let plans = plans_of(alloc, terms)?;
    let setup = Setup {
        limits,
        tables: None,
        workers,
        policy: Policy::Eager,
        queue: QUEUE,
        max_answer: None,
    };
    let report = serve(
        scene.rt,
        alloc,
        scene.hashing,
        &source,
        setup,
        plans,
        &NoGate,
    )?;
    counts.history(report.history());
    Ok(())
}

/// A plan for each term. Fails if memory runs out.
fn plans_of(alloc: Global, terms: Terms) -> Result<Vec<Plan>, AllocError> {
    let mut plans = Vec::with_capacity(alloc, terms.count as usize)?;
    for number in 0..terms.count {
        plans.push(plan_of(alloc, terms, number)?)?;
    }
    Ok(plans)
}

/// The plan whose one step is the term of a number.
fn plan_of(alloc: Global, terms: Terms, number: u32) -> Result<Plan, AllocError> {
    let term = term_of(alloc, terms, number)?;
    let steps = vec![in alloc; Step::Eval(term)]?;
    Ok(Plan { steps })
}
