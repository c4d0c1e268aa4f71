//! The workload of plans that load at the same time, over a source that takes time.

use crate::alike::Alike;
use crate::command::Gathered;
use crate::counts::Counts;
use crate::keys::limits;
use crate::scene::Scene;
use anyhow::Result;
use dl_desk::{FetchKey, TableLimits};
use dl_scope::{Plan, Setup, Step, serve};
use dl_source::{BatchAnswer, Checked, Fetch, Source};
use dl_terms::Term;
use dl_workers::NoGate;
use itoa::Buffer;
use std::alloc::{AllocError, Global};
use std::sync::Wait;
use std::thread::{Threads, sleep};
use std::time::{Clock, Duration, Instant};

/// The number of jobs that the queue between plans and workers has room for.
const QUEUE: u32 = 16;

/// The table of which a fetch takes longer, and how many times as long.
const SLOW: &str = "slow";

const SLOWER: u64 = 5;

/// One of this many loads in a row is from that table.
const SLOW_EACH: u32 = 4;

/// A source that takes time, and then answers every key `null`.
#[derive(Drop)]
struct Slow<'a, R: Clock> {
    rt: &'a R,
    alike: Alike,
    /// How many microseconds a fetch takes.
    micros: u64,
}

impl<'a, R: Clock> Fetch for Slow<'a, R> {
    fn fetch(&self, alloc: Global, keys: &[FetchKey]) -> Result<BatchAnswer, AllocError> {
        let is_slow = keys.iter().any(|key| key.table() == SLOW);
        let times = if is_slow { SLOWER } else { 1 };
        sleep(
            self.rt,
            Duration::from_micros(self.micros.saturating_mul(times)),
        );
        self.alike.fetch(alloc, keys)
    }
}

/// Serves plans that make this many loads, one after another, over a source that takes time. It also counts the
/// microseconds.
pub(crate) fn served<R: Clock + Threads + Wait + Sync>(
    scene: &Scene<'_, R>,
    counts: &mut Counts,
    gathered: Gathered,
    loads: u32,
    batch: u32,
) -> Result<()> {
    let (rt, alloc) = (scene.rt, scene.alloc);
    let source = Checked(Slow {
        rt,
        alike: Alike::null(alloc)?,
        micros: u64::from(gathered.micros),
    });
    let setup = Setup {
        limits: limits(batch)?,
        tables: rule_of(alloc, gathered)?,
        workers: gathered.workers,
        policy: gathered.policy,
        queue: QUEUE,
        max_answer: None,
    };
    let plans = plans_of(alloc, gathered, loads)?;
    let begins = Instant::now(rt)?;
    let report = serve(rt, alloc, scene.hashing, &source, setup, plans, &NoGate)?;
    let took = begins.elapsed(rt)?;
    counts.micros = Some(u64::try_from(took.as_micros())?);
    counts.history(report.history());
    Ok(())
}

/// The rule for tables in a batch: where there is a slow table, each batch is of one table.
fn rule_of(alloc: Global, gathered: Gathered) -> Result<Option<TableLimits>> {
    if !gathered.has_slow {
        return Ok(None);
    }
    Ok(Some(TableLimits::new(alloc, Vec::new(alloc))?))
}

/// The plans.
fn plans_of(alloc: Global, gathered: Gathered, loads: u32) -> Result<Vec<Plan>, AllocError> {
    let mut plans = Vec::with_capacity(alloc, gathered.plans as usize)?;
    for number in 0..gathered.plans {
        plans.push(plan_of(alloc, gathered, number, loads)?)?;
    }
    Ok(plans)
}

/// The plan of a number: this many steps, each a load of a key of its own. If there is a slow table, every fourth load
/// is from it, of the next plan one step later.
fn plan_of(alloc: Global, gathered: Gathered, number: u32, loads: u32) -> Result<Plan, AllocError> {
    let first = number.saturating_mul(loads);
    let mut steps = Vec::with_capacity(alloc, loads as usize)?;
    for place in 0..loads {
        let is_slow = gathered.has_slow && place % SLOW_EACH == number % SLOW_EACH;
        let table = if is_slow { SLOW } else { "users" };
        let mut buffer = Buffer::new();
        let id = buffer.format(first.saturating_add(place));
        let key = FetchKey::new(alloc, table, id).or(Err(AllocError))?;
        steps.push(Step::Eval(Term::Load(key)))?;
    }
    Ok(Plan { steps })
}
