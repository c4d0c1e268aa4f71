//! A stopwatch without a clock: it runs one workload on a desk or a shared loader, for you to measure from outside, and
//! prints counts of what it did. The same words always print the same counts. Only over a source that takes time does it
//! look at a clock, and prints the microseconds too. The proof is that it is safe; no contract
//! says what it counts.
#![tactic(auto)]

mod alike;
mod command;
mod counts;
mod desk;
mod gather;
mod ids;
mod keys;
mod plans;
mod scene;
mod shared;
mod table_loads;
mod tables;
mod terms;

use crate::command::{Command, Evaluated, Workload};
use crate::counts::Counts;
use crate::scene::Scene;
use crate::terms::Terms;
use anyhow::Result;
use std::alloc::Global;
use std::env;
use std::hash::RandomState;
use std::io::Print;
use std::random::RandomSource;
use std::sync::Wait;
use std::thread::Threads;
use std::time::Clock;

/// Runs a workload, and counts what it did.
fn run<R: Clock + RandomSource + Threads + Wait + Sync>(
    rt: &R,
    alloc: Global,
    command: Command,
    counts: &mut Counts,
) -> Result<()> {
    let hashing = RandomState::new(rt)?;
    let Command {
        workload,
        keys,
        most,
    } = command;
    match workload {
        Workload::OneByOne(ids) => desk::one_by_one(alloc, hashing, counts, ids, keys, most),
        Workload::OfTables(turns) => {
            table_loads::one_by_one(alloc, hashing, counts, turns, keys, most)
        }
        Workload::Listed(calls) => desk::listed(alloc, hashing, counts, calls, keys, most),
        Workload::Clears => desk::clears(alloc, hashing, counts, keys, most),
        Workload::Tables(ids) => tables::tables(alloc, hashing, counts, ids, keys, most),
        Workload::Shared(callers) => {
            let scene = Scene { rt, alloc, hashing };
            shared::on_loader(&scene, counts, callers, keys, most)
        }
        Workload::Terms(evaluated) => {
            let scene = Scene { rt, alloc, hashing };
            evaluate(&scene, counts, evaluated, keys, most)
        }
        Workload::Gathered(gathered) => {
            let scene = Scene { rt, alloc, hashing };
            gather::served(&scene, counts, gathered, keys, most)
        }
    }
}

/// The number of parts of a term, if there are several terms.
const PARTS: u32 = 16;

/// The number of rounds of loads of a term, if there is only one.
const ROUNDS: u32 = 16;

/// Evaluates terms: one with this many parts, or several with this many rounds each.
fn evaluate<R: Threads + Wait + Sync>(
    scene: &Scene<'_, R>,
    counts: &mut Counts,
    evaluated: Evaluated,
    keys: u32,
    batch: u32,
) -> Result<()> {
    let (parts, rounds) = (PARTS, keys);
    match evaluated {
        Evaluated::One => {
            let terms = Terms {
                count: 1,
                parts: keys,
                rounds: ROUNDS,
            };
            terms::evaluated(scene, counts, terms, batch)
        }
        Evaluated::InTurn { count } => {
            let terms = Terms {
                count,
                parts,
                rounds,
            };
            terms::evaluated(scene, counts, terms, batch)
        }
        Evaluated::Served { count, workers } => {
            let terms = Terms {
                count,
                parts,
                rounds,
            };
            plans::served(scene, counts, terms, workers, batch)
        }
    }
}

/// Prints the counts, each on a line of its own.
fn print(rt: &impl Print, counts: &Counts) -> Result<()> {
    for (name, count) in [
        ("cells", counts.cells),
        ("hits", counts.hits),
        ("batches", counts.batches),
        ("jobs", counts.jobs),
        ("settled", counts.settled),
        ("outcomes", counts.outcomes),
    ] {
        println!(rt; "{name} {count}")?;
    }
    if let Some(micros) = counts.micros {
        println!(rt; "micros {micros}")?;
    }
    Ok(())
}

/// The command that the program's words spell.
fn asked(rt: &HostRuntime) -> Result<Command> {
    let words = env::args(rt)?.collect::<Vec<_>>(rt.alloc())?;
    Ok(Command::from_words(&words)?)
}

fn main(rt: HostRuntime) -> Result<()> {
    let command = asked(&rt)?;
    let mut counts = Counts::default();
    run(&rt, rt.alloc(), command, &mut counts)?;
    print(&rt, &counts)
}
