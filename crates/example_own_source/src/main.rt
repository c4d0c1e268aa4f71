//! Two sources of your own, and two requests over each.
#![tactic(auto)]

mod domains;
mod users;

use crate::domains::Domains;
use crate::users::Users;
use dl_desk::Limits;
use dl_scope::{Plan, Policy, Report, Setup, serve};
use dl_source::{Checked, Source};
use dl_terms::{Answer, EvalFault};
use dl_workers::NoGate;
use std::alloc::Global;
use std::fs;
use std::hash::RandomState;
use std::sync::Wait;
use std::thread::Threads;

const PATH: &str = "users.db";

fn main(rt: HostRuntime) -> anyhow::Result<()> {
    let (alloc, hashing) = (rt.alloc(), RandomState::new(&rt)?);

    users::fill(&rt, PATH)?;
    let users = Checked(Users::at(&rt, PATH));
    serve_over(&rt, alloc, hashing, &users, 1, users::requests(alloc)?)?;
    fs::remove_file(&rt, PATH)?;

    serve_over(&rt, alloc, hashing, &Domains, 2, domains::requests(alloc)?)?;
    Ok(())
}

/// Serves the plans over the source, by this many workers, and prints each answer.
fn serve_over<S: Source + Sync, R: Threads + Wait + Sync + Print>(
    rt: &R,
    alloc: Global,
    hashing: RandomState,
    source: &S,
    workers: u32,
    plans: Vec<Plan>,
) -> anyhow::Result<()> {
    let setup = Setup {
        limits: Limits::new(64, 1_024, 4_096)?,
        tables: None,
        workers,
        policy: Policy::Eager,
        queue: 16,
        max_answer: None,
    };
    let report = serve(rt, alloc, hashing, source, setup, plans, &NoGate)?;
    print_answers(rt, &report)
}

/// Prints each answer: the number of its request, and the value or what is at fault.
fn print_answers(rt: &impl Print, report: &Report) -> anyhow::Result<()> {
    for (request, answers) in report.answers().iter().enumerate() {
        for given in answers {
            match &given.answer {
                Answer::Value(value) => println!(rt; "{request} {value}")?,
                Answer::Fault(EvalFault::Key { key, text }) => {
                    println!(rt; "{request} {} {}: {}", key.table(), key.id(), text.as_str())?;
                }
                Answer::Fault(fault) => println!(rt; "{request} {fault:?}")?,
            }
        }
    }
    Ok(())
}
