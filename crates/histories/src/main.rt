//! Writes histories of shared loaders, for a script to compare with a loader of one thread.
//!
//! You give it a plan file on standard input. It serves the file's plans, or lets callers of its own make calls over
//! the file's tables, while the source and the gate yield as a seed draws it. Then it prints the report and the
//! history: a line of JSON for each answer, event and caller. At the end it prints how many times the loader asked the
//! source. By the word `gather` it makes calls of gatherings instead, a case on each line of standard input.
#![tactic(auto)]

mod callers;
mod event_text;
mod gathered;
mod restless;
mod served;
mod sheet;

use crate::restless::Restless;
use anyhow::{Result, bail};
use dl_documents::{Input, PlanFile, read_input};
use std::env;
use std::fmt::Write;
use std::hash::RandomState;
use std::io::Read;
use std::sync::Wait;
use std::thread::Threads;

/// What you ask for.
#[derive(Clone, Copy)]
struct Command {
    /// The seed that draws the yields and the calls of callers.
    seed: u64,
    /// The number of workers that serve the plans, or of callers.
    threads: u32,
    /// The number of jobs that the queue has room for. With 0 it serves no plans.
    queue: u32,
}

fn main(rt: HostRuntime) -> Result<()> {
    let words = env::args(&rt)?.collect::<Vec<_>>(rt.alloc())?;
    let text = match words.as_slice() {
        [_, word] if word.as_str() == "gather" => {
            let mut cases = String::new(rt.alloc());
            rt.reader().read_to_string(&mut cases)?;
            gathered::gathered(rt.alloc(), &cases)?
        }
        words => {
            let command = asked(words)?;
            let mut bytes = Vec::new(rt.alloc());
            rt.reader().read_to_end(&mut bytes)?;
            let hashing = RandomState::new(&rt)?;
            let Ok(Input::Plans(file)) = read_input(rt.alloc(), hashing, &bytes) else {
                bail!("no plan file");
            };
            answered(&rt, hashing, file, command)?
        }
    };
    print!(rt; "{text}")?;
    Ok(())
}

/// The text of what happened with a file, and the number of times that the loader asked its tables.
fn answered<R: AllocGlobal + Threads + Wait + Sync>(
    rt: &R,
    hashing: RandomState,
    file: PlanFile,
    command: Command,
) -> Result<String> {
    let PlanFile {
        limits,
        table_limits,
        tables,
        plans,
    } = file;
    let source = Restless::new(tables, command.seed);
    let mut text = if command.queue == 0 {
        drop(plans);
        callers::called(rt, hashing, &source, limits, table_limits, command.threads)?
    } else {
        let setup = dl_scope::Setup {
            limits,
            tables: table_limits,
            workers: command.threads,
            policy: dl_scope::Policy::Eager,
            queue: command.queue,
            max_answer: None,
        };
        served::served(rt, rt.alloc(), hashing, &source, setup, plans)?
    };
    writeln!(text, "{{\"fetches\":{}}}", source.fetches())?;
    Ok(text)
}

/// The command that the program's words spell: a seed, a number of threads, and the capacity of a queue.
fn asked(words: &[String]) -> Result<Command> {
    let [_, seed, threads, queue] = words else {
        bail!("SEED THREADS QUEUE, or gather");
    };
    Ok(Command {
        seed: seed.as_str().parse()?,
        threads: threads.as_str().parse()?,
        queue: queue.as_str().parse()?,
    })
}
