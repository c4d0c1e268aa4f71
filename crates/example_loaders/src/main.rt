//! Loaders that you open yourself: for one thread, for one caller, and for callers with a fetch worker.
#![tactic(auto)]

mod one_caller;
mod one_thread;
mod worker;

use std::hash::RandomState;

fn main(rt: HostRuntime) -> anyhow::Result<()> {
    let (alloc, hashing) = (rt.alloc(), RandomState::new(&rt)?);
    one_thread::run(&rt, alloc, hashing)?;
    one_caller::run(&rt, alloc, hashing)?;
    worker::run(&rt, alloc, hashing)?;
    Ok(())
}
