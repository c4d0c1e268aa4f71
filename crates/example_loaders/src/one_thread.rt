//! The loader of one thread: you load a key twice and fetch it once.

use anyhow::Result;
use dl_desk::{Desk, FetchKey, Limits};
use std::alloc::Global;
use std::hash::RandomState;

/// Loads, dispatches and settles, and prints each reply.
pub(crate) fn run(rt: &impl Print, alloc: Global, hashing: RandomState) -> Result<()> {
    let mut desk = Desk::new(alloc, hashing, Limits::new(64, 1_024, 4_096)?);
    let user = FetchKey::new(alloc, "user", "u1")?;
    println!(rt; "{}", desk.load(alloc, &user)?)?;
    println!(rt; "{}", desk.load(alloc, &user)?)?;
    for job in &desk.dispatch(alloc)? {
        println!(rt; "{job}")?;
        desk.settle(job.batch)?;
    }
    Ok(())
}
