//! The workloads on a desk.

use crate::command::{Calls, Ids};
use crate::counts::Counts;
use crate::keys::{fronted_key, key_of, keys_of, limits};
use anyhow::Result;
use dl_desk::{Desk, DeskFault, FetchKey, Limits};
use std::alloc::Global;
use std::hash::RandomState;
use std::ops::Range;

/// The most keys that you can load, clear and load again on one desk, since each begins two cells.
const LOADED_TWICE: u32 = 32_768;

/// Loads keys one by one on a new desk, then dispatches.
pub(crate) fn one_by_one(
    alloc: Global,
    hashing: RandomState,
    counts: &mut Counts,
    ids: Ids,
    keys: u32,
    batch: u32,
) -> Result<()> {
    let mut desk = Desk::new(alloc, hashing, limits(batch)?);
    Ok(load_and_send(alloc, &mut desk, counts, ids, keys)?)
}

/// Loads keys one by one, then dispatches.
fn load_and_send(
    alloc: Global,
    desk: &mut Desk,
    counts: &mut Counts,
    ids: Ids,
    keys: u32,
) -> Result<(), DeskFault> {
    match ids.front() {
        None => loads(alloc, desk, counts, keys),
        Some(front) => fronted(alloc, desk, counts, keys, front),
    }?;
    counts.jobs(&desk.dispatch(alloc)?);
    Ok(())
}

/// Loads the keys of the first numbers.
fn loads(alloc: Global, desk: &mut Desk, counts: &mut Counts, keys: u32) -> Result<(), DeskFault> {
    for number in 0..keys {
        let key = key_of(alloc, number)?;
        counts.load(desk.load(alloc, &key)?);
    }
    Ok(())
}

/// Loads keys. Each id is the front and then the key's number in eight digits.
fn fronted(
    alloc: Global,
    desk: &mut Desk,
    counts: &mut Counts,
    keys: u32,
    front: &str,
) -> Result<(), DeskFault> {
    let mut id = String::new(alloc);
    for number in 0..keys {
        let key = fronted_key(alloc, &mut id, front, number)?;
        counts.load(desk.load(alloc, &key)?);
    }
    Ok(())
}

/// Makes the keys, and then calls of a new desk.
pub(crate) fn listed(
    alloc: Global,
    hashing: RandomState,
    counts: &mut Counts,
    calls: Calls,
    keys: u32,
    batch: u32,
) -> Result<()> {
    let limits = limits(batch)?;
    let keys = keys_of(alloc, keys)?;
    let mut desk = Desk::new(alloc, hashing, limits);
    Ok(make_calls(alloc, &mut desk, counts, calls, &keys, limits)?)
}

fn make_calls(
    alloc: Global,
    desk: &mut Desk,
    counts: &mut Counts,
    calls: Calls,
    keys: &[FetchKey],
    limits: Limits,
) -> Result<(), DeskFault> {
    match calls {
        Calls::Many => load_many(alloc, desk, counts, keys),
        Calls::Hits => hits(alloc, desk, counts, keys),
        Calls::Rounds => rounds(alloc, desk, counts, keys, limits),
    }
}

/// Loads the keys in one call.
fn load_many(
    alloc: Global,
    desk: &mut Desk,
    counts: &mut Counts,
    keys: &[FetchKey],
) -> Result<(), DeskFault> {
    let replies = desk.load_many(alloc, keys)?;
    counts.loads(&replies);
    Ok(())
}

/// Loads the keys one by one, and then again.
fn hits(
    alloc: Global,
    desk: &mut Desk,
    counts: &mut Counts,
    keys: &[FetchKey],
) -> Result<(), DeskFault> {
    for key in keys.iter().chain(keys) {
        counts.load(desk.load(alloc, key)?);
    }
    Ok(())
}

/// For each batch of keys: loads them in one call, dispatches, and settles the jobs.
fn rounds(
    alloc: Global,
    desk: &mut Desk,
    counts: &mut Counts,
    keys: &[FetchKey],
    limits: Limits,
) -> Result<(), DeskFault> {
    for part in keys.chunks(limits.max_batch() as usize) {
        load_many(alloc, desk, counts, part)?;
        settle(alloc, desk, counts)?;
    }
    Ok(())
}

/// Dispatches, and settles each job.
fn settle(alloc: Global, desk: &mut Desk, counts: &mut Counts) -> Result<(), DeskFault> {
    let jobs = desk.dispatch(alloc)?;
    counts.jobs(&jobs);
    for job in &jobs {
        desk.settle(job.batch)?;
        counts.settle();
    }
    Ok(())
}

/// Loads, clears and loads again each key in turn. Begins a new desk when the old one is full.
pub(crate) fn clears(
    alloc: Global,
    hashing: RandomState,
    counts: &mut Counts,
    keys: u32,
    batch: u32,
) -> Result<()> {
    let limits = limits(batch)?;
    let first = keys.min(LOADED_TWICE);
    for numbers in [0..first, first..keys] {
        let mut desk = Desk::new(alloc, hashing, limits);
        reloads(alloc, &mut desk, counts, numbers)?;
    }
    Ok(())
}

/// Loads, clears and loads again the key of each number in a range.
fn reloads(
    alloc: Global,
    desk: &mut Desk,
    counts: &mut Counts,
    numbers: Range<u32>,
) -> Result<(), DeskFault> {
    for number in numbers {
        let key = key_of(alloc, number)?;
        counts.load(desk.load(alloc, &key)?);
        desk.clear(&key);
        counts.load(desk.load(alloc, &key)?);
    }
    Ok(())
}
