//! The workloads of keys whose tables take turns.

use crate::command::{Rule, TableTurns};
use crate::counts::Counts;
use crate::keys::limits;
use anyhow::{Result, bail};
use dl_desk::{Desk, DeskFault, FetchKey, TableLimit, TableLimits, Text};
use itoa::Buffer;
use std::alloc::{AllocError, Global};
use std::hash::RandomState;

/// Loads keys one by one on a new desk, of tables in turn, then dispatches.
pub(crate) fn one_by_one(
    alloc: Global,
    hashing: RandomState,
    counts: &mut Counts,
    turns: TableTurns,
    keys: u32,
    batch: u32,
) -> Result<()> {
    let limits = limits(batch)?;
    let names = names_of(alloc, turns.count)?;
    let mut desk = match turns.rule {
        Rule::Mixed => Desk::new(alloc, hashing, limits),
        Rule::ByTable => {
            let own = limits_of(alloc, &names, batch)?;
            Desk::by_table(alloc, hashing, limits, own)
        }
    };
    loads(alloc, &mut desk, counts, &names, keys)
}

/// Loads the keys of the first numbers, whose tables take turns, then dispatches.
fn loads(
    alloc: Global,
    desk: &mut Desk,
    counts: &mut Counts,
    names: &[Text],
    keys: u32,
) -> Result<()> {
    let mut id = Buffer::new();
    for number in 0..keys {
        let turn = (number as usize).checked_rem(names.len());
        let Some(name) = turn.and_then(|turn| names.get(turn)) else {
            bail!("a key without a table");
        };
        load(alloc, desk, counts, name, id.format(number))?;
    }
    counts.jobs(&desk.dispatch(alloc)?);
    // The newest cell is in any of the open batches. Each has been sent by now.
    counts.batches = counts.jobs;
    Ok(())
}

/// Loads the key of an id in a table.
fn load(
    alloc: Global,
    desk: &mut Desk,
    counts: &mut Counts,
    table: &Text,
    id: &str,
) -> Result<(), DeskFault> {
    let key = FetchKey::new(alloc, table.as_str(), id).or(Err(AllocError))?;
    counts.load(desk.load(alloc, &key)?);
    Ok(())
}

/// The names of the tables: each is a number in decimal. Fails if memory runs out.
fn names_of(alloc: Global, tables: u32) -> Result<Vec<Text>, AllocError> {
    let mut names = Vec::with_capacity(alloc, tables as usize)?;
    let mut name = Buffer::new();
    for number in 0..tables {
        names.push(Text::new(alloc, name.format(number))?)?;
    }
    Ok(names)
}

/// The same limit of a batch for each of the tables.
fn limits_of(alloc: Global, names: &[Text], batch: u32) -> Result<TableLimits> {
    let mut limits = Vec::with_capacity(alloc, names.len())?;
    for name in names {
        let table = name.try_copy()?;
        limits.push(TableLimit {
            table,
            limit: batch,
        })?;
    }
    Ok(TableLimits::new(alloc, limits)?)
}
