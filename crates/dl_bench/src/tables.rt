//! The workload on tables.

use crate::command::Ids;
use crate::counts::Counts;
use crate::ids::{push_id, table_of};
use crate::keys::{fronted_keys, keys_of, limits};
use anyhow::Result;
use dl_desk::{FetchKey, Limits};
use dl_source::{Source, Tables};
use serde_json::Value;
use std::alloc::{AllocError, Global};
use std::hash::RandomState;

/// Reads tables with a row for each key, fetches the keys, a batch at a time, and counts their outcomes.
pub(crate) fn tables(
    alloc: Global,
    hashing: RandomState,
    counts: &mut Counts,
    ids: Ids,
    keys: u32,
    batch: u32,
) -> Result<()> {
    let limits = limits(batch)?;
    let front = ids.row_front();
    let tables = tables_of(alloc, hashing, front, keys)?;
    Ok(fetch_rows(alloc, counts, &tables, front, keys, limits)?)
}

/// Fetches the keys of the rows, a batch at a time, and counts their outcomes. Fails if memory runs out.
fn fetch_rows(
    alloc: Global,
    counts: &mut Counts,
    tables: &Tables,
    front: Option<&str>,
    keys: u32,
    limits: Limits,
) -> Result<(), AllocError> {
    let keys = row_keys(alloc, front, keys)?;
    fetch_all(alloc, counts, tables, &keys, limits)
}

/// Fetches the keys, a batch at a time, and counts their outcomes.
fn fetch_all(
    alloc: Global,
    counts: &mut Counts,
    tables: &Tables,
    keys: &[FetchKey],
    limits: Limits,
) -> Result<(), AllocError> {
    for part in keys.chunks(limits.max_batch() as usize) {
        let answer = tables.fetch(alloc, part)?;
        counts.answer(&answer);
    }
    Ok(())
}

/// The keys of the rows. Fails if memory runs out.
fn row_keys(alloc: Global, front: Option<&str>, keys: u32) -> Result<Vec<FetchKey>, AllocError> {
    match front {
        Some(front) => fronted_keys(alloc, front, keys),
        None => keys_of(alloc, keys),
    }
}

/// Tables with a row for each key, from their text.
fn tables_of(
    alloc: Global,
    hashing: RandomState,
    front: Option<&str>,
    keys: u32,
) -> Result<Tables> {
    let tree = tree_of(alloc, front, keys)?;
    Ok(Tables::from_owned_value(alloc, hashing, tree)?)
}

/// A tree of one table, with a row for each key, from its text.
fn tree_of(alloc: Global, front: Option<&str>, keys: u32) -> Result<Value> {
    let text = tree_text(alloc, front, keys)?;
    Ok(Value::from_str(alloc, text.as_str())?)
}

fn tree_text(alloc: Global, front: Option<&str>, keys: u32) -> Result<String, AllocError> {
    let mut text = String::new(alloc);
    push_tree(&mut text, front, keys)?;
    Ok(text)
}

fn push_tree(text: &mut String, front: Option<&str>, keys: u32) -> Result<(), AllocError> {
    let table = table_of(front);
    write!(text, "[{{\"name\":\"{table}\",\"rows\":[")?;
    for number in 0..keys {
        push_row(text, front, number)?;
    }
    text.push_str("]}]")
}

/// Writes the row of a number, after those before it.
fn push_row(text: &mut String, front: Option<&str>, number: u32) -> Result<(), AllocError> {
    if number > 0 {
        text.push_str(",")?;
    }
    text.push_str("[\"")?;
    push_id(text, front, number)?;
    write!(text, "\",{number}]")
}
