//! Reads what a host says of each call.

ghost use Rattle.std.specs.Prelude.{◌≡◌, IfOk, map, option_map};
ghost use Rattle.serde_json.specs.View.{items_view, view};
ghost use Rattle.dl_documents.specs.Reading.{number_in};
ghost use Rattle.dl_replay.specs.Reading.{numbers_in, numbers_listed, one_told_in, told_in, told_listed, told_view};

use crate::told::Told;
use serde_json::Value;
use std::alloc::{AllocError, Global};

/// What is told of each call, if the tree spells that. Fails if memory runs out.
pub(crate) fn told(alloc: Global, tree: &Value) -> Result<Option<Vec<Told>>, AllocError>
    ensures { IfOk result (λ told. option_map (λ v. map told_view v.items) told ≡ told_in (view tree.now)) }
{
    match tree.as_array() {
        Some(items) => told_each(alloc, items.as_slice()),
        None => Ok(None),
    }
}

/// What is told of each call, if each item spells that. Fails if memory runs out.
fn told_each(alloc: Global, items: &[Value]) -> Result<Option<Vec<Told>>, AllocError>
    ensures { IfOk result (λ told. option_map (λ v. map told_view v.items) told ≡ told_listed (items_view items.now)) }
{
    let mut all = Vec::with_capacity(alloc, items.len())?;
    for item in items {
        let Some(told) = one_told(alloc, item)? else {
            return Ok(None);
        };
        all.push(told)?;
    }
    Ok(Some(all))
}

/// What is told of a call, if the tree spells that. Fails if memory runs out.
fn one_told(alloc: Global, tree: &Value) -> Result<Option<Told>, AllocError>
    ensures { IfOk result (λ told. option_map told_view told ≡ one_told_in (view tree.now)) }
{
    let Some(numbers) = numbers(alloc, tree)? else {
        return Ok(None);
    };
    match numbers.split_first() {
        Some((caller, answer)) => {
            let answer = answer.to_vec(alloc)?;
            Ok(Some(Told {
                caller: *caller,
                answer,
            }))
        }
        None => Ok(None),
    }
}

/// The numbers of a list, if the tree is one. Fails if memory runs out.
fn numbers(alloc: Global, tree: &Value) -> Result<Option<Vec<u32>>, AllocError>
    ensures { IfOk result (λ numbers. option_map (λ v. v.items) numbers ≡ numbers_in (view tree.now)) }
{
    match tree.as_array() {
        Some(items) => each_number(alloc, items.as_slice()),
        None => Ok(None),
    }
}

/// The numbers, if each item is one. Fails if memory runs out.
fn each_number(alloc: Global, items: &[Value]) -> Result<Option<Vec<u32>>, AllocError>
    ensures { IfOk result (λ numbers. option_map (λ v. v.items) numbers ≡ numbers_listed (items_view items.now)) }
{
    let mut numbers = Vec::with_capacity(alloc, items.len())?;
    for item in items {
        let Some(number) = number(item) else {
            return Ok(None);
        };
        numbers.push(number)?;
    }
    Ok(Some(numbers))
}

/// The whole number below 2^32 that the tree is, if it is one.
fn number(tree: &Value) -> Option<u32>
    ensures { result ≡ number_in (view tree.now) }
{
    u32::try_from(tree.as_u64()?).ok()
}
