//! The keys of numbers, and the limits of a loader for them.

use crate::ids::{push_id, table_of};
use dl_desk::{FetchKey, LARGEST_LIMIT, LimitFault, Limits};
use itoa::Buffer;
use std::alloc::{AllocError, Global};

/// The limits with this limit of a batch, and the largest others.
pub(crate) fn limits(batch: u32) -> Result<Limits, LimitFault> {
    Limits::new(batch, LARGEST_LIMIT, LARGEST_LIMIT)
}

/// The key of a number: its id is the number in decimal. Fails if memory runs out.
pub(crate) fn key_of(alloc: Global, number: u32) -> Result<FetchKey, AllocError> {
    let mut buffer = Buffer::new();
    FetchKey::new(alloc, "users", buffer.format(number)).or(Err(AllocError))
}

/// The keys of the first numbers. Fails if memory runs out.
pub(crate) fn keys_of(alloc: Global, count: u32) -> Result<Vec<FetchKey>, AllocError> {
    keys_from(alloc, 0, count)
}

/// The keys of this many numbers from the first one on. Fails if memory runs out.
pub(crate) fn keys_from(
    alloc: Global,
    first: u32,
    count: u32,
) -> Result<Vec<FetchKey>, AllocError> {
    let mut keys = Vec::with_capacity(alloc, count as usize)?;
    for place in 0..count {
        keys.push(key_of(alloc, first.saturating_add(place))?)?;
    }
    Ok(keys)
}

/// The key of a front and a number in eight digits, with its id written in the room of the last one. Fails if memory
/// runs out.
pub(crate) fn fronted_key(
    alloc: Global,
    id: &mut String,
    front: &str,
    number: u32,
) -> Result<FetchKey, AllocError> {
    id.clear();
    push_id(id, Some(front), number)?;
    FetchKey::new(alloc, table_of(Some(front)), id.as_str()).or(Err(AllocError))
}

/// The keys of a front and the first numbers. Fails if memory runs out.
pub(crate) fn fronted_keys(
    alloc: Global,
    front: &str,
    count: u32,
) -> Result<Vec<FetchKey>, AllocError> {
    let mut keys = Vec::with_capacity(alloc, count as usize)?;
    let mut id = String::new(alloc);
    for number in 0..count {
        keys.push(fronted_key(alloc, &mut id, front, number)?)?;
    }
    Ok(keys)
}
