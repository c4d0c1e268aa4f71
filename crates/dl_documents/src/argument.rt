//! Reads the arguments of calls and steps.

ghost use Rattle.std.specs.Prelude.{◌≡◌, IfOk, option_map};
ghost use Rattle.dl_documents.specs.Reading.{two_in, three_in, texts_in, key_in, keys_in, is_true};
ghost use Rattle.dl_documents.specs.TermReading.{value_in};
ghost use Rattle.dl_documents.specs.Inside.Trees.{tree_data};

use crate::tree::{into_items, into_value, items, text, truth};
use dl_values::{FetchKey, Json, KeyFault, Keys, has_float};
use json::Value;
use std::alloc::{AllocError, Global};

/// The items of a list of two.
pub(crate) fn pair<'v, 'a>(tree: &'v Value<'a>) -> Option<(&'v Value<'a>, &'v Value<'a>)>
    ensures { option_map (λ p. (tree_data p.0.now, tree_data p.1.now)) result ≡ two_in (tree_data tree.now) }
{
    let items = items(tree)?;
    if items.len() != 2 {
        return None;
    }
    Some((&items[0], &items[1]))
}

/// The items of a list of two, moved out of it.
pub(crate) fn into_pair(tree: Value<'_>) -> Option<(Value<'_>, Value<'_>)>
    ensures { option_map (λ p. (tree_data p.0, tree_data p.1)) result ≡ two_in (tree_data tree.entry) }
{
    let mut items = into_items(tree)?;
    if items.len() != 2 {
        return None;
    }
    let second = items.pop()?;
    let first = items.pop()?;
    Some((first, second))
}

/// The items of a list of three, moved out of it.
pub(crate) fn into_triple(tree: Value<'_>) -> Option<(Value<'_>, Value<'_>, Value<'_>)>
    ensures { option_map (λ p. (tree_data p.0, tree_data p.1, tree_data p.2)) result ≡ three_in (tree_data tree.entry) }
{
    let mut items = into_items(tree)?;
    if items.len() != 3 {
        return None;
    }
    let third = items.pop()?;
    let second = items.pop()?;
    let first = items.pop()?;
    Some((first, second, third))
}

/// The two texts of a list of two.
fn texts<'a>(tree: &Value<'a>) -> Option<(&'a str, &'a str)>
    ensures { option_map (λ p. (p.0.now, p.1.now)) result ≡ texts_in (tree_data tree.now) }
{
    let (table, id) = pair(tree)?;
    let table = text(table)?;
    let id = text(id)?;
    Some((table, id))
}

/// The key that a tree spells, a list of two texts, if it spells one. Fails if memory runs out.
pub(crate) fn key(alloc: Global, tree: &Value<'_>) -> Result<Option<FetchKey>, AllocError>
    ensures { IfOk result (λ k. k ≡ key_in (tree_data tree.now)) }
{
    let Some((table, id)) = texts(tree) else {
        return Ok(None);
    };
    match FetchKey::new(alloc, table, id) {
        Ok(key) => Ok(Some(key)),
        Err(KeyFault::OutOfMemory) => Err(AllocError),
        Err(_) => Ok(None),
    }
}

/// The keys of a list, if each item spells one. Fails if memory runs out.
pub(crate) fn keys(alloc: Global, tree: &Value<'_>) -> Result<Option<Keys>, AllocError>
    ensures { IfOk result (λ ks. ks ≡ keys_in (tree_data tree.now)) }
{
    let Some(items) = items(tree) else {
        return Ok(None);
    };
    let mut keys = Vec::with_capacity(alloc, items.len())?;
    for item in items {
        let Some(key) = key(alloc, item)? else {
            return Ok(None);
        };
        keys.push(key)?;
    }
    Ok(Some(Keys::new(alloc, keys)?))
}

/// The tree as a value, if all its numbers are whole. Fails if memory runs out.
pub(crate) fn json(alloc: Global, tree: Value<'_>) -> Result<Option<Json>, AllocError>
    ensures { IfOk result (λ v. v ≡ value_in (tree_data tree.entry)) }
{
    let value = into_value(alloc, tree)?;
    if has_float(&value) {
        return Ok(None);
    }
    Ok(Some(Json::new(alloc, value)?))
}

/// Whether the tree is `true`.
pub(crate) fn is_true(tree: &Value<'_>) -> bool
    ensures { result ≡ is_true (tree_data tree.now) }
{
    truth(tree).unwrap_or(false)
}
