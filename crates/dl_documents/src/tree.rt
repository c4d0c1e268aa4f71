//! Trees of a document, which borrow their texts from its own.

ghost use Rattle.std.specs.Prelude.{◌≡◌, is_some, option_map, IfOk};
ghost use Rattle.json.specs.Value.{value_view, items_view, members_view};
ghost use Rattle.serde_json.specs.Data.{no_members};
ghost use Rattle.serde_json.specs.Find.{as_array, as_object, as_str, as_bool, as_number};
ghost use Rattle.serde_json.specs.Read.{of_json, of_items, of_members};
ghost use Rattle.serde_json.specs.View as owned;
ghost use Rattle.dl_source.specs.Spelling.{whole};
ghost use Rattle.dl_documents.specs.Inside.Trees.{tree_data, list_data, object_data};

use crate::number::number_of;
use json::Value;
use serde_json::{Map, Number};
use std::alloc::{AllocError, Global};

/// Whether each number in a tree is in range.
#[cycle(fitting)]
pub(crate) fn has_fitting_numbers(tree: &Value<'_>) -> bool
    ensures { result ≡ is_some (of_json (value_view tree.now)) }
{
    match tree {
        Value::Number(text) => number_of(text).is_some(),
        Value::Array(items) => items_fit(items),
        Value::Object(members) => members_fit(members),
        Value::Null | Value::Bool(_) | Value::String(_) => true,
    }
}

#[cycle(fitting)]
fn items_fit(items: &[Value<'_>]) -> bool
    ensures { result ≡ is_some (of_items (items_view items.now)) }
{
    for item in items {
        if !has_fitting_numbers(item) {
            return false;
        }
    }
    true
}

#[cycle(fitting)]
fn members_fit(members: &[(&str, Value<'_>)]) -> bool
    ensures { result ≡ is_some (of_members (members_view members.now) no_members) }
{
    for member in members {
        if !has_fitting_numbers(&member.1) {
            return false;
        }
    }
    true
}

// ---- look into a tree

/// The text, if the tree is one.
pub(crate) fn text<'a>(tree: &Value<'a>) -> Option<&'a str>
    ensures { option_map (λ s. s.now) result ≡ as_str (tree_data tree.now) }
{
    tree.as_str()
}

/// The truth value, if the tree is one.
pub(crate) fn truth(tree: &Value<'_>) -> Option<bool>
    ensures { result ≡ as_bool (tree_data tree.now) }
{
    tree.as_bool()
}

/// The number, if the tree is one.
pub(crate) fn number(tree: &Value<'_>) -> Option<Number>
    ensures { option_map owned.number_view result ≡ as_number (tree_data tree.now) }
{
    number_of(tree.as_number()?)
}

/// The whole number, if the tree is one that an `i64` or a `u64` holds.
pub(crate) fn whole(tree: &Value<'_>) -> Option<i128>
    ensures { result ≡ whole (tree_data tree.now) }
{
    number(tree)?.as_i128()
}

/// The items of a list.
pub(crate) fn items<'v, 'a>(tree: &'v Value<'a>) -> Option<&'v [Value<'a>]>
    ensures { option_map (λ v. list_data v.now) result ≡ as_array (tree_data tree.now) }
{
    match tree {
        Value::Array(items) => Some(items),
        _ => None,
    }
}

// ---- take a tree apart

/// The items of a list, moved out of it.
pub(crate) fn into_items(tree: Value<'_>) -> Option<Vec<Value<'_>>>
    ensures { option_map (λ v. list_data v.items) result ≡ as_array (tree_data tree.entry) }
{
    match tree {
        Value::Array(items) => Some(items),
        _ => None,
    }
}

/// The members of an object, moved out of it, as they are in its text: a name may be there twice.
pub(crate) fn into_members(tree: Value<'_>) -> Option<Vec<(&str, Value<'_>)>>
    ensures { option_map (λ v. object_data v.items) result ≡ as_object (tree_data tree.entry) }
{
    match tree {
        Value::Object(members) => Some(members),
        _ => None,
    }
}

/// The tree as a value that owns its texts. It drops each part of the tree once that is copied. Fails if memory runs
/// out.
#[cycle(owning)]
pub(crate) fn into_value(alloc: Global, tree: Value<'_>) -> Result<serde_json::Value, AllocError>
    ensures { IfOk result (λ v. owned.view v ≡ tree_data tree.entry) }
{
    Ok(match tree {
        Value::Null => serde_json::Value::Null,
        Value::Bool(truth) => serde_json::Value::Bool(truth),
        Value::Number(text) => match number_of(text) {
            Some(number) => serde_json::Value::Number(number),
            None => serde_json::Value::Null,
        },
        Value::String(text) => serde_json::Value::String(String::from_str(alloc, text)?),
        Value::Array(items) => serde_json::Value::Array(into_list(alloc, items)?),
        Value::Object(members) => serde_json::Value::Object(into_map(alloc, members)?),
    })
}

#[cycle(owning)]
fn into_list(alloc: Global, items: Vec<Value<'_>>) -> Result<Vec<serde_json::Value>, AllocError>
    ensures { IfOk result (λ v. owned.items_view v.items ≡ list_data items.entry.items) }
{
    let mut list = Vec::with_capacity(alloc, items.len())?;
    for item in items {
        list.push(into_value(alloc, item)?)?;
    }
    Ok(list)
}

#[cycle(owning)]
fn into_map(
    alloc: Global,
    members: Vec<(&str, Value<'_>)>,
) -> Result<Map<String, serde_json::Value>, AllocError>
    ensures { IfOk result (λ m. owned.members_view m.entries ≡ object_data members.entry.items) }
{
    let mut map = Map::new(alloc);
    for member in members {
        let (name, value) = member;
        let name = String::from_str(alloc, name)?;
        let value = into_value(alloc, value)?;
        drop(map.insert(name, value)?);
    }
    Ok(map)
}
