//! Members of JSON objects. If an object has a name more than once, the last counts.

ghost use Rattle.std.specs.Prelude.{◌≡◌, None, false, bytes_eq, codes, option_map, option_and_then, IfOk, MatchOption};
ghost use Rattle.std.specs.List.{list_all};
ghost use Rattle.serde_json.specs.Find.{get, get_member, as_array};
ghost use Rattle.dl_documents.specs.Reading.{one_in};
ghost use Rattle.dl_documents.specs.Inside.Top.{top_data};
ghost use Rattle.dl_documents.specs.Inside.Trees.{tree_data, list_data, object_data, entries_data};
ghost use Rattle.dl_documents.specs.TermReading.{names_of, values_of};
ghost use Rattle.dl_documents.specs.Inside.Members.{IsPlaceOf};

use crate::top::Top;
use crate::tree::{into_items, into_members};
use dl_values::Text;
use json::Value;
use std::alloc::{AllocError, Global};
use std::collections::BTreeMap;

/// The value of a member other than `tables`.
pub(crate) fn member<'v, 'a>(top: &'v Top<'a>, name: &str) -> Option<&'v Value<'a>>
    requires { bytes_eq name.now (codes "tables") ≡ false }
    ensures { option_map (λ v. tree_data v.now) result ≡ get name.now (top_data top.now) }
{
    let place = last_place(&top.members, name)?;
    Some(&top.members[place].1)
}

/// The name and the value of an object's one member, moved out of it.
// Inlined, since it is the first step for each term.
#[inline(always)]
pub(crate) fn into_only(tree: Value<'_>) -> Option<(&str, Value<'_>)>
    ensures { option_map (λ p. (p.0.now, tree_data p.1)) result ≡ one_in (tree_data tree.entry) }
{
    let mut members = into_members(tree)?;
    let (name, argument) = members.pop()?;
    if all_named(&members, name) {
        Some((name, argument))
    } else {
        None
    }
}

/// Whether each member has this name.
fn all_named(members: &[(&str, Value<'_>)], name: &str) -> bool
    ensures { result ≡ list_all (λ m. bytes_eq m.0.now name.now) members.now }
{
    members.iter().all(|member| member.0 == name)
}

/// The list in a member, moved out of all members.
pub(crate) fn into_list<'a>(
    members: Vec<(&'a str, Value<'a>)>,
    name: &str,
) -> Option<Vec<Value<'a>>>
    ensures { option_map (λ l. list_data l.items) result ≡ option_and_then as_array (get_member name.now (object_data members.entry.items)) }
{
    let mut members = members;
    let place = last_place(&members, name)?;
    let (_, list) = members.remove(place);
    into_items(list)
}

/// The place of the last member of this name.
fn last_place(members: &[(&str, Value<'_>)], name: &str) -> Option<usize>
    ensures { MatchOption result (get_member name.now (object_data members.now) ≡ None) (IsPlaceOf name.now members.now) }
{
    let mut left = members.len();
    while left > 0 {
        left -= 1;
        if members[left].0 == name {
            return Some(left);
        }
    }
    None
}

/// The names and the values of an object's members, moved out of it, in the order of the names. Fails if memory runs
/// out.
pub(crate) fn in_order<'a>(
    alloc: Global,
    members: Vec<(&'a str, Value<'a>)>,
) -> Result<(Vec<Text>, Vec<Value<'a>>), AllocError>
    ensures names { IfOk result (λ p. p.0.items ≡ names_of (object_data members.entry.items)) }
    ensures values { IfOk result (λ p. list_data p.1.items ≡ values_of (object_data members.entry.items)) }
{
    let members = sorted(alloc, members)?;
    let mut names = Vec::with_capacity(alloc, members.len())?;
    let mut values = Vec::with_capacity(alloc, members.len())?;
    for member in members {
        let (name, value) = member;
        names.push(name)?;
        values.push(value)?;
    }
    Ok((names, values))
}

/// The members of an object, by their names. Fails if memory runs out.
fn sorted<'a>(
    alloc: Global,
    members: Vec<(&'a str, Value<'a>)>,
) -> Result<BTreeMap<Text, Value<'a>>, AllocError>
    ensures { IfOk result (λ m. entries_data m.entries ≡ object_data members.entry.items) }
{
    let mut map = BTreeMap::new(alloc);
    for member in members {
        let (name, value) = member;
        let name = Text::new(alloc, name)?;
        drop(map.insert(name, value)?);
    }
    Ok(map)
}
