//! The members of a table, moved out of its object.

ghost use Rattle.std.specs.Prelude.{◌≡◌, false, MatchOption, string_bytes};
ghost use Rattle.std.specs.List.{list_all};
ghost use Rattle.std.specs.BTreeMap.{keys};
ghost use Rattle.serde_json.specs.Data.{object};
ghost use Rattle.serde_json.specs.View.{view, members_view};
ghost use Rattle.dl_source.specs.Spelling.{has_only, is_table_member};
ghost use Rattle.dl_source.specs.Inside.Reading.{is_member_of};
ghost use Rattle.dl_source.specs.Inside.Members.{AreMembers, AreTableMembers};

use crate::table_reader::Version;
use crate::tree::{into_members, take_member};
use serde_json::{Map, Value};

/// The members that a table may have, each if the object has it.
#[derive(Drop)]
pub(crate) struct TableMembers {
    pub(crate) name: Option<Value>,
    pub(crate) number: Option<Value>,
    pub(crate) rows: Option<Value>,
    pub(crate) errors: Option<Value>,
    pub(crate) breaks: Option<Value>,
}

/// The members of a value, if it is an object whose members a table may have.
pub(crate) fn table_members(version: Version, value: Value) -> Option<TableMembers>
    ensures { MatchOption result (has_only (is_member_of version) (view value) ≡ false) (AreTableMembers version (view value)) }
{
    let members = into_members(value)?;
    if !are_table_members(version, &members) {
        return None;
    }
    Some(taken(members))
}

/// Moves the members out of their object.
fn taken(mut members: Map<String, Value>) -> TableMembers
    ensures { AreMembers (object (members_view members.entries)) result }
{
    let name = take_member(&mut members, "name");
    let number = take_member(&mut members, "maxBatchSize");
    let rows = take_member(&mut members, "rows");
    let errors = take_member(&mut members, "errors");
    let breaks = take_member(&mut members, "breaks");
    TableMembers {
        name,
        number,
        rows,
        errors,
        breaks,
    }
}

fn are_table_members(version: Version, members: &Map<String, Value>) -> bool
    ensures { result ≡ list_all (λ k. is_member_of version (string_bytes k)) (keys members.now) }
{
    members
        .keys()
        .all(|name| is_member_of(version, name.as_str()))
}

/// Whether a table may have a member of this name.
fn is_member_of(version: Version, name: &str) -> bool
    ensures { result ≡ is_member_of version name.now }
{
    match version {
        Version::First => is_table_member(name),
        Version::Second => is_table_member(name) || name == "maxBatchSize",
    }
}

fn is_table_member(name: &str) -> bool
    ensures { result ≡ is_table_member name.now }
{
    matches!(name, "name" | "rows" | "errors" | "breaks")
}
