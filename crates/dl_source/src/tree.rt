//! Takes JSON trees apart.

ghost use Rattle.std.specs.Prelude.{◌≡◌, ℕ, List, false, bytes_eq, option_map, string_bytes};
ghost use Rattle.serde_json.specs.Find.{as_array, as_object, as_str, get_member};
ghost use Rattle.serde_json.specs.View.{view, items_view, members_view};

use serde_json::{Map, Value};

/// The items, if the value is a list.
pub(crate) fn into_items(value: Value) -> Option<Vec<Value>>
    ensures { option_map (λ v. items_view v.items) result ≡ as_array (view value) }
{
    match value {
        Value::Array(items) => Some(items),
        _ => None,
    }
}

/// The members, if the value is an object.
pub(crate) fn into_members(value: Value) -> Option<Map<String, Value>>
    ensures { option_map (λ m. members_view m.entries) result ≡ as_object (view value) }
{
    match value {
        Value::Object(members) => Some(members),
        _ => None,
    }
}

/// The text, if the value is one.
pub(crate) fn into_text(value: Value) -> Option<String>
    ensures { option_map string_bytes result ≡ as_str (view value) }
{
    match value {
        Value::String(text) => Some(text),
        _ => None,
    }
}

/// Moves the member of this name out of an object, if there is one.
pub(crate) fn take_member(members: &mut Map<String, Value>, name: &str) -> Option<Value>
    ensures taken { option_map view result ≡ get_member name.now (members_view members.old.entries) }
    ensures others { (other : List ℕ) → bytes_eq other name.now ≡ false
        → get_member other (members_view members.new.entries) ≡ get_member other (members_view members.old.entries) }
{
    members.remove(name)
}
