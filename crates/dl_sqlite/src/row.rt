//! Rows as JSON.

ghost use Rattle.std.specs.Prelude.{◌≡◌, ◌<◌, length, string_bytes, IfOk, OnOk};
ghost use Rattle.serde_json.specs.Data.{object, no_members};
ghost use Rattle.serde_json.specs.View.{view, members_view};
ghost use Rattle.sqlite_value.specs.Value.{owned};
ghost use Rattle.dl_source.specs.Spelling.{pair as paired};
ghost use Rattle.dl_sqlite.specs.Rows.{HasJson, HaveJson, IsText, IsWhole, entry_json, json_of, text_of, value_at, with_columns};

use crate::fault::DatabaseFault;
use dl_values::ID_BYTES;
use serde_json::{Map, Value};
use sqlite_schema::schema::Table;
use sqlite_value::row::Row;
use sqlite_value::value::ValueRef;
use std::alloc::{AllocError, Global};

/// Why a value has no JSON, or is no id.
#[derive(Clone, Copy)]
enum Unfit {
    Null,
    Integer,
    Real,
    Blob,
    NotUtf8,
    NoKey,
    OutOfMemory,
}

impl From<AllocError> for Unfit {
    fn from(_error: AllocError) -> Unfit {
        Unfit::OutOfMemory
    }
}

/// The entry of a row in the list of its table: its id, and the row as an object.
pub(crate) fn entry(alloc: Global, table: &Table, row: &Row) -> Result<Value, DatabaseFault>
    requires { 0 < length table.now.columns }
    ensures json { IfOk result (λ v. view v ≡ entry_json table.now row.now) }
    ensures whole { OnOk result (IsWhole table.now row.now) }
{
    let id = match id(alloc, row.get(table.place_of(0))) {
        Ok(id) => id,
        Err(unfit) => return Err(misfit(alloc, table, row, 0, unfit)),
    };
    let members = members(alloc, table, row)?;
    Ok(pair(alloc, id, members)?)
}

/// A list of an id and an object. Fails if memory runs out.
fn pair(alloc: Global, id: String, members: Map<String, Value>) -> Result<Value, AllocError>
    ensures { IfOk result (λ v. view v ≡ paired (string_bytes id) (object (members_view members.entries))) }
{
    let items = vec![in alloc; Value::String(id), Value::Object(members)]?;
    Ok(Value::Array(items))
}

/// A member for each column of the row.
fn members(alloc: Global, table: &Table, row: &Row) -> Result<Map<String, Value>, DatabaseFault>
    ensures json { IfOk result (λ m. members_view m.entries ≡ with_columns table.now row.now 0 table.now.columns no_members) }
    ensures whole { OnOk result (HaveJson table.now row.now 0 table.now.columns) }
{
    let mut members = Map::new(alloc);
    for (at, column) in table.columns.as_slice().iter().enumerate() {
        let value = match json(alloc, row.get(table.place_of(at))) {
            Ok(value) => value,
            Err(unfit) => return Err(misfit(alloc, table, row, at, unfit)),
        };
        let name = name_of(alloc, column.name.as_slice())?;
        drop(members.insert(name, value)?);
    }
    Ok(members)
}

/// The JSON of a value.
fn json(alloc: Global, value: ValueRef<'_>) -> Result<Value, Unfit>
    ensures json { IfOk result (λ v. view v ≡ json_of (owned value.entry)) }
    ensures whole { OnOk result (HasJson (owned value.entry)) }
{
    match value {
        ValueRef::Null => Ok(Value::Null),
        ValueRef::Int(number) => Ok(Value::from(number)),
        ValueRef::Text(bytes) => Ok(Value::String(text(alloc, bytes)?)),
        ValueRef::Real(_) => Err(Unfit::Real),
        ValueRef::Blob(_) => Err(Unfit::Blob),
    }
}

/// An id: a value that is a text, of a length that a key's id may have.
fn id(alloc: Global, value: ValueRef<'_>) -> Result<String, Unfit>
    ensures text { IfOk result (λ s. string_bytes s ≡ text_of (owned value.entry)) }
    ensures is { OnOk result (IsText (owned value.entry)) }
{
    match value {
        ValueRef::Text(bytes) if bytes.is_empty() || bytes.len() > ID_BYTES => Err(Unfit::NoKey),
        ValueRef::Text(bytes) => text(alloc, bytes),
        ValueRef::Null => Err(Unfit::Null),
        ValueRef::Int(_) => Err(Unfit::Integer),
        ValueRef::Real(_) => Err(Unfit::Real),
        ValueRef::Blob(_) => Err(Unfit::Blob),
    }
}

/// The text of these bytes.
fn text(alloc: Global, bytes: &[u8]) -> Result<String, Unfit>
    ensures { IfOk result (λ s. string_bytes s ≡ bytes.now) }
{
    match std::str::from_utf8(bytes) {
        Ok(text) => Ok(String::from_str(alloc, text)?),
        Err(_) => Err(Unfit::NotUtf8),
    }
}

/// The name of a table or a column.
pub(crate) fn name_of(alloc: Global, bytes: &[u8]) -> Result<String, DatabaseFault>
    ensures { IfOk result (λ s. string_bytes s ≡ bytes.now) }
{
    match text(alloc, bytes) {
        Ok(name) => Ok(name),
        Err(Unfit::OutOfMemory) => Err(DatabaseFault::OutOfMemory),
        Err(_) => Err(DatabaseFault::Name),
    }
}

// ---- what doesn't fit

/// The fault of a value in this column of a row.
fn misfit(alloc: Global, table: &Table, row: &Row, at: usize, unfit: Unfit) -> DatabaseFault {
    let value = match unfit {
        Unfit::Null => "NULL",
        Unfit::Integer => "an INTEGER",
        Unfit::Real => "a REAL",
        Unfit::Blob => "a BLOB",
        Unfit::NotUtf8 => "a TEXT that isn't UTF-8",
        Unfit::NoKey => "a TEXT of no bytes or of too many",
        Unfit::OutOfMemory => return DatabaseFault::OutOfMemory,
    };
    match placed(alloc, table, row, at, value) {
        Ok(fault) | Err(fault) => fault,
    }
}

/// The fault of a row that has this value in the column, or why it has no name.
fn placed(
    alloc: Global,
    table: &Table,
    row: &Row,
    at: usize,
    value: &'static str,
) -> Result<DatabaseFault, DatabaseFault> {
    let column = match table.columns.get(at) {
        Some(column) => column.name.as_slice(),
        None => b"",
    };
    let row = match row.get(0) {
        ValueRef::Int(number) => number,
        _ => 0,
    };
    let wanted = match at {
        0 => "a TEXT of 1 to 256 bytes in UTF-8",
        _ => "a TEXT in UTF-8, an INTEGER or NULL",
    };
    Ok(DatabaseFault::Row {
        table: name_of(alloc, table.name.as_slice())?,
        row,
        column: name_of(alloc, column)?,
        value,
        wanted,
    })
}
