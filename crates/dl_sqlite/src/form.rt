//! Which tables of a schema are read.

ghost use Rattle.std.specs.Prelude.{◌≡◌, true, None, IfOk, IfNone, OnOk};
ghost use Rattle.std.specs.List.{AllByRecursion, list_all};
ghost use Rattle.dl_sqlite.specs.Form.{IsReadable, has_form, has_json_kind, is_internal, is_text, own_tables, starts_with_id};

use crate::fault::DatabaseFault;
use crate::row::name_of;
use dl_values::TABLE_BYTES;
use sqlite_schema::schema::{Column, Kind, Schema, Table, View};
use std::alloc::Global;

/// The tables of the database, without SQLite's own. Each has the form that is asked of it.
pub(crate) fn readable_tables(alloc: Global, schema: &Schema) -> Result<Vec<Table>, DatabaseFault>
    ensures tables { IfOk result (λ tables. tables.items ≡ own_tables schema.now.tables) }
    ensures form { OnOk result (IsReadable schema.now) }
{
    check_views(alloc, schema.views.as_slice())?;
    own_tables(alloc, schema.tables.as_slice())
}

/// A copy of the tables that aren't SQLite's own. Each has the form that is asked of it.
fn own_tables(alloc: Global, tables: &[Table]) -> Result<Vec<Table>, DatabaseFault>
    ensures tables { IfOk result (λ own. own.items ≡ own_tables tables.now) }
    ensures form { OnOk result (AllByRecursion (λ t. has_form t ≡ true) (own_tables tables.now)) }
{
    let mut own = Vec::new(alloc);
    for table in tables {
        if is_internal(table.name.as_slice()) {
            continue;
        }
        check_table(alloc, table)?;
        own.push(table.copy(alloc)?)?;
    }
    Ok(own)
}

/// Whether SQLite keeps the table of this name for itself.
fn is_internal(name: &[u8]) -> bool
    ensures { result ≡ is_internal name.now }
{
    &name[..name.len().min(7)] == b"sqlite_".as_slice()
}

/// Rejects a schema with a table that SQLite's part here keeps unread. A view gives no table, and isn't rejected.
fn check_views(alloc: Global, views: &[View]) -> Result<(), DatabaseFault>
    ensures { OnOk result (AllByRecursion (λ v. v.foreign ≡ None) views.now) }
{
    for view in views {
        if let Some(table) = &view.foreign {
            return Err(DatabaseFault::Unread(name_of(alloc, table.as_slice())?));
        }
    }
    Ok(())
}

/// Rejects a table of another form.
fn check_table(alloc: Global, table: &Table) -> Result<(), DatabaseFault>
    ensures { OnOk result (has_form table.now ≡ true) }
{
    let name = table.name.as_slice();
    if name.is_empty() || name.len() > TABLE_BYTES {
        return Err(DatabaseFault::TableName(name_of(alloc, name)?));
    }
    if !starts_with_id(table.columns.as_slice()) {
        return Err(DatabaseFault::NoId(name_of(alloc, name)?));
    }
    match other_column(table.columns.as_slice()) {
        Some(column) => Err(DatabaseFault::Column {
            table: name_of(alloc, name)?,
            column: name_of(alloc, column.name.as_slice())?,
            kind: kind_name(column),
        }),
        None => Ok(()),
    }
}

fn starts_with_id(columns: &[Column]) -> bool
    ensures { result ≡ starts_with_id columns.now }
{
    match columns {
        [first, ..] => first.name.as_slice() == b"id".as_slice() && is_text(first.kind),
        [] => false,
    }
}

/// The first column of a type that JSON can't have.
fn other_column(columns: &[Column]) -> Option<&Column>
    ensures { IfNone result (list_all (λ c. has_json_kind c.kind) columns.now ≡ true) }
{
    for column in columns {
        if !has_json_kind(column.kind) {
            return Some(column);
        }
    }
    None
}

fn is_text(kind: Kind) -> bool
    ensures { result ≡ is_text kind }
{
    matches!(kind, Kind::Text)
}

fn has_json_kind(kind: Kind) -> bool
    ensures { result ≡ has_json_kind kind }
{
    matches!(kind, Kind::Text | Kind::Integer)
}

/// The type of a column, as SQL names it. In a table that isn't STRICT, that is the type by which SQLite keeps its values.
fn kind_name(column: &Column) -> &'static str {
    match column.kind {
        Kind::Integer => "INTEGER",
        Kind::Real => "REAL",
        Kind::Text => "TEXT",
        Kind::Blob => "BLOB",
        Kind::Any if column.is_strict => "ANY",
        Kind::Any => "BLOB or none",
    }
}
