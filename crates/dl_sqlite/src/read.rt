//! Reads the tables of a database.

ghost use Rattle.std.specs.Prelude.{◌≡◌, ◌≤◌, true, map, IsTrue, IfOk, OnOk};
ghost use Rattle.std.specs.List.{AllByRecursion};
ghost use Rattle.serde_json.specs.View.{view};
ghost use Rattle.sqlite_trees.specs.View.{IsClean, doubt};
ghost use Rattle.sqlite.specs.Held.{state};
ghost use Rattle.sqlite.specs.Steps.{over_memory};
ghost use Rattle.dl_sqlite.specs.Form.{has_form};
ghost use Rattle.dl_sqlite.specs.Read.{AreRowsOf};
ghost use Rattle.dl_sqlite.specs.Rows.{AreWhole, table_json, tables_json};

use crate::fault::DatabaseFault;
use crate::form::readable_tables;
use crate::ids::repeated_id;
use crate::row::name_of;
use crate::rows::entries;
use dl_source::{TableFault, Tables};
use serde_json::{Map, Value};
use sqlite::{Alter, Connection, Error, ErrorCode, MemStore};
use sqlite_schema::schema::Table;
use sqlite_trees::store::Store;
use std::alloc::Global;
use std::hash::RandomState;

/// Reads all rows of a database in memory. They answer as a source from then on.
///
/// # Errors
/// Those of [`read_tables`].
pub fn read_memory(
    alloc: Global,
    hashing: RandomState,
    conn: Connection<MemStore>,
) -> Result<Tables, DatabaseFault>
    ensures { IfOk result (AreRowsOf (state over_memory conn).now) }
{
    let (tables, _store) = read_tables(alloc, hashing, conn)?;
    Ok(tables)
}

/// Reads all rows of a database, once. With the tables you get its store back, with the same rows. They are those that the database
/// had, if its disk returned what was written to it.
///
/// # Errors
/// `Uncommitted` if a transaction is open. Else the first that applies, in this order:
/// - `Unread` for a table that SQLite's part here can't read.
/// - Then by the tables, in the order of the schema: `TableName`, `NoId`, or `Column` for the first column of another type.
/// - Then again by the tables, in each by its rows in the order of their rowids, and in each row by its columns: `Row`.
/// - `Twice` if two rows of a table have the same id.
///
/// Besides, at any step: `Name` for a name that isn't UTF-8, `Sqlite` if the store fails, and `OutOfMemory`. `Tables` is for another
/// cause that a source has; we know of none.
pub fn read_tables<S: Alter + Drop>(
    alloc: Global,
    hashing: RandomState,
    conn: Connection<S>,
) -> Result<(Tables, S), DatabaseFault>
    ensures rows { IfOk result (λ read. IsClean (S.Store.view read.1) → AreRowsOf (state S.Store conn).now read.0) }
    ensures store { IfOk result (λ read. IsClean (S.Store.view read.1) → (S.Store.view read.1).trees ≡ (state S.Store conn).now.trees) }
{
    if !conn.is_autocommit() {
        return Err(DatabaseFault::Uncommitted);
    }
    let own = readable_tables(alloc, conn.schema())?;
    let mut store = conn.into_store();
    let tables = listed(alloc, &mut store, own.as_slice())?;
    match Tables::from_owned_value(alloc, hashing, Value::Array(tables)) {
        Ok(tables) => Ok((tables, store)),
        Err(TableFault::DuplicateKey) => {
            let again = listed(alloc, &mut store, own.as_slice())?;
            Err(repeated_id(alloc, again.as_slice()))
        }
        Err(fault) => Err(DatabaseFault::from(fault)),
    }
}

/// The tables as a plan file lists them.
fn listed<S: Store>(
    alloc: Global,
    store: &mut S,
    tables: &[Table],
) -> Result<Vec<Value>, DatabaseFault>
    requires { AllByRecursion (λ t. has_form t ≡ true) tables.now }
    ensures json { IfOk result (λ listed. IsClean (S.view store.new) → map view listed.items ≡ tables_json (S.view store.old).trees tables.now) }
    ensures whole { OnOk result (IsClean (S.view store.new) → AreWhole (S.view store.old).trees tables.now) }
    ensures sound { OnOk result (IsClean (S.view store.new) → IsTrue (S.view store.old).is_open) }
    ensures same { OnOk result (IsClean (S.view store.new) → (S.view store.new).trees ≡ (S.view store.old).trees) }
    ensures clean { doubt (S.view store.old).is_clean ≤ doubt (S.view store.new).is_clean }
{
    if store.is_broken() {
        return Err(DatabaseFault::Sqlite(Error::SqliteFailure(ErrorCode::Closed)));
    }
    let mut listed = Vec::with_capacity(alloc, tables.len())?;
    for table in tables {
        let rows = entries(alloc, store, table)?;
        listed.push(one_table(alloc, table, rows)?)?;
    }
    Ok(listed)
}

/// A table as a plan file lists it, with these entries.
fn one_table(alloc: Global, table: &Table, rows: Vec<Value>) -> Result<Value, DatabaseFault>
    ensures { IfOk result (λ v. view v ≡ table_json table.now (map view rows.items)) }
{
    let name = name_of(alloc, table.name.as_slice())?;
    let mut members = Map::new(alloc);
    drop(members.insert(String::from_str(alloc, "name")?, Value::String(name))?);
    drop(members.insert(String::from_str(alloc, "rows")?, Value::Array(rows))?);
    Ok(Value::Object(members))
}
