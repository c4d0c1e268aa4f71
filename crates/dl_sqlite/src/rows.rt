//! The rows of a table.

ghost use Rattle.std.specs.Prelude.{◌≡◌, ◌≤◌, ◌<◌, length, map, IsTrue, IfOk, OnOk};
ghost use Rattle.std.specs.List.{AllByRecursion};
ghost use Rattle.serde_json.specs.View.{view};
ghost use Rattle.sqlite_trees.specs.View.{IsClean, doubt};
ghost use Rattle.dl_sqlite.specs.Rows.{IsWhole, entry_json};

use crate::fault::DatabaseFault;
use crate::row::entry;
use serde_json::Value;
use sqlite_schema::schema::Table;
use sqlite_trees::store::{Direction, Store};
use sqlite_value::row::Row;
use std::alloc::Global;

/// The cursor that reads.
const CURSOR: u16 = 0;

/// The entries of all rows of a table, in the order of their rowids.
pub(crate) fn entries<S: Store>(
    alloc: Global,
    store: &mut S,
    table: &Table,
) -> Result<Vec<Value>, DatabaseFault>
    requires { 0 < length table.now.columns }
    ensures json { IfOk result (λ rows. IsClean (S.view store.new)
        → map view rows.items ≡ map (entry_json table.now) ((S.view store.old).trees table.now.tree)) }
    ensures whole { OnOk result (IsClean (S.view store.new) → AllByRecursion (IsWhole table.now) ((S.view store.old).trees table.now.tree)) }
    ensures same { OnOk result (IsClean (S.view store.new) → (S.view store.new).trees ≡ (S.view store.old).trees) }
    ensures clean { doubt (S.view store.old).is_clean ≤ doubt (S.view store.new).is_clean }
{
    let mut rows = Vec::new(alloc);
    let mut row = Row::new(alloc);
    store.seek(CURSOR, table.tree, &row, Direction::Forward)?;
    for _ in 0..u64::MAX {
        let found = store.next(CURSOR, &mut row)?;
        if !found {
            return Ok(rows);
        }
        rows.push(entry(alloc, table, &row)?)?;
    }
    Err(DatabaseFault::OutOfMemory)
}
