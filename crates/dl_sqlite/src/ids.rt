//! An id that a table lists twice.

use crate::fault::DatabaseFault;
use dl_source::TableFault;
use serde_json::Value;
use std::alloc::{AllocError, Global};

/// The fault of tables that list an id twice, as a plan file lists them: it names the first table that does.
pub(crate) fn repeated_id(alloc: Global, listed: &[Value]) -> DatabaseFault {
    for table in listed {
        match repeated_in(alloc, table) {
            Ok(Some(fault)) => return fault,
            Ok(None) => {}
            Err(_) => return DatabaseFault::OutOfMemory,
        }
    }
    DatabaseFault::Tables(TableFault::DuplicateKey)
}

/// The fault of a table, if it lists an id twice.
fn repeated_in(alloc: Global, table: &Value) -> Result<Option<DatabaseFault>, AllocError> {
    let Some(rows) = table.get("rows").and_then(Value::as_array) else {
        return Ok(None);
    };
    let Some(id) = repeated(alloc, rows.as_slice())? else {
        return Ok(None);
    };
    let name = table.get("name").and_then(Value::as_str).unwrap_or("");
    Ok(Some(DatabaseFault::Twice {
        table: String::from_str(alloc, name)?,
        id: String::from_str(alloc, id)?,
    }))
}

/// The least id that two of the rows have.
fn repeated(alloc: Global, rows: &[Value]) -> Result<Option<&str>, AllocError> {
    let mut ids = Vec::with_capacity(alloc, rows.len())?;
    for row in rows {
        ids.push(row.get(0usize).and_then(Value::as_str).unwrap_or(""))?;
    }
    ids.sort_unstable();
    for at in 1..ids.len() {
        if ids[at - 1] == ids[at] {
            return Ok(Some(ids[at]));
        }
    }
    Ok(None)
}
