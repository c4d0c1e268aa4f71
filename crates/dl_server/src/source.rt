//! Reads the tables that answer every request.

ghost use Rattle.std.specs.Prelude.{IfOk};
ghost use Rattle.serde_json.specs.View.{view};
ghost use Rattle.dl_documents.specs.Document.{IsTextOf};
ghost use Rattle.dl_server.specs.Source.{IsListed};

use dl_source::{TableFault, Tables};
use serde_json::Value;
use std::alloc::Global;
use std::hash::RandomState;
use thiserror::Error;

/// Why bytes list no tables.
#[derive(Clone, Copy, Debug, PartialEq, Eq, Error)]
pub enum ListFault {
    /// They aren't the text of a JSON value.
    #[error("not json")]
    NotJson,
    /// The value has this fault.
    #[error("{0}")]
    Table(TableFault),
    /// Memory ran out.
    #[error("out of memory")]
    OutOfMemory,
}

/// The tables that these bytes list, in JSON, as the member `tables` of a plan file of version 1 does. `hashing` hashes
/// names and ids, and nothing that you see depends on it.
///
/// # Errors
/// `NotJson` if they aren't the text of a JSON value, `Table` if the value lists no tables, and `OutOfMemory`.
pub fn listed_tables(alloc: Global, hashing: RandomState, bytes: &[u8]) -> Result<Tables, ListFault>
    ensures { IfOk result (IsListed bytes.now) }
{
    let value = value_of(alloc, bytes)?;
    match Tables::from_owned_value(alloc, hashing, value) {
        Ok(tables) => Ok(tables),
        Err(TableFault::OutOfMemory) => Err(ListFault::OutOfMemory),
        Err(fault) => Err(ListFault::Table(fault)),
    }
}

/// The JSON value that these bytes are the text of.
///
/// # Errors
/// `NotJson` or `OutOfMemory`.
fn value_of(alloc: Global, bytes: &[u8]) -> Result<Value, ListFault>
    ensures { IfOk result (λ value. IsTextOf bytes.now (view value)) }
{
    match Value::from_slice(alloc, bytes) {
        Ok(value) => Ok(value),
        Err(error) if error.is_memory() => Err(ListFault::OutOfMemory),
        Err(_) => Err(ListFault::NotJson),
    }
}
