//! Why a JSON value spells no tables.

use thiserror::Error;

/// Why [`Tables::from_value`](crate::Tables::from_value) rejects a value: the first of these causes that applies
/// anywhere in it.
#[derive(Clone, Copy, Debug, PartialEq, Eq, Error)]
pub enum TableFault {
    /// It isn't a list of tables: a part has another type, another length or other members.
    #[error("the tables must be a list of objects with a name and rows, and optional errors, breaks and, in version 2, maxBatchSize")]
    Shape,
    /// The name of a table or an id has no bytes, or more than a key allows.
    #[error("the name of a table must have 1 to 64 bytes, and an id 1 to 256")]
    BadKey,
    /// The text of an error or a break has more than [`TEXT_BYTES`](crate::TEXT_BYTES) bytes.
    #[error("the text of an error or a break has more than 1,024 bytes")]
    TextTooLong,
    /// A number in a row's value isn't whole.
    #[error("a number in a row must be whole, and an i64 or a u64 must hold it")]
    NotWhole,
    /// Two tables have the same name.
    #[error("two tables have the same name: give each its own")]
    DuplicateTable,
    /// A table lists an id twice, in its rows, errors and breaks together.
    #[error("a table lists an id twice: list it once, in its rows, errors or breaks")]
    DuplicateKey,
    /// Memory ran out.
    #[error("out of memory")]
    OutOfMemory,
}
