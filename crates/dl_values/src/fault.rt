//! Why two texts aren't a key, and why numbers aren't limits.

use thiserror::Error;

/// Why [`FetchKey::new`](crate::FetchKey::new) rejects two texts: the first of these causes that applies.
#[derive(Clone, Copy, Debug, PartialEq, Eq, Error)]
pub enum KeyFault {
    /// The table has no bytes.
    #[error("the table of a key is empty: give it 1 to 64 bytes")]
    EmptyTable,
    /// The table has more than [`TABLE_BYTES`](crate::TABLE_BYTES) bytes.
    #[error("the table of a key has more than 64 bytes")]
    TableTooLong,
    /// The id has no bytes.
    #[error("the id of a key is empty: give it 1 to 256 bytes")]
    EmptyId,
    /// The id has more than [`ID_BYTES`](crate::ID_BYTES) bytes.
    #[error("the id of a key has more than 256 bytes")]
    IdTooLong,
    /// Memory ran out.
    #[error("out of memory")]
    OutOfMemory,
}

/// Why [`Limits::new`](crate::Limits::new) rejects three numbers: it names the first that isn't 1 to
/// [`LARGEST_LIMIT`](crate::LARGEST_LIMIT).
#[derive(Clone, Copy, Debug, PartialEq, Eq, Error)]
pub enum LimitFault {
    /// The most keys of a batch.
    #[error("the limit of a batch must be 1 to 65,536")]
    BatchLimit,
    /// The most cells of a loader.
    #[error("the limit of cells must be 1 to 65,536")]
    CellLimit,
    /// The most calls of a loader.
    #[error("the limit of calls must be 1 to 65,536")]
    CallLimit,
}

/// Why [`TableLimits::new`](crate::TableLimits::new) rejects a list: the first of these causes that applies to any of
/// its tables.
#[derive(Clone, Copy, Debug, PartialEq, Eq, Error)]
pub enum TableLimitFault {
    /// A table's name has no bytes.
    #[error("the name of a table is empty: give it 1 to 64 bytes")]
    EmptyTable,
    /// A table's name has more than [`TABLE_BYTES`](crate::TABLE_BYTES) bytes.
    #[error("the name of a table has more than 64 bytes")]
    TableTooLong,
    /// A table's limit isn't 1 to [`LARGEST_LIMIT`](crate::LARGEST_LIMIT).
    #[error("the limit of a batch must be 1 to 65,536")]
    BatchLimit,
    /// The list names a table twice.
    #[error("a table has two limits: give it one")]
    DuplicateTable,
    /// Memory ran out.
    #[error("out of memory")]
    OutOfMemory,
}
