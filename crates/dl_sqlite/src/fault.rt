//! Why a database isn't read.

ghost use Rattle.std.specs.Prelude.{◌≡◌};
ghost use Rattle.dl_sqlite.specs.declared.fault.DatabaseFault.TheVariants.{OutOfMemory};

use dl_source::TableFault;
use sqlite::{Error as SqliteError, ErrorCode};
use sqlite_trees::error::StoreError;
use std::alloc::{AllocError, AllocFailed};
use std::io;
use thiserror::Error;

/// Why a database isn't read: what is wrong, where, and what would be right.
#[derive(Debug, Drop, Error)]
pub enum DatabaseFault {
    /// There is no file at this path.
    #[error("{0}: there is no such file")]
    NoFile(String),
    /// What is at this path is no file, or a file with a second name, which may have another log.
    #[error("{0}: it must be a file with one name: no folder, no device, and no hard link to it")]
    NotAFile(String),
    /// The system doesn't let this file be read.
    #[error("{path}: it can't be read: {error}")]
    Unreadable {
        /// The path of the file.
        path: String,
        /// What the system says.
        error: io::Error,
    },
    /// A change of the database isn't finished: its rollback journal, at this path, waits to be played back.
    #[error("{0}: a change of the database isn't finished: open it once with sqlite3, which takes back the change")]
    Journal(String),
    /// The file at this path, or its log, isn't the same in two readings.
    #[error("{0}: it changed while it was read: try again when nobody writes to it")]
    Changed(String),
    /// The bytes begin as no database does.
    #[error("it isn't a SQLite database: it must begin with SQLite format 3 and a zero byte")]
    NotADatabase,
    /// The file has fewer bytes than its header says.
    #[error("the database is cut off: it has {found} bytes, and its header says {wanted}")]
    CutOff {
        /// How many bytes it has.
        found: u64,
        /// How many it must have at least.
        wanted: u64,
    },
    /// The header names a setting that SQLite's part here can't read.
    #[error("the database has {0}, and must not: read a copy, as sqlite3 makes one from what .dump writes")]
    Setting(&'static str),
    /// A page isn't as it must be.
    #[error("the database is damaged: sqlite3 says where, by PRAGMA integrity_check")]
    Damaged,
    /// SQLite's part here can't take the schema as a whole, or a row breaks it.
    #[error("a row breaks the schema, or the schema has what can't be read here, as a virtual table or some views and triggers")]
    Unsound,
    /// SQLite's part here fails in another way.
    #[error("the database can't be read: {0}")]
    Sqlite(SqliteError),
    /// A transaction is open.
    #[error("a transaction is open: commit it first")]
    Uncommitted,
    /// This table has a trigger, or SQLite's part here can't read its definition or that of an index on it.
    #[error("table {0}: it has a trigger, or its definition or an index on it has what can't be read here, as WITHOUT ROWID: read a plain copy")]
    Unread(String),
    /// The name of this table is empty, or too long for a key.
    #[error("table {0}: its name must have 1 to 64 bytes")]
    TableName(String),
    /// The first column of this table isn't `id TEXT`.
    #[error("table {0}: its first column must be id, of type TEXT")]
    NoId(String),
    /// A column has a type that JSON can't have.
    #[error("table {table}, column {column}: its type is {kind}, and must be TEXT or INTEGER")]
    Column {
        /// The table's name.
        table: String,
        /// The column's name.
        column: String,
        /// Its type.
        kind: &'static str,
    },
    /// A row has a value that JSON can't have, or an id that is none of a key.
    #[error("table {table}, row {row}, column {column}: it is {value}, and must be {wanted}")]
    Row {
        /// The table's name.
        table: String,
        /// The number of the row, SQLite's rowid.
        row: i64,
        /// The column's name.
        column: String,
        /// What is there.
        value: &'static str,
        /// What must be there.
        wanted: &'static str,
    },
    /// Two rows of a table have the same id.
    #[error("table {table}: two rows have the id {id:?}, and each must have its own")]
    Twice {
        /// The table's name.
        table: String,
        /// The id.
        id: String,
    },
    /// The name of a table or a column isn't UTF-8.
    #[error("the name of a table or a column isn't UTF-8")]
    Name,
    /// The tables are none that a source can have.
    #[error("{0}")]
    Tables(TableFault),
    /// Memory ran out.
    #[error("out of memory")]
    OutOfMemory,
}

impl From<AllocError> for DatabaseFault {
    ghost from_gives = { λ _ fault. fault ≡ OutOfMemory };

    fn from(_error: AllocError) -> DatabaseFault {
        DatabaseFault::OutOfMemory
    }
}

impl<T: Drop> From<AllocFailed<T>> for DatabaseFault {
    ghost from_gives = { λ _ fault. fault ≡ OutOfMemory };

    fn from(_error: AllocFailed<T>) -> DatabaseFault {
        DatabaseFault::OutOfMemory
    }
}

impl From<TableFault> for DatabaseFault {
    fn from(fault: TableFault) -> DatabaseFault {
        match fault {
            TableFault::OutOfMemory => DatabaseFault::OutOfMemory,
            fault => DatabaseFault::Tables(fault),
        }
    }
}

impl From<SqliteError> for DatabaseFault {
    fn from(error: SqliteError) -> DatabaseFault {
        match error {
            SqliteError::SqliteFailure(ErrorCode::OutOfMemory) => DatabaseFault::OutOfMemory,
            error => DatabaseFault::Sqlite(error),
        }
    }
}

impl From<StoreError> for DatabaseFault {
    fn from(error: StoreError) -> DatabaseFault {
        let code = match error {
            StoreError::OutOfMemory => return DatabaseFault::OutOfMemory,
            StoreError::Io => ErrorCode::SystemIoFailure,
            StoreError::Corrupt => ErrorCode::DatabaseCorrupt,
            StoreError::Full => ErrorCode::DiskFull,
            StoreError::Broken => ErrorCode::Closed,
            StoreError::Unstorable => ErrorCode::TooBig,
        };
        DatabaseFault::Sqlite(SqliteError::SqliteFailure(code))
    }
}
