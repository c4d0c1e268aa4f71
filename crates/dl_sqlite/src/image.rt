//! Reads a database from its bytes.

ghost use Rattle.std.specs.Prelude.{◌≡◌, ◌≢◌, true, IsTrue, IfOk, IfErr};
ghost use Rattle.sqlite_disk.specs.Memory.{memory_bytes, memory_is_usable};
ghost use Rattle.sqlite.specs.Files.{file_state};
ghost use Rattle.dl_sqlite.specs.Image.{IsReadFrom, RecoversTo, begins_well, image_from};
ghost use Rattle.dl_sqlite.specs.Read.{AreRowsOf};

use crate::fault::DatabaseFault;
use crate::header::header_fault;
use crate::read::read_tables;
use dl_source::Tables;
use sqlite::{Connection, Error, ErrorCode, FileStore, Files, Options};
use sqlite_disk::{Disk, Memory};
use std::alloc::Global;
use std::hash::RandomState;

/// How SQLite's part here says that a disk failed.
const DISK_FAILED: Error = Error::SqliteFailure(ErrorCode::SystemIoFailure);

/// Reads all rows of the database that these bytes are, once: those of a database's file, and those of its log, which is the file with
/// the same name and `-wal` behind it. If there is none, pass no bytes. A commit that is in the log counts, as it does for SQLite.
///
/// It opens a copy of the bytes in memory. So no disk can fail or lie, and you need no premise on one.
///
/// # Errors
/// `NotADatabase`, `CutOff`, `Setting`, `Damaged` or `Unsound` if the bytes are no database that can be read here; else those of
/// [`read_tables`], of which `Sqlite` never says that a disk failed.
pub fn read_image(
    alloc: Global,
    hashing: RandomState,
    file: &[u8],
    log: &[u8],
) -> Result<Tables, DatabaseFault>
    ensures rows { IfOk result (IsReadFrom file.now log.now) }
    ensures no_disk { IfErr result (λ fault. fault ≢ DatabaseFault.Sqlite DISK_FAILED) }
{
    match read_copy(alloc, hashing, file, log) {
        Ok(tables) => Ok(tables),
        Err(fault) => Err(without_disk(fault)),
    }
}

/// Reads all rows of the database that a copy of these bytes is.
fn read_copy(
    alloc: Global,
    hashing: RandomState,
    file: &[u8],
    log: &[u8],
) -> Result<Tables, DatabaseFault>
    ensures { IfOk result (IsReadFrom file.now log.now) }
{
    let conn = opened(alloc, file, log)?;
    read_files(alloc, hashing, conn)
}

/// Reads all rows of a database in files of any kind, since for those in memory alone the proof takes three times as long.
fn read_files<D: Disk + Drop>(
    alloc: Global,
    hashing: RandomState,
    conn: Connection<FileStore<D>>,
) -> Result<Tables, DatabaseFault>
    ensures { IfOk result (λ tables. ((file : D) → D.Disk.is_clean file ≡ true) → AreRowsOf (file_state conn).now tables) }
{
    let (tables, _store) = read_tables(alloc, hashing, conn)?;
    Ok(tables)
}

/// A fault of files in memory. They fail only if memory runs out, which SQLite's part here takes for a disk's failure.
fn without_disk(fault: DatabaseFault) -> DatabaseFault
    ensures no_disk { result ≢ DatabaseFault.Sqlite DISK_FAILED }
    ensures disk { fault ≡ DatabaseFault.Sqlite DISK_FAILED → result ≡ DatabaseFault.OutOfMemory }
    ensures others { fault ≢ DatabaseFault.Sqlite DISK_FAILED → result ≡ fault }
{
    match fault {
        DatabaseFault::Sqlite(Error::SqliteFailure(ErrorCode::SystemIoFailure)) => {
            DatabaseFault::OutOfMemory
        }
        fault => fault,
    }
}

/// A connection to a copy of the database that these bytes are.
fn opened(
    alloc: Global,
    file: &[u8],
    log: &[u8],
) -> Result<Connection<FileStore<Memory>>, DatabaseFault>
    ensures { IfOk result (λ conn. RecoversTo (image_from file.now log.now) (file_state conn).now) }
{
    if !begins_well(file) {
        return Err(DatabaseFault::NotADatabase);
    }
    let log_copy = in_memory(alloc, log)?;
    let copy = in_memory(alloc, file)?;
    let files = Files {
        log: log_copy,
        db: copy,
    };
    // The seed is for the salts of a log that no disk gets.
    match Connection::open_files(alloc, files, Options::new(0)) {
        Ok(conn) => Ok(conn),
        Err((error, _files)) => Err(unopened(file, log, error)),
    }
}

/// Whether the bytes begin as those of a SQLite database do.
fn begins_well(file: &[u8]) -> bool
    ensures { result ≡ begins_well file.now }
{
    &file[..file.len().min(16)] == b"SQLite format 3\0".as_slice()
}

/// A file in memory with these bytes.
fn in_memory(alloc: Global, bytes: &[u8]) -> Result<Memory, DatabaseFault>
    ensures bytes { IfOk result (λ file. memory_bytes file ≡ bytes.now) }
    ensures usable { IfOk result (λ file. IsTrue (memory_is_usable file)) }
{
    let mut file = Memory::new(alloc);
    match file.write_at(0, bytes) {
        Ok(()) => Ok(file),
        Err(_) => Err(DatabaseFault::OutOfMemory),
    }
}

/// Why SQLite's part here doesn't open these bytes: what the header of the file says, or else what kind of error it was.
fn unopened(file: &[u8], log: &[u8], error: Error) -> DatabaseFault {
    match error {
        Error::SqliteFailure(ErrorCode::NotADatabase) => header_fault(file, log).unwrap_or(
            DatabaseFault::Unsound,
        ),
        Error::SqliteFailure(ErrorCode::DatabaseCorrupt) => header_fault(file, log).unwrap_or(
            DatabaseFault::Damaged,
        ),
        error => DatabaseFault::from(error),
    }
}
