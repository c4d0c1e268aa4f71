//! Reads a database from its file.

ghost use Rattle.std.specs.Prelude.{◌≡◌, IfOk, IfSome, OnOk};
ghost use Rattle.dl_sqlite.specs.Image.{IsReadFrom, IsReadFromSome};

use crate::fault::DatabaseFault;
use crate::image::read_image;
use dl_source::Tables;
use std::alloc::{AllocError, Global};
use std::hash::RandomState;
use std::io::{ErrorKind, Read};
use std::os::unix::fs::MetadataExt;
use std::rt::Files;
use std::{fs, io};

/// Reads all rows of the database in the file at this path, once: those of its last commit, which may be in its log, the file with the
/// same name and `-wal` behind it. It writes to no file.
///
/// It takes no lock. It reads the file and its log, looks for a rollback journal, and reads the two again. If both readings agree, and
/// no journal waits to be played back, the bytes are those that the two files had at that moment, unless some changed and changed back.
/// So also while SQLite writes to the database you get the rows of one commit, or a refusal. That isn't so with its `journal_mode` OFF or
/// MEMORY, since then a change that isn't finished leaves no trace.
///
/// No contract can say what a file gives. So the contract is that of [`read_image`] for some bytes, and that these are the bytes of the
/// files at the path is for you to read in the code.
///
/// # Errors
/// - `NoFile` if there is no file at the path; `NotAFile` or `Unreadable` if it, its log or its journal can't be read.
/// - `Journal` if there is a rollback journal that waits to be played back: without that, the rows may be those of half a change.
/// - `Changed` if the two readings differ.
/// - Else those of [`read_image`].
pub fn read_file<R: Files>(
    rt: &R,
    alloc: Global,
    hashing: RandomState,
    path: &str,
) -> Result<Tables, DatabaseFault>
    ensures { IfOk result IsReadFromSome }
{
    let paths = paths_of(rt, alloc, path)?;
    read_at(rt, alloc, hashing, &paths)
}

/// The paths of a database's file, of its log and of its rollback journal.
#[derive(Drop)]
struct Paths {
    file: String,
    log: String,
    journal: String,
}

/// The paths for a database at this path. As for SQLite, the log and the journal are next to the file that a link leads to.
fn paths_of<R: Files>(rt: &R, alloc: Global, path: &str) -> Result<Paths, DatabaseFault> {
    let file = match rt.canonicalize(alloc, path) {
        Ok(file) => String::from_str(alloc, file.as_str())?,
        Err(error) => return Err(unread(alloc, path, error)),
    };
    Ok(Paths {
        log: format!(in alloc; "{file}-wal")?,
        journal: format!(in alloc; "{file}-journal")?,
        file,
    })
}

/// The bytes of a database's file and of its log, as one reading gave them.
#[derive(Drop)]
struct Reading {
    file: Vec<u8>,
    log: Vec<u8>,
}

/// Reads all rows of the database at these paths.
fn read_at<R: Files>(
    rt: &R,
    alloc: Global,
    hashing: RandomState,
    paths: &Paths,
) -> Result<Tables, DatabaseFault>
    ensures { IfOk result IsReadFromSome }
{
    let first = read_both(rt, alloc, paths)?;
    let second = read_again(rt, alloc, paths)?;
    read_agreed(alloc, hashing, paths.file.as_str(), &first, second)
}

/// Looks for a rollback journal, and reads the two again.
fn read_again<R: Files>(rt: &R, alloc: Global, paths: &Paths) -> Result<Reading, DatabaseFault> {
    check_journal(rt, alloc, paths.journal.as_str())?;
    read_both(rt, alloc, paths)
}

/// Reads the file, and then its log.
fn read_both<R: Files>(rt: &R, alloc: Global, paths: &Paths) -> Result<Reading, DatabaseFault> {
    let file = file_bytes(rt, alloc, paths.file.as_str())?;
    let log = log_bytes(rt, alloc, paths.log.as_str())?;
    Ok(Reading { file, log })
}

/// The bytes of the file at this path, which must be there.
fn file_bytes<R: Files>(rt: &R, alloc: Global, path: &str) -> Result<Vec<u8>, DatabaseFault> {
    match bytes_at(rt, alloc, path)? {
        Some(bytes) => Ok(bytes),
        None => Err(DatabaseFault::NoFile(String::from_str(alloc, path)?)),
    }
}

/// The bytes of the log at this path, which may be missing.
fn log_bytes<R: Files>(rt: &R, alloc: Global, path: &str) -> Result<Vec<u8>, DatabaseFault> {
    match bytes_at(rt, alloc, path)? {
        Some(bytes) => Ok(bytes),
        None => Ok(Vec::new(alloc)),
    }
}

/// Rejects a rollback journal that waits to be played back. One that is empty, or begins with a zero, doesn't.
fn check_journal<R: Files>(rt: &R, alloc: Global, path: &str) -> Result<(), DatabaseFault> {
    match bytes_at(rt, alloc, path)? {
        Some(journal) if journal.first().is_some_and(|byte| *byte != 0) => Err(
            DatabaseFault::Journal(String::from_str(alloc, path)?),
        ),
        _ => Ok(()),
    }
}

/// Reads the database that two readings of the file at this path gave, if they agree.
fn read_agreed(
    alloc: Global,
    hashing: RandomState,
    path: &str,
    first: &Reading,
    second: Reading,
) -> Result<Tables, DatabaseFault>
    ensures rows { IfOk result (IsReadFrom first.now.file.items first.now.log.items) }
    ensures agree { OnOk result ((first.now.file.items ≡ second.file.items) × (first.now.log.items ≡ second.log.items)) }
{
    if first.file != second.file || first.log != second.log {
        return Err(DatabaseFault::Changed(String::from_str(alloc, path)?));
    }
    drop(second);
    read_image(alloc, hashing, first.file.as_slice(), first.log.as_slice())
}

/// The bytes of the file at this path, or `None` if there is nothing.
fn bytes_at<R: Files>(rt: &R, alloc: Global, path: &str) -> Result<Option<Vec<u8>>, DatabaseFault> {
    match fs::symlink_metadata(rt, path) {
        Ok(found) if found.is_file() && found.nlink() <= 1 => {}
        Ok(_) => return Err(DatabaseFault::NotAFile(String::from_str(alloc, path)?)),
        Err(error) if error.kind() == ErrorKind::NotFound => return Ok(None),
        Err(error) => return Err(unread(alloc, path, error)),
    }
    let file = match fs::open(rt, path) {
        Ok(file) => file,
        Err(error) => return Err(unread(alloc, path, error)),
    };
    match all_bytes(alloc, file) {
        Ok(bytes) => Ok(Some(bytes)),
        Err(error) => Err(unread(alloc, path, error)),
    }
}

/// All bytes that a reader has left.
fn all_bytes<F: Read + Drop>(alloc: Global, mut file: F) -> io::Result<Vec<u8>>
    ensures { IfOk result (λ bytes. IfSome (F.remaining file) (λ left. bytes.items ≡ left)) }
{
    let mut bytes = Vec::new(alloc);
    file.read_to_end(&mut bytes)?;
    Ok(bytes)
}

/// The fault of a file at this path that the system doesn't let be read.
fn unread(alloc: Global, path: &str, error: io::Error) -> DatabaseFault {
    match unread_file(alloc, path, error) {
        Ok(fault) => fault,
        Err(_) => DatabaseFault::OutOfMemory,
    }
}

fn unread_file(alloc: Global, path: &str, error: io::Error) -> Result<DatabaseFault, AllocError> {
    let path = String::from_str(alloc, path)?;
    Ok(match error.kind() {
        ErrorKind::NotFound => DatabaseFault::NoFile(path),
        ErrorKind::OutOfMemory => DatabaseFault::OutOfMemory,
        _ => DatabaseFault::Unreadable { path, error },
    })
}
