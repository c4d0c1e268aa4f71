//! Answers the connection that a program has as its standard input and output. If standard error takes no line, the status
//! says all.

ghost use Rattle.std.specs.Prelude.{IfOk, IfSome};
ghost use Rattle.dl_sqlite.specs.Image.{IsReadFromSome};
ghost use Rattle.dl_server.specs.Source.{IsSource};

use crate::connection::serve_connection;
use crate::source::{ListFault, listed_tables};
use dl_plans::{Options, RunError};
use dl_source::Tables;
use std::hash::RandomState;
use std::rt::Files;
use std::sync::Wait;
use std::thread::Threads;
use std::{fs, io};

/// The status of a connection that ended, and of any failure.
const RAN: u8 = 0;

const FAILED: u8 = 3;

/// Answers the requests on standard input, as the options say: the tables of the file that they name answer too, or else those
/// of their database. Gives the status for the program to end with, once a line on standard error says what failed if
/// something did: the file of the tables, or reading from or writing to the client.
///
/// # Examples
/// The program `plans` calls it if its words say `serve`, in `crates/plans`:
///
/// ```rust
/// Ok((options, hashing)) if options.serve => serve_standard(&rt, hashing, options),
/// ```
pub fn serve_standard<R: Input + Print + Eprint + AllocGlobal + Threads + Wait + Files>(
    rt: &R,
    hashing: RandomState,
    options: Options,
) -> u8
    requires { IfSome options.database IsReadFromSome }
{
    match over_tables(rt, hashing, options) {
        Ok(options) => told(rt, &answered(rt, hashing, &options)),
        Err(status) => status,
    }
}

/// Answers the requests on standard input.
fn answered<R: Input + Print + AllocGlobal + Threads + Wait>(
    rt: &R,
    hashing: RandomState,
    options: &Options,
) -> io::Result<()> {
    let (mut reader, mut writer) = (rt.reader(), io::writer(rt));
    serve_connection(rt, rt.alloc(), hashing, &mut reader, &mut writer, options)
}

/// The options with the tables of the file that they name, if they name one. Fails with the status for the program to end
/// with, once standard error says why in a line.
fn over_tables<R: Eprint + AllocGlobal + Files>(
    rt: &R,
    hashing: RandomState,
    options: Options,
) -> Result<Options, u8>
    requires { IfSome options.database IsReadFromSome }
    ensures { IfOk result (λ o. IfSome o.database IsSource) }
{
    match &options.tables {
        Some(file) => {
            let tables = tables_in(rt, hashing, file.as_str())?;
            Ok(options.with_database(Some(tables)))
        }
        None => Ok(options),
    }
}

/// The tables that this file lists. Fails as [`over_tables`] does.
fn tables_in<R: Eprint + AllocGlobal + Files>(
    rt: &R,
    hashing: RandomState,
    file: &str,
) -> Result<Tables, u8>
    ensures { IfOk result IsSource }
{
    let bytes = match fs::read(rt, file) {
        Ok(bytes) => bytes,
        Err(error) => {
            tell_unread_tables(rt, &error);
            return Err(FAILED);
        }
    };
    match listed_tables(rt.alloc(), hashing, bytes.as_slice()) {
        Ok(tables) => Ok(tables),
        Err(fault) => {
            tell_unlisted(rt, fault);
            Err(FAILED)
        }
    }
}

/// Says why the file of tables can't be read.
fn tell_unread_tables<R: Eprint>(rt: &R, error: &io::Error) {
    let _ = match error.kind() {
        io::ErrorKind::OutOfMemory => eprintln!(rt; "{}", RunError::OutOfMemory),
        _ => eprintln!(rt; "failed: tables: {error}"),
    };
}

/// Says why a file lists no tables.
fn tell_unlisted<R: Eprint>(rt: &R, fault: ListFault) {
    let _ = match fault {
        ListFault::OutOfMemory => eprintln!(rt; "{}", RunError::OutOfMemory),
        fault => eprintln!(rt; "failed: tables: {fault}"),
    };
}

/// The status of a connection. If its reader or its writer failed, says so in a line on standard error.
fn told<R: Eprint>(rt: &R, ended: &io::Result<()>) -> u8 {
    match ended {
        Ok(()) => RAN,
        Err(error) => {
            let _ = eprintln!(rt; "failed: connection: {error}");
            FAILED
        }
    }
}
