//! What a run of the program is to do, and how it ends, over a runtime. If standard error takes no line, the status
//! says all.

ghost use Rattle.std.specs.Prelude.{IfOk, IfSome};
ghost use Rattle.dl_sqlite.specs.Image.{IsReadFromSome};

use crate::command::{options, unreadable};
use crate::fault::RunError;
use crate::settings::Options;
use crate::status::{FAILED, RAN, command_status, words_status};
use clap::error::ErrorKind;
use dl_haxl::RunFault;
use dl_history::CallFault;
use dl_scope::ScopeFault;
use dl_source::Tables;
use dl_sqlite::{DatabaseFault, read_file};
use std::alloc::{AllocError, Global};
use std::hash::RandomState;
use std::random::RandomSource;
use std::rt::{Env, Files};
use std::{env, io};

// ---- what to do

/// The options of the command line, with the tables of the database that it names, and random numbers of this run to
/// hash keys by, since keys come from strangers. If there is a document to migrate, no database is read.
///
/// # Errors
/// The status for the program to end with, once standard error says why in a line.
pub fn asked<R: Env + RandomSource + Print + Eprint + AllocGlobal + Files>(
    rt: &R,
) -> Result<(Options, RandomState), u8>
    ensures { IfOk result (λ asked. IfSome asked.0.database IsReadFromSome) }
{
    let (options, file) = given(rt)?;
    let (database, hashing) = database(rt, &options, &file)?;
    Ok((options.with_database(database), hashing))
}

/// The tables of the database in this file, unless there is a document to migrate, and random numbers of this run to hash
/// keys by. Fails as [`asked`] does.
fn database<R: RandomSource + Eprint + AllocGlobal + Files>(
    rt: &R,
    options: &Options,
    file: &Option<String>,
) -> Result<(Option<Tables>, RandomState), u8>
    ensures { IfOk result (λ read. IfSome read.0 IsReadFromSome) }
{
    let hashing = hashing(rt)?;
    match file {
        Some(file) if options.migrate.is_none() => {
            let tables = database_tables(rt, hashing, file.as_str())?;
            Ok((Some(tables), hashing))
        }
        _ => Ok((None, hashing)),
    }
}

/// Random numbers of this run to hash keys by. Fails as [`asked`] does.
fn hashing<R: RandomSource + Eprint>(rt: &R) -> Result<RandomState, u8> {
    match RandomState::new(rt) {
        Ok(hashing) => Ok(hashing),
        Err(_) => {
            let _ = eprintln!(rt; "failed: random numbers");
            Err(FAILED)
        }
    }
}

/// The tables of the database in this file. Fails as [`asked`] does.
fn database_tables<R: Eprint + AllocGlobal + Files>(
    rt: &R,
    hashing: RandomState,
    file: &str,
) -> Result<Tables, u8>
    ensures { IfOk result IsReadFromSome }
{
    match read_file(rt, rt.alloc(), hashing, file) {
        Ok(tables) => Ok(tables),
        Err(fault) => {
            tell_unread_database(rt, &fault);
            Err(FAILED)
        }
    }
}

/// Says why a database isn't read.
fn tell_unread_database<R: Eprint + AllocGlobal>(rt: &R, fault: &DatabaseFault) {
    let _ = match in_one_line(rt.alloc(), fault) {
        Ok(text) => eprintln!(rt; "failed: database: {text}"),
        Err(_) => eprintln!(rt; "{}", RunError::OutOfMemory),
    };
}

/// The text of a fault. A name in it may have any characters: those that would end a line are spaces. Fails if memory
/// runs out, or ran out before.
fn in_one_line(alloc: Global, fault: &DatabaseFault) -> Result<String, AllocError> {
    if let DatabaseFault::OutOfMemory = fault {
        return Err(AllocError);
    }
    let text = format!(in alloc; "{fault}")?;
    text.chars()
        .map(|letter| if letter.is_control() { ' ' } else { letter })
        .collect(alloc)
}

/// What the command line gives. Fails as [`asked`] does.
fn given<R: Env + Print + Eprint + AllocGlobal>(rt: &R) -> Result<(Options, Option<String>), u8> {
    match words(rt) {
        Ok(words) => given_by(rt, &words),
        Err(error) => {
            tell_unread(rt, &error);
            Err(words_status(&error))
        }
    }
}

/// The words behind the program's name. Fails if memory runs out, or a word isn't UTF-8.
fn words<R: Env + AllocGlobal>(rt: &R) -> io::Result<Vec<String>> {
    let words = env::args(rt)?.skip(1).collect(rt.alloc())?;
    Ok(words)
}

/// Says why the words can't be read: memory ran out, or one isn't UTF-8.
fn tell_unread<R: Print + Eprint + AllocGlobal>(rt: &R, error: &io::Error) {
    let _ = match error.kind() {
        io::ErrorKind::OutOfMemory => eprintln!(rt; "{}", RunError::OutOfMemory),
        _ => unreadable(rt.alloc()).print(rt),
    };
}

/// What these words give. Fails as [`asked`] does.
fn given_by<R: Print + Eprint + AllocGlobal>(
    rt: &R,
    words: &[String],
) -> Result<(Options, Option<String>), u8> {
    match options(rt.alloc(), words) {
        Ok(given) => Ok(given),
        Err(error) => {
            tell_no_options(rt, &error);
            Err(command_status(&error))
        }
    }
}

/// Says why the words give no options: memory ran out, or clap refuses them, or they ask for help, which it prints.
fn tell_no_options<R: Print + Eprint>(rt: &R, error: &clap::Error) {
    let _ = match error.kind() {
        ErrorKind::OutOfMemory => eprintln!(rt; "{}", RunError::OutOfMemory),
        _ => error.print(rt),
    };
}

// ---- how it ends

/// The status of a run. If the run failed, says why in a line on standard error. If you want it explained why plans
/// weren't served, a line in front of it does, by the most bytes that the answers of a plan could take.
pub fn told<R: Eprint>(
    rt: &R,
    ran: &Result<(), RunError>,
    explain: bool,
    max_answer: Option<u64>,
) -> u8 {
    match ran {
        Ok(()) => RAN,
        Err(error) => {
            if explain {
                tell_unserved(rt, error, max_answer);
            }
            let _ = eprintln!(rt; "{error}");
            error.status()
        }
    }
}

/// Says which limit a plan met, or what a worker may have met. A worker leaves no cause.
fn tell_unserved<R: Eprint>(rt: &R, error: &RunError, max_answer: Option<u64>) {
    let _ = match error {
        RunError::Run(ScopeFault::Run { plan, fault }) => match fault {
            RunFault::Call(CallFault::CellsFull { limit }) => {
                eprintln!(rt;
                    "plan {plan} needs more cells than maxCells, {limit}: give it more, at most 65536"
                )
            }
            RunFault::Call(CallFault::LogFull { limit }) => {
                eprintln!(rt;
                    "plan {plan} needs more calls than maxCalls, {limit}: give it more, at most 65536"
                )
            }
            RunFault::OutOfMemory => tell_no_room(rt, *plan, max_answer),
            _ => eprintln!(rt; "plan {plan}: {fault}"),
        },
        RunError::Run(ScopeFault::Stopped) => {
            eprintln!(rt; "a worker couldn't end its batch: give maxCalls more, or memory ran out")
        }
        _ => Ok(()),
    };
}

/// Says that a plan met the most bytes that its answers could take, or that memory ran out.
fn tell_no_room<R: Eprint>(rt: &R, plan: u32, max_answer: Option<u64>) -> io::Result<()> {
    match max_answer {
        Some(most) => {
            eprintln!(rt;
                "plan {plan} needs more than --max-answer, {most} bytes, or memory ran out"
            )
        }
        None => eprintln!(rt; "plan {plan}: {}", RunFault::OutOfMemory),
    }
}
