//! Callers that make calls of their own.

ghost use Rattle.std.specs.Prelude.{◌≡◌};
ghost use Rattle.dl_desk.specs.Service.{Answers};
ghost use Rattle.dl_values.specs.Answering.{function};
ghost use Rattle.dl_loader.specs.Opening.{Names};
ghost use Rattle.histories.specs.Restless.{answer_restless};

use crate::event_text::push_history;
use crate::restless::{Drawn, Restless};
use anyhow::Result;
use dl_desk::{FetchKey, Limits, Message, Outcome, TableLimits};
use dl_loader::{CallFault, Loader, LoaderName, MOST_CALLERS, Opening, Pass, end_jobs};
use dl_picture::Sheet;
use dl_source::Source;
use std::alloc::{AllocError, AllocGlobal, Global};
use std::hash::RandomState;
use std::marker::Brand;
use std::sync::Wait;
use std::thread::{self, Threads};

/// The number of calls that each caller makes, not counting the ends of what it dispatches.
const CALLS: u64 = 24;

/// The tables of the keys that callers use.
static TABLES: [&str; 4] = ["user", "post", "own0", "shop"];

static IDS: [&str; 8] = ["a", "b", "c", "d", "e", "f", "1", "2"];

/// The text of the history that callers leave, each with calls on a thread of its own, as the source draws them.
pub(crate) fn called<R: AllocGlobal + Threads + Wait + Sync>(
    rt: &R,
    hashing: RandomState,
    source: &Restless,
    limits: Limits,
    tables: Option<TableLimits>,
    callers: u32,
) -> Result<String> {
    let alloc = rt.alloc();
    let opening = match tables {
        None => Opening::new(alloc, hashing, source, limits, callers)?,
        Some(tables) => Opening::by_table(alloc, hashing, source, limits, tables, callers)?,
    };
    use_loader::<Brand, _>(rt, alloc, source, opening)
}

/// The text of the history of the loader of an opening, which `L` names.
fn use_loader<L: LoaderName + Send + Sync, R: Threads + Wait + Sync>(
    rt: &R,
    alloc: Global,
    source: &Restless,
    opening: Opening<'_, Restless>,
) -> Result<String>
    requires source { opening.source ≡ source.now }
    requires names { Names (function answer_restless) opening L.service L.parts L.cells L.name }
{
    let (loader, mut passes) = Loader::<L>::start(alloc, opening)?;
    call_by_each(rt, alloc, source, &loader, passes.as_mut_slice());
    end_by_each(rt, alloc, source, &loader, passes.as_mut_slice())?;
    close(alloc, loader, passes)
}

/// Closes a loader, and gives you the text of its history.
fn close<L: LoaderName>(alloc: Global, loader: Loader<L>, passes: Vec<Pass<L>>) -> Result<String> {
    match loader.close(alloc, passes) {
        Ok(history) => {
            let mut sheet = Sheet::new(alloc);
            push_history(&mut sheet, &history);
            Ok(sheet.finish()?)
        }
        Err((fault, _, _)) => Err(fault.into()),
    }
}

/// Each caller makes its calls on a thread of its own.
fn call_by_each<L: LoaderName + Send + Sync, S: Source + Drawn + Sync, R: Threads + Wait + Sync>(
    rt: &R,
    alloc: Global,
    source: &S,
    loader: &Loader<L>,
    passes: &mut [Pass<L>],
)
    requires { Answers (S.answer source.now) L.service }
{
    thread::for_each_mut(
        rt,
        passes,
        MOST_CALLERS as usize,
        &|caller: usize, pass: &mut Pass<L>|
            requires { Answers (S.answer source.now) L.service }
        { call_or_stop(rt, alloc, source, loader, pass, caller) },
    );
}

/// Makes the calls of a caller. If one fails, it stops the loader, so that no other caller waits for ever.
fn call_or_stop<L: LoaderName, S: Source + Drawn, R: Wait>(
    rt: &R,
    alloc: Global,
    source: &S,
    loader: &Loader<L>,
    pass: &mut Pass<L>,
    caller: usize,
)
    requires { Answers (S.answer source.now) L.service }
{
    let first = (caller as u64).saturating_mul(CALLS);
    for number in 0..CALLS {
        let drawn = source.drawn(first.saturating_add(number));
        source.rest();
        if call(rt, alloc, source, loader, pass, drawn).is_err() {
            loader.stop(rt);
            return;
        }
    }
}

/// Makes the call that the number draws.
fn call<L: LoaderName, S: Source + Drawn, R: Wait>(
    rt: &R,
    alloc: Global,
    source: &S,
    loader: &Loader<L>,
    pass: &mut Pass<L>,
    drawn: u64,
) -> Result<(), CallFault>
    requires { Answers (S.answer source.now) L.service }
{
    let number = drawn / 16;
    match drawn % 16 {
        0..=4 => load(rt, alloc, loader, pass, number),
        5 => prime(rt, alloc, loader, pass, number),
        6 => clear(rt, alloc, loader, pass, number),
        7 => loader.clear_all(rt, alloc, pass),
        8 => end_all(rt, alloc, source, loader, pass),
        _ => {
            let keys = keys(alloc, number)?;
            round(rt, alloc, source, loader, pass, &keys)
        }
    }
}

/// The key that the number draws. Fails if memory runs out.
fn key(alloc: Global, drawn: u64) -> Result<FetchKey, AllocError> {
    let table = TABLES[(drawn % 4) as usize];
    let id = IDS[(drawn / 4 % 8) as usize];
    FetchKey::new(alloc, table, id).or(Err(AllocError))
}

/// The three keys that the number draws. Fails if memory runs out.
fn keys(alloc: Global, drawn: u64) -> Result<[FetchKey; 3], AllocError> {
    let first = key(alloc, drawn)?;
    let second = key(alloc, drawn / 32)?;
    Ok([first, second, key(alloc, drawn / 1_024)?])
}

/// Loads the key that the number draws.
fn load<L: LoaderName, R: Wait>(
    rt: &R,
    alloc: Global,
    loader: &Loader<L>,
    pass: &mut Pass<L>,
    drawn: u64,
) -> Result<(), CallFault> {
    let key = key(alloc, drawn)?;
    loader.load(rt, alloc, pass, &key)?;
    Ok(())
}

/// Primes the key that the number draws with an error.
fn prime<L: LoaderName, R: Wait>(
    rt: &R,
    alloc: Global,
    loader: &Loader<L>,
    pass: &mut Pass<L>,
    drawn: u64,
) -> Result<(), CallFault> {
    let key = key(alloc, drawn)?;
    let outcome = Outcome::KeyError(Message::new(alloc, "primed")?);
    loader.prime(rt, alloc, pass, &key, outcome)?;
    Ok(())
}

/// Clears the key that the number draws.
fn clear<L: LoaderName, R: Wait>(
    rt: &R,
    alloc: Global,
    loader: &Loader<L>,
    pass: &mut Pass<L>,
    drawn: u64,
) -> Result<(), CallFault> {
    let key = key(alloc, drawn)?;
    loader.clear(rt, alloc, pass, &key)
}

/// Each caller in turn sends what has not gone out, and ends it.
fn end_by_each<L: LoaderName, S: Source, R: Wait>(
    rt: &R,
    alloc: Global,
    source: &S,
    loader: &Loader<L>,
    passes: &mut [Pass<L>],
) -> Result<(), CallFault>
    requires { Answers (S.answer source.now) L.service }
{
    for pass in passes {
        end_all(rt, alloc, source, loader, pass)?;
    }
    Ok(())
}

/// Sends what has not gone out, and ends it.
fn end_all<L: LoaderName, S: Source, R: Wait>(
    rt: &R,
    alloc: Global,
    source: &S,
    loader: &Loader<L>,
    pass: &mut Pass<L>,
) -> Result<(), CallFault>
    requires { Answers (S.answer source.now) L.service }
    ensures tickets { pass.new.trace.tickets ≡ pass.old.trace.tickets }
{
    let jobs = loader.dispatch(rt, alloc, pass)?;
    end_jobs(rt, alloc, loader, source, pass, jobs)
}

/// Loads keys in one call, sends what has not gone out, ends it, and reads each outcome.
fn round<L: LoaderName, S: Source, R: Wait>(
    rt: &R,
    alloc: Global,
    source: &S,
    loader: &Loader<L>,
    pass: &mut Pass<L>,
    keys: &[FetchKey],
) -> Result<(), CallFault>
    requires { Answers (S.answer source.now) L.service }
{
    let tickets = loader.load_many(rt, alloc, pass, keys)?;
    end_all(rt, alloc, source, loader, pass)?;
    for mut ticket in tickets {
        loader.wait(rt, pass, &mut ticket)?;
        pass.saw(&mut ticket);
    }
    Ok(())
}
