//! The workloads of callers of a shared loader.

ghost use Rattle.std.specs.Prelude.{◌≡◌};
ghost use Rattle.dl_desk.specs.Service.{Answers};
ghost use Rattle.dl_loader.specs.Opening.{Names};

use crate::alike::Alike;
use crate::command::Callers;
use crate::counts::Counts;
use crate::keys::{keys_from, keys_of, limits};
use crate::scene::Scene;
use anyhow::Result;
use dl_desk::{FetchKey, Keys, Limits};
use dl_loader::{CallFault, History, Loader, LoaderName, MOST_CALLERS, Opening, Pass, end_jobs};
use dl_source::Source;
use std::alloc::{AllocError, Global};
use std::marker::Brand;
use std::sync::Wait;
use std::thread::Threads;
use std::{slice, thread};

/// The most keys of a batch, if there are several callers.
const BATCH: u32 = 64;

/// The number of hot keys: of twenty loads of a caller, nineteen are of these.
const HOT: u32 = 19;

/// Calls of a loader over a source that answers every key `null`. It closes the loader at the end.
///
/// One caller makes a round for each batch of at most `most` keys. With threads, `most` callers, each on a thread of
/// its own, load the same keys, one by one, or each its own keys and after each of these the hot ones. After all of
/// them the first ends what has not gone out.
pub(crate) fn on_loader<R: Threads + Wait + Sync>(
    scene: &Scene<'_, R>,
    counts: &mut Counts,
    callers: Callers,
    keys: u32,
    most: u32,
) -> Result<()> {
    let (batch, passes, of_each) = match callers {
        Callers::One => (most, 1, keys),
        Callers::Threads => (BATCH, most, keys),
        Callers::Hot => (BATCH, most, keys.saturating_mul(HOT.saturating_add(1))),
    };
    let limits = limits(batch)?;
    let lists = lists_of(scene.alloc, callers, keys, passes)?;
    counts.history(&called(scene, callers, &lists, limits, passes)?);
    let loads = u64::from(of_each).saturating_mul(u64::from(passes));
    counts.hits = loads.saturating_sub(counts.cells);
    Ok(())
}

/// The keys that all callers load, and if these are hot, also a list of each caller's own.
fn lists_of(
    alloc: Global,
    callers: Callers,
    keys: u32,
    passes: u32,
) -> Result<Vec<Keys>, AllocError> {
    let mut lists = Vec::new(alloc);
    let Callers::Hot = callers else {
        lists.push(Keys::new(alloc, keys_of(alloc, keys)?)?)?;
        return Ok(lists);
    };
    lists.push(Keys::new(alloc, keys_of(alloc, HOT)?)?)?;
    for caller in 0..passes {
        let first = caller.saturating_mul(keys).saturating_add(HOT);
        lists.push(Keys::new(alloc, keys_from(alloc, first, keys)?)?)?;
    }
    Ok(lists)
}

/// The calls on a loader with this many callers, and its history.
fn called<R: Threads + Wait + Sync>(
    scene: &Scene<'_, R>,
    callers: Callers,
    lists: &[Keys],
    limits: Limits,
    passes: u32,
) -> Result<History> {
    let source = Alike::null(scene.alloc)?;
    let opening = Opening::new(scene.alloc, scene.hashing, &source, limits, passes)?;
    each_call::<Brand, _, _>(scene, &source, opening, callers, lists, limits)
}

/// The calls on the loader of an opening, which `L` names, and its history.
fn each_call<L: LoaderName + Send + Sync, S: Source, R: Threads + Wait + Sync>(
    scene: &Scene<'_, R>,
    source: &S,
    opening: Opening<'_, S>,
    callers: Callers,
    lists: &[Keys],
    limits: Limits,
) -> Result<History>
    requires source { opening.source ≡ source.now }
    requires names { Names S.answer opening L.service L.parts L.cells L.name }
{
    let (loader, mut passes) = Loader::<L>::start(scene.alloc, opening)?;
    let called = match callers {
        Callers::One => rounds(scene, source, &loader, &mut passes, lists, limits),
        Callers::Threads | Callers::Hot => {
            load_at_once(scene, source, &loader, &mut passes, lists)
        }
    };
    called?;
    close(scene.alloc, loader, passes)
}

/// Closes a loader, and gives you its history.
pub(crate) fn close<L: LoaderName>(
    alloc: Global,
    loader: Loader<L>,
    passes: Vec<Pass<L>>,
) -> Result<History> {
    match loader.close(alloc, passes) {
        Ok(history) => Ok(history),
        Err((fault, _, _)) => Err(fault.into()),
    }
}

/// A round of the first caller for each batch of keys.
fn rounds<L: LoaderName, S: Source, R: Wait>(
    scene: &Scene<'_, R>,
    source: &S,
    loader: &Loader<L>,
    passes: &mut [Pass<L>],
    lists: &[Keys],
    limits: Limits,
) -> Result<(), CallFault>
    requires { Answers (S.answer source.now) L.service }
{
    if let (Some(pass), Some(keys)) = (passes.first_mut(), lists.first()) {
        for part in keys.as_slice().chunks(limits.max_batch() as usize) {
            round(scene, source, loader, pass, part)?;
        }
    }
    Ok(())
}

/// Loads keys in one call, dispatches, settles the jobs, and reads each outcome.
fn round<L: LoaderName, S: Source, R: Wait>(
    scene: &Scene<'_, R>,
    source: &S,
    loader: &Loader<L>,
    pass: &mut Pass<L>,
    keys: &[FetchKey],
) -> Result<(), CallFault>
    requires { Answers (S.answer source.now) L.service }
{
    let (rt, alloc) = (scene.rt, scene.alloc);
    let tickets = loader.load_many(rt, alloc, pass, keys)?;
    end_all(scene, source, loader, pass)?;
    for mut ticket in tickets {
        loader.wait(rt, pass, &mut ticket)?;
        pass.saw(&mut ticket);
    }
    Ok(())
}

/// Each caller loads its keys on a thread of its own. After all of them the first ends what has not gone out.
fn load_at_once<L: LoaderName + Send + Sync, S: Source, R: Threads + Wait + Sync>(
    scene: &Scene<'_, R>,
    source: &S,
    loader: &Loader<L>,
    passes: &mut [Pass<L>],
    lists: &[Keys],
) -> Result<(), CallFault>
    requires { Answers (S.answer source.now) L.service }
{
    load_by_each(scene.rt, scene.alloc, loader, passes, lists);
    match passes.first_mut() {
        Some(pass) => end_all(scene, source, loader, pass),
        None => Ok(()),
    }
}

/// Dispatches, and settles the jobs.
fn end_all<L: LoaderName, S: Source, R: Wait>(
    scene: &Scene<'_, R>,
    source: &S,
    loader: &Loader<L>,
    pass: &mut Pass<L>,
) -> Result<(), CallFault>
    requires { Answers (S.answer source.now) L.service }
    ensures tickets { pass.new.trace.tickets ≡ pass.old.trace.tickets }
{
    let (rt, alloc) = (scene.rt, scene.alloc);
    let jobs = loader.dispatch(rt, alloc, pass)?;
    end_jobs(rt, alloc, loader, source, pass, jobs)
}

/// Each caller loads its keys, one by one, on a thread of its own.
fn load_by_each<L: LoaderName + Send + Sync, R: Threads + Wait + Sync>(
    rt: &R,
    alloc: Global,
    loader: &Loader<L>,
    passes: &mut [Pass<L>],
    lists: &[Keys],
) {
    thread::for_each_mut(
        rt,
        passes,
        MOST_CALLERS as usize,
        &|at: usize, pass: &mut Pass<L>| load_share(rt, alloc, loader, pass, lists, at),
    );
}

/// Loads the keys of the first list, which all callers load. If the caller at this place has keys of its own, it loads
/// each of these before.
fn load_share<L: LoaderName, R: Wait>(
    rt: &R,
    alloc: Global,
    loader: &Loader<L>,
    pass: &mut Pass<L>,
    lists: &[Keys],
    at: usize,
) {
    let Some((all, own)) = lists.split_first() else {
        return;
    };
    match own.get(at) {
        Some(own) => {
            for key in own.as_slice() {
                load_each(rt, alloc, loader, pass, slice::from_ref(key));
                load_each(rt, alloc, loader, pass, all.as_slice());
            }
        }
        None => load_each(rt, alloc, loader, pass, all.as_slice()),
    }
}

/// Loads the keys one by one. If a load fails, it stops the loader, so that the next call on it fails too.
fn load_each<L: LoaderName, R: Wait>(
    rt: &R,
    alloc: Global,
    loader: &Loader<L>,
    pass: &mut Pass<L>,
    keys: &[FetchKey],
) {
    for key in keys {
        if loader.load(rt, alloc, pass, key).is_err() {
            loader.stop(rt);
            break;
        }
    }
}
