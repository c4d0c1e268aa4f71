//! Histories that hosts tell, made again.

ghost use Rattle.std.specs.Prelude.{◌≡◌, ◌<◌, [], length, map, take, slice_get, Some, IfErr, IfOk, OnOk, option_map};
ghost use Rattle.dl_values.specs.Answering.{function};
ghost use Rattle.dl_values.specs.Limits.{rules_by};
ghost use Rattle.dl_desk.specs.Service.{Service};
ghost use Rattle.dl_history.specs.ClosedHistory.{IsHistory};
ghost use Rattle.dl_loader.specs.HostSource.{answer_of};
ghost use Rattle.dl_loader.specs.Opening.{Names};
ghost use Rattle.dl_loader.specs.Book.{Keeps};
ghost use Rattle.dl_replay.specs.Replay.{HasMade, IsForHosts, IsReplayFault, IsWrong, MakesLine};
ghost use Rattle.dl_replay.specs.Told.{line, line_of, lines};

use crate::fault::{ReplayFault, Wrong};
use crate::host_call::make;
use crate::told::Told;
use dl_desk::{DeskCall, Limits, TableLimits};
use dl_history::{CallFault, CloseFault, History, StartFault};
use dl_loader::{HostSource, LoaderName, MOST_CALLERS, Opening, SerialLoader};
use std::alloc::Global;
use std::hash::RandomState;
use std::marker::Brand;

/// Makes the calls of a host again on a loader with these limits, and closes it: you get its history, in which each event
/// is answered as the host says it. A mark is in it for each outcome, since the host has those. `hashing` hashes keys, and
/// nothing that you see depends on it.
///
/// # Errors
/// The first event that can't come where it does, or that is answered otherwise; else why the loader doesn't close, which
/// is that a batch has not ended; or that memory ran out.
pub fn replay(
    alloc: Global,
    hashing: RandomState,
    limits: Limits,
    tables: Option<TableLimits>,
    calls: &[DeskCall],
    told: &[Told],
) -> Result<History, ReplayFault>
    requires { length calls.now ≡ length told.now }
    ensures history { IfOk result (λ h. (service : Service) × (service.rules ≡ rules_by limits tables) × IsHistory service h) }
    ensures events { IfOk result (λ h. map line_of h.events ≡ lines calls.now told.now) }
    ensures fault { IfErr result (λ f. (service : Service) × (service.rules ≡ rules_by limits tables) × IsReplayFault service calls.now told.now f) }
{
    match opening(alloc, hashing, limits, tables) {
        Ok(opening) => with_loader::<Brand>(alloc, opening, calls, told),
        Err(_) => Err(ReplayFault::OutOfMemory),
    }
}

/// The opening of a loader with these limits, for as many callers as may be. Fails if memory runs out.
fn opening(
    alloc: Global,
    hashing: RandomState,
    limits: Limits,
    tables: Option<TableLimits>,
) -> Result<Opening<'static, HostSource>, StartFault>
    ensures { IfOk result (λ o. o.rules ≡ rules_by limits tables) }
{
    match tables {
        None => Opening::new(alloc, hashing, &HostSource, limits, MOST_CALLERS),
        Some(tables) => Opening::by_table(
            alloc,
            hashing,
            &HostSource,
            limits,
            tables,
            MOST_CALLERS,
        ),
    }
}

/// Makes the calls on the loader of an opening, which `L` names, and closes it.
fn with_loader<L: LoaderName>(
    alloc: Global,
    opening: Opening<'_, HostSource>,
    calls: &[DeskCall],
    told: &[Told],
) -> Result<History, ReplayFault>
    requires as_many { length calls.now ≡ length told.now }
    requires names { Names (function answer_of) opening L.service L.parts L.cells L.name }
    ensures history { IfOk result (IsHistory L.service) }
    ensures events { IfOk result (λ h. map line_of h.events ≡ lines calls.now told.now) }
    ensures fault { IfErr result (IsReplayFault L.service calls.now told.now) }
{
    let Ok(mut loader) = SerialLoader::<L>::start(alloc, opening) else {
        return Err(ReplayFault::OutOfMemory);
    };
    if let Err(fault) = make_all(alloc, &mut loader, calls, told) {
        return Err(fault);
    }
    match loader.close(alloc) {
        Ok(history) => Ok(history),
        Err((CloseFault::OutOfMemory, loader)) => {
            drop(loader);
            Err(ReplayFault::OutOfMemory)
        }
        Err((fault, loader)) => {
            drop(loader);
            Err(ReplayFault::Close(fault))
        }
    }
}

/// Makes all calls.
fn make_all<L: LoaderName>(
    alloc: Global,
    loader: &mut SerialLoader<L>,
    calls: &[DeskCall],
    told: &[Told],
) -> Result<(), ReplayFault>
    requires as_many { length calls.now ≡ length told.now }
    requires new { loader.old.book.history ≡ [] }
    requires hosts { IsForHosts L.service }
    ensures made { OnOk result (HasMade L.service calls.now told.now (length calls.now) loader.new) }
    ensures fault { IfErr result (IsReplayFault L.service calls.now told.now) }
{
    loader.keeps();
    for at in 0..calls.len() {
        match make_told(alloc, loader, &calls[at], &told[at]) {
            Ok(()) => {}
            Err(Wrong::Refused(CallFault::OutOfMemory)) => return Err(ReplayFault::OutOfMemory),
            Err(wrong) => return Err(ReplayFault::Event { at, wrong }),
        }
    }
    Ok(())
}

/// Makes a call.
///
/// # Errors
/// Why it can't come next.
fn make_told<L: LoaderName>(
    alloc: Global,
    loader: &mut SerialLoader<L>,
    call: &DeskCall,
    told: &Told,
) -> Result<(), Wrong>
    requires { IsForHosts L.service }
    ensures made { OnOk result (MakesLine (line call.now told.now) loader.old loader.new) }
    ensures keeps { OnOk result (Keeps L.service loader.new.book) }
    ensures wrong { IfErr result (IsWrong L.service call.now told.now loader.old) }
{
    if told.caller >= loader.callers() {
        return Err(Wrong::Caller);
    }
    match make(alloc, loader, told.caller, call) {
        Ok(numbers) => {
            loader.keeps();
            if numbers.as_slice() == told.answer.as_slice() {
                Ok(())
            } else {
                Err(Wrong::Answer)
            }
        }
        Err(fault) => Err(Wrong::Refused(fault)),
    }
}
