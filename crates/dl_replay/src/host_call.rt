//! The calls of a host, made again on a loader: each gives its answer in numbers.

ghost use Rattle.std.specs.Prelude.{◌≡◌, ◌<◌, length, IfErr, IfOk};
ghost use Rattle.dl_desk.specs.declared.call.DeskCall.TheVariants as asked;
ghost use Rattle.dl_replay.specs.Replay.{IsCallRefused, IsForHosts, MakesLine, line_as};

use crate::answer::{loaded, primed, sent};
use dl_desk::{DeskCall, FetchKey};
use dl_history::CallFault;
use dl_loader::{GiveUp, HostSource, LoaderName, SerialLoader, job_of, mark};
use dl_source::fetch_job;
use std::alloc::Global;

/// Makes a call of a caller. You get its answer in numbers.
pub(crate) fn make<L: LoaderName>(
    alloc: Global,
    loader: &mut SerialLoader<L>,
    caller: u32,
    call: &DeskCall,
) -> Result<Vec<u32>, CallFault>
    requires caller { caller < length loader.old.traces }
    requires hosts { IsForHosts L.service }
    ensures made { IfOk result (λ numbers. MakesLine (line_as caller call.now numbers.items) loader.old loader.new) }
    ensures refused { IfErr result (IsCallRefused L.service caller call.now loader.old) }
{
    match call {
        DeskCall::Load(key) => load(alloc, loader, caller, key),
        DeskCall::LoadMany(keys) => load_many(alloc, loader, caller, keys.as_slice()),
        DeskCall::Prime(key) => prime(alloc, loader, caller, key),
        DeskCall::Clear(key) => clear(alloc, loader, caller, key),
        DeskCall::ClearAll => clear_all(alloc, loader, caller),
        DeskCall::Dispatch => dispatch(alloc, loader, caller),
        DeskCall::Settle(batch) => settle(alloc, loader, caller, *batch),
        DeskCall::Fail(batch) => fail(alloc, loader, caller, *batch),
    }
}

fn load<L: LoaderName>(
    alloc: Global,
    loader: &mut SerialLoader<L>,
    caller: u32,
    key: &FetchKey,
) -> Result<Vec<u32>, CallFault>
    requires { caller < length loader.old.traces }
    ensures made { IfOk result (λ numbers. MakesLine (line_as caller (asked.Load key.now) numbers.items) loader.old loader.new) }
    ensures refused { IfErr result (IsCallRefused L.service caller (asked.Load key.now) loader.old) }
{
    match loader.load(alloc, caller, key) {
        Ok(reply) => match loaded(alloc, &[reply]) {
            Ok(numbers) => Ok(numbers),
            Err(_) => Err(CallFault::OutOfMemory),
        },
        Err(fault) => Err(fault),
    }
}

fn load_many<L: LoaderName>(
    alloc: Global,
    loader: &mut SerialLoader<L>,
    caller: u32,
    keys: &[FetchKey],
) -> Result<Vec<u32>, CallFault>
    requires { caller < length loader.old.traces }
    ensures made { IfOk result (λ numbers. MakesLine (line_as caller (asked.LoadMany keys.now) numbers.items) loader.old loader.new) }
    ensures refused { IfErr result (IsCallRefused L.service caller (asked.LoadMany keys.now) loader.old) }
{
    match loader.load_many(alloc, caller, keys) {
        Ok(replies) => match loaded(alloc, replies.as_slice()) {
            Ok(numbers) => Ok(numbers),
            Err(_) => Err(CallFault::OutOfMemory),
        },
        Err(fault) => Err(fault),
    }
}

fn prime<L: LoaderName>(
    alloc: Global,
    loader: &mut SerialLoader<L>,
    caller: u32,
    key: &FetchKey,
) -> Result<Vec<u32>, CallFault>
    requires { caller < length loader.old.traces }
    ensures made { IfOk result (λ numbers. MakesLine (line_as caller (asked.Prime key.now) numbers.items) loader.old loader.new) }
    ensures refused { IfErr result (IsCallRefused L.service caller (asked.Prime key.now) loader.old) }
{
    let Ok(mark) = mark(alloc) else {
        return Err(CallFault::OutOfMemory);
    };
    match loader.prime(alloc, caller, key, &mark) {
        Ok(reply) => match primed(alloc, reply) {
            Ok(numbers) => Ok(numbers),
            Err(_) => Err(CallFault::OutOfMemory),
        },
        Err(fault) => Err(fault),
    }
}

fn clear<L: LoaderName>(
    alloc: Global,
    loader: &mut SerialLoader<L>,
    caller: u32,
    key: &FetchKey,
) -> Result<Vec<u32>, CallFault>
    requires { caller < length loader.old.traces }
    ensures made { IfOk result (λ numbers. MakesLine (line_as caller (asked.Clear key.now) numbers.items) loader.old loader.new) }
    ensures refused { IfErr result (IsCallRefused L.service caller (asked.Clear key.now) loader.old) }
{
    match loader.clear(alloc, caller, key) {
        Ok(()) => Ok(Vec::new(alloc)),
        Err(fault) => Err(fault),
    }
}

fn clear_all<L: LoaderName>(
    alloc: Global,
    loader: &mut SerialLoader<L>,
    caller: u32,
) -> Result<Vec<u32>, CallFault>
    requires { caller < length loader.old.traces }
    ensures made { IfOk result (λ numbers. MakesLine (line_as caller asked.ClearAll numbers.items) loader.old loader.new) }
    ensures refused { IfErr result (IsCallRefused L.service caller asked.ClearAll loader.old) }
{
    match loader.clear_all(alloc, caller) {
        Ok(()) => Ok(Vec::new(alloc)),
        Err(fault) => Err(fault),
    }
}

fn dispatch<L: LoaderName>(
    alloc: Global,
    loader: &mut SerialLoader<L>,
    caller: u32,
) -> Result<Vec<u32>, CallFault>
    requires { caller < length loader.old.traces }
    ensures made { IfOk result (λ numbers. MakesLine (line_as caller asked.Dispatch numbers.items) loader.old loader.new) }
    ensures refused { IfErr result (IsCallRefused L.service caller asked.Dispatch loader.old) }
{
    match loader.dispatch(alloc, caller) {
        Ok(jobs) => match sent(alloc, &jobs) {
            Ok(numbers) => Ok(numbers),
            Err(_) => Err(CallFault::OutOfMemory),
        },
        Err(fault) => Err(fault),
    }
}

fn settle<L: LoaderName>(
    alloc: Global,
    loader: &mut SerialLoader<L>,
    caller: u32,
    batch: u32,
) -> Result<Vec<u32>, CallFault>
    requires caller { caller < length loader.old.traces }
    requires hosts { IsForHosts L.service }
    ensures made { IfOk result (λ numbers. MakesLine (line_as caller (asked.Settle batch) numbers.items) loader.old loader.new) }
    ensures refused { IfErr result (IsCallRefused L.service caller (asked.Settle batch) loader.old) }
{
    let Ok(job) = job_of(alloc, loader, batch) else {
        return Err(CallFault::OutOfMemory);
    };
    let Ok(fetched) = fetch_job(alloc, &HostSource, job) else {
        return Err(CallFault::OutOfMemory);
    };
    match loader.settle(alloc, caller, &fetched) {
        Ok(_) => Ok(Vec::new(alloc)),
        Err(fault) => Err(fault),
    }
}

fn fail<L: LoaderName>(
    alloc: Global,
    loader: &mut SerialLoader<L>,
    caller: u32,
    batch: u32,
) -> Result<Vec<u32>, CallFault>
    requires { caller < length loader.old.traces }
    ensures made { IfOk result (λ numbers. MakesLine (line_as caller (asked.Fail batch) numbers.items) loader.old loader.new) }
    ensures refused { IfErr result (IsCallRefused L.service caller (asked.Fail batch) loader.old) }
{
    let Ok(job) = job_of(alloc, loader, batch) else {
        return Err(CallFault::OutOfMemory);
    };
    match loader.fail(alloc, caller, &job, GiveUp::Unsent) {
        Ok(_) => Ok(Vec::new(alloc)),
        Err(fault) => Err(fault),
    }
}
