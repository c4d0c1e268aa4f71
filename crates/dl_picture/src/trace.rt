//! Traces of what requests did, as JSON in the Trace Event Format.

use crate::cells::replies_of;
use crate::lanes::{caller_name, callers, ended_by, keys_of};
use crate::lines::Ended;
use crate::mark::Mark;
use crate::phrase::Phrase;
use crate::script::{fault_name, keys_of as script_keys, name_of};
use crate::sheet::Sheet;
use crate::trace_event::{
    Moment, begin_trace, end_trace, push_batch_end, push_batch_start, push_call, push_key,
    push_thread,
};
use dl_desk::{DeskCall, DeskFault, FetchKey, LoadReply};
use dl_documents::Script;
use dl_history::{Call, Event, History, Reply};
use std::alloc::{AllocError, Global};
use std::hash::RandomState;

/// Writes what happened in a history as a trace, as JSON in the Trace Event Format, which Perfetto and chrome://tracing
/// open. If its callers are plans and workers, the first of them are `plans` plans. Each caller is a thread, also one of the
/// first `named` callers that made no call, and each of its calls a slice of that thread, with an instant for what became of each key. Each batch is an asynchronous slice, from the
/// dispatch that sent it to its end. There is no clock: a call takes a microsecond, and begins at its place in the
/// history. The text is linear in the plans, the events and their keys.
///
/// # Errors
/// `AllocError` if memory runs out.
///
/// # Examples
/// The trace of a report, from `crates/dl_plans`:
///
/// ```rust
/// history_trace(alloc, report.history(), Some(plans), callers)
/// ```
pub fn history_trace(
    alloc: Global,
    history: &History,
    plans: Option<u32>,
    named: u32,
) -> Result<String, AllocError> {
    let mut sheet = Sheet::new(alloc);
    begin_trace(&mut sheet, "requests");
    let events = history.events();
    for caller in 0..callers(events).max(named) {
        push_thread(&mut sheet, caller, caller_name(plans, caller));
    }
    for at in 0..events.len() {
        if let Some(event) = events.get(at) {
            push_event(&mut sheet, at as u64, event);
        }
    }
    end_trace(&mut sheet);
    sheet.finish()
}

/// Writes what the calls of a script are answered as a trace of one thread, in the same format. `hashing` hashes the
/// keys of the desk that answers the calls, and nothing that you see depends on it.
///
/// # Errors
/// `AllocError` if memory runs out.
pub fn script_trace(
    alloc: Global,
    hashing: RandomState,
    script: &Script,
) -> Result<String, AllocError> {
    let run = script.play(alloc, hashing)?;
    let mut sheet = Sheet::new(alloc);
    begin_trace(&mut sheet, "script");
    push_thread(&mut sheet, 0, Phrase::Words("calls"));
    push_answers(&mut sheet, script.calls.as_slice(), run.answers.as_slice());
    end_trace(&mut sheet);
    sheet.finish()
}

// ---- histories

/// An event of a history, at its place.
fn push_event(sheet: &mut Sheet, at: u64, event: &Event) {
    let (call, caller) = (&event.call, event.caller);
    let (moment, ended) = (Moment { at, caller }, ended_by(call));
    push_call(sheet, moment, call_name(call), ended, None);
    push_reply(sheet, moment, keys_of(call), &event.reply, ended);
}

/// The name of a call, as a script has it.
fn call_name(call: &Call) -> &'static str {
    match call {
        Call::Load(_) => "load",
        Call::LoadMany(_) => "loadMany",
        Call::Prime(_, _) => "prime",
        Call::Clear(_) => "clear",
        Call::ClearAll => "clearAll",
        Call::Dispatch => "dispatch",
        Call::Settle { .. } => "settle",
        Call::Fail { .. } => "fail",
    }
}

// ---- scripts

/// The calls of a script, with their answers.
fn push_answers(sheet: &mut Sheet, calls: &[DeskCall], answers: &[Result<Reply, DeskFault>]) {
    for at in 0..calls.len() {
        if let Some(call) = calls.get(at) {
            if let Some(answer) = answers.get(at) {
                push_answer(sheet, at as u64, call, answer);
            }
        }
    }
}

/// A call of a script, at its place.
fn push_answer(sheet: &mut Sheet, at: u64, call: &DeskCall, answer: &Result<Reply, DeskFault>) {
    let (moment, ended) = (Moment { at, caller: 0 }, ended_in(call));
    match answer {
        Ok(reply) => {
            push_call(sheet, moment, name_of(call), ended, None);
            push_reply(sheet, moment, script_keys(call), reply, ended);
        }
        Err(fault) => {
            let fault = Some(fault_name(*fault));
            push_call(sheet, moment, name_of(call), ended, fault);
        }
    }
}

/// The batch that a call of a script ends, unless it is refused.
fn ended_in(call: &DeskCall) -> Option<Ended> {
    let (batch, mark) = match call {
        DeskCall::Settle(batch) => (*batch, Mark::Settled),
        DeskCall::Fail(batch) => (*batch, Mark::Failed),
        _ => return None,
    };
    Some(Ended { batch, mark })
}

// ---- replies

/// What a call did, by its reply: what became of its keys, the batches that it sent, and the batch that it ended.
fn push_reply(
    sheet: &mut Sheet,
    moment: Moment,
    keys: &[FetchKey],
    reply: &Reply,
    ended: Option<Ended>,
) {
    match reply {
        Reply::Loaded(_) | Reply::Many(_) => push_loads(sheet, moment, keys, replies_of(reply)),
        Reply::Primed(cell) => push_keys(sheet, moment, keys, Mark::Primed, Some(*cell)),
        Reply::Kept => push_keys(sheet, moment, keys, Mark::Kept, None),
        Reply::Done => push_keys(sheet, moment, keys, Mark::Cleared, None),
        Reply::Sent(jobs) => {
            for job in jobs.as_slice() {
                push_batch_start(sheet, moment, job);
            }
        }
    }
    if let Some(ended) = ended {
        push_batch_end(sheet, moment, ended);
    }
}

/// What became of each of these keys, which is the same.
fn push_keys(sheet: &mut Sheet, moment: Moment, keys: &[FetchKey], mark: Mark, cell: Option<u32>) {
    for key in keys {
        push_key(sheet, moment, key, mark, cell, None);
    }
}

/// What became of each of these keys, by the replies to their loads.
fn push_loads(sheet: &mut Sheet, moment: Moment, keys: &[FetchKey], replies: &[LoadReply]) {
    for (key, reply) in keys.iter().zip(replies) {
        match reply {
            LoadReply::Hit(cell) => push_key(sheet, moment, key, Mark::Hit, Some(*cell), None),
            LoadReply::Fresh { cell, batch } => {
                push_key(sheet, moment, key, Mark::Fresh, Some(*cell), Some(*batch));
            }
        }
    }
}
