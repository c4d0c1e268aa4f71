//! Histories as lines of JSON.

use crate::sheet::PushJson;
use dl_desk::{FetchKey, Job, LoadReply, Outcome};
use dl_loader::{Call, EntryKind, Event, History, Reply};
use dl_picture::Sheet;
use dl_values::BatchFault;

/// No loader has a caller of this number.
const CALLERS: u32 = 33;

/// Appends the events of a history, each with its caller, its call and its reply. Then it appends the entries of each
/// caller that has some: a place for a call, and a pair of a cell and a place for an outcome that the caller has seen.
pub(crate) fn push_history(sheet: &mut Sheet, history: &History) {
    let events = history.events();
    for at in 0..events.len() {
        if let Some(event) = events.get(at) {
            push_event(sheet, event);
        }
    }
    for caller in 0..CALLERS {
        push_entries(sheet, caller, history.entries(caller));
    }
}

fn push_event(sheet: &mut Sheet, event: &Event) {
    sheet.push_number("{\"caller\":", u64::from(event.caller));
    sheet.push(",\"call\":[");
    push_call(sheet, &event.call);
    sheet.push("],\"reply\":[");
    push_reply(sheet, &event.reply);
    sheet.push("]}\n");
}

fn push_entries(sheet: &mut Sheet, caller: u32, entries: &[EntryKind]) {
    if entries.is_empty() {
        return;
    }
    sheet.push_number("{\"entries\":", u64::from(caller));
    sheet.push(",\"of\":[");
    for (number, entry) in entries.iter().enumerate() {
        sheet.part(number);
        push_entry(sheet, *entry);
    }
    sheet.push("]}\n");
}

fn push_entry(sheet: &mut Sheet, entry: EntryKind) {
    match entry {
        EntryKind::Call { at } => sheet.push_number("", u64::from(at)),
        EntryKind::Saw { cell, at } => {
            sheet.push_number("[", u64::from(cell));
            sheet.push_number(",", u64::from(at));
            sheet.push("]");
        }
    }
}

/// Appends the name of a call, and its arguments.
fn push_call(sheet: &mut Sheet, call: &Call) {
    match call {
        Call::Load(key) => push_of_key(sheet, "\"load\",", key),
        Call::LoadMany(keys) => {
            sheet.push("\"loadMany\",");
            sheet.push_keys(keys.as_slice());
        }
        Call::Prime(key, outcome) => {
            push_of_key(sheet, "\"prime\",", key);
            push_outcome(sheet, &**outcome);
        }
        Call::Clear(key) => push_of_key(sheet, "\"clear\",", key),
        Call::ClearAll => sheet.push("\"clearAll\""),
        Call::Dispatch => sheet.push("\"dispatch\""),
        Call::Settle { batch, outcomes } => push_settle(sheet, *batch, outcomes.as_slice()),
        Call::Fail { batch, fault } => {
            sheet.push_number("\"fail\",", u64::from(*batch));
            push_fault(sheet, fault);
        }
    }
}

/// Appends a name and a key.
fn push_of_key(sheet: &mut Sheet, name: &str, key: &FetchKey) {
    sheet.push(name);
    sheet.push_key(key);
}

fn push_settle(sheet: &mut Sheet, batch: u32, outcomes: &[Outcome]) {
    sheet.push_number("\"settle\",", u64::from(batch));
    for outcome in outcomes {
        push_outcome(sheet, outcome);
    }
}

/// Appends an outcome as one more item: its kind, and its value or text.
fn push_outcome(sheet: &mut Sheet, outcome: &Outcome) {
    match outcome {
        Outcome::Value(value) => {
            sheet.push(",[\"value\",");
            sheet.push_json(value);
        }
        Outcome::KeyError(error) => {
            sheet.push(",[\"key\",");
            sheet.push_quoted(error.as_str());
        }
        Outcome::BatchFailed(fault) => {
            sheet.push(",[\"batch\"");
            push_fault(sheet, fault);
        }
    }
    sheet.push("]");
}

/// Appends why a batch failed, as more items.
fn push_fault(sheet: &mut Sheet, fault: &BatchFault) {
    match fault {
        BatchFault::Source(text) => {
            sheet.push(",\"source\",");
            sheet.push_quoted(text.as_str());
        }
        BatchFault::Memory => sheet.push(",\"memory\""),
        BatchFault::Unsent => sheet.push(",\"unsent\""),
    }
}

/// Appends the name of a reply, and what it says.
fn push_reply(sheet: &mut Sheet, reply: &Reply) {
    match reply {
        Reply::Loaded(reply) => push_load(sheet, *reply),
        Reply::Many(replies) => push_many(sheet, replies.as_slice()),
        Reply::Primed(cell) => sheet.push_number("\"primed\",", u64::from(*cell)),
        Reply::Kept => sheet.push("\"kept\""),
        Reply::Done => sheet.push("\"done\""),
        Reply::Sent(jobs) => push_sent(sheet, jobs.as_slice()),
    }
}

fn push_load(sheet: &mut Sheet, reply: LoadReply) {
    match reply {
        LoadReply::Hit(cell) => sheet.push_number("\"hit\",", u64::from(cell)),
        LoadReply::Fresh { cell, batch } => {
            sheet.push_number("\"fresh\",", u64::from(cell));
            sheet.push_number(",", u64::from(batch));
        }
    }
}

fn push_many(sheet: &mut Sheet, replies: &[LoadReply]) {
    sheet.push("\"many\"");
    for reply in replies {
        sheet.push(",[");
        push_load(sheet, *reply);
        sheet.push("]");
    }
}

fn push_sent(sheet: &mut Sheet, jobs: &[Job]) {
    sheet.push("\"sent\"");
    for job in jobs {
        sheet.push_number(",[", u64::from(job.batch));
        sheet.push(",");
        sheet.push_keys(job.keys.as_slice());
        sheet.push("]");
    }
}
