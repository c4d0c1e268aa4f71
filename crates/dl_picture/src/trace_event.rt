//! The parts of a trace, as JSON in the Trace Event Format.

use crate::lines::Ended;
use crate::mark::Mark;
use crate::phrase::Phrase;
use crate::sheet::Sheet;
use dl_desk::{FetchKey, Job};

/// When something happened, and on whose thread: at the place of a call, and on that of its caller.
#[derive(Clone, Copy)]
pub(crate) struct Moment {
    pub(crate) at: u64,
    pub(crate) caller: u32,
}

/// The number of a caller's thread. Perfetto keeps 0 for itself.
fn thread_of(caller: u32) -> u64 {
    (caller as u64).saturating_add(1)
}

/// The beginning of a trace, whose process has this name.
pub(crate) fn begin_trace(sheet: &mut Sheet, process: &str) {
    sheet.push("{\"traceEvents\":[\n");
    sheet.push("{\"ph\":\"M\",\"pid\":1,\"tid\":1,\"name\":\"process_name\",\"args\":{\"name\":\"");
    sheet.push(process);
    sheet.push("\"}}");
}

/// The end of a trace.
pub(crate) fn end_trace(sheet: &mut Sheet) {
    sheet.push("\n]}\n");
}

/// The name of a caller's thread.
pub(crate) fn push_thread(sheet: &mut Sheet, caller: u32, name: Phrase) {
    sheet.push_form(
        ",\n{\"ph\":\"M\",\"pid\":1,\"tid\":#,\"name\":\"thread_name\",\"args\":{\"name\":\"",
        &[thread_of(caller)],
    );
    sheet.push_phrase(name);
    sheet.push("\"}}");
}

/// A call, as a slice of a microsecond: the batch that it is to end, if it is to end one, and why it was refused, if it
/// was.
pub(crate) fn push_call(
    sheet: &mut Sheet,
    moment: Moment,
    name: &'static str,
    ended: Option<Ended>,
    refused: Option<&'static str>,
) {
    begin_event(sheet, moment, "X", "call", Phrase::Words(name));
    sheet.push(",\"dur\":1,\"args\":{");
    let mut before = "";
    if let Some(ended) = ended {
        sheet.push_number("\"batch\":", ended.batch as u64);
        before = ",";
    }
    if let Some(fault) = refused {
        sheet.push(before);
        sheet.push("\"refused\":\"");
        sheet.push(fault);
        sheet.push("\"");
    }
    sheet.push("}}");
}

/// What became of a key in a call, as an instant, with its cell and the batch that it went into, if it has them.
pub(crate) fn push_key(
    sheet: &mut Sheet,
    moment: Moment,
    key: &FetchKey,
    mark: Mark,
    cell: Option<u32>,
    batch: Option<u32>,
) {
    begin_event(sheet, moment, "i", "key", Phrase::Words(mark.class()));
    sheet.push(",\"s\":\"t\",\"args\":{\"key\":");
    sheet.push_key(key);
    if let Some(cell) = cell {
        sheet.push_number(",\"cell\":", cell as u64);
    }
    if let Some(batch) = batch {
        sheet.push_number(",\"batch\":", batch as u64);
    }
    sheet.push("}}");
}

/// The beginning of a batch, with its keys.
pub(crate) fn push_batch_start(sheet: &mut Sheet, moment: Moment, job: &Job) {
    begin_batch(sheet, moment, "b", job.batch);
    sheet.push("\"keys\":");
    sheet.push_keys(job.keys.as_slice());
    sheet.push("}}");
}

/// The end of a batch.
pub(crate) fn push_batch_end(sheet: &mut Sheet, moment: Moment, ended: Ended) {
    begin_batch(sheet, moment, "e", ended.batch);
    sheet.push("\"end\":\"");
    sheet.push(ended.mark.class());
    sheet.push("\"}}");
}

/// The first part of an event of a batch, up to its arguments.
fn begin_batch(sheet: &mut Sheet, moment: Moment, phase: &str, batch: u32) {
    let name = Phrase::Numbered("batch ", batch as u64, "");
    begin_event(sheet, moment, phase, "batch", name);
    sheet.push_form(",\"id\":\"#\",\"args\":{", &[batch as u64]);
}

/// The first part of an event: when it happened and where, its phase, its category and its name.
fn begin_event(sheet: &mut Sheet, moment: Moment, phase: &str, category: &str, name: Phrase) {
    sheet.push_form(
        ",\n{\"ts\":#,\"pid\":1,\"tid\":#,\"ph\":\"",
        &[moment.at, thread_of(moment.caller)],
    );
    sheet.push(phase);
    sheet.push("\",\"cat\":\"");
    sheet.push(category);
    sheet.push("\",\"name\":\"");
    sheet.push_phrase(name);
    sheet.push("\"");
}
