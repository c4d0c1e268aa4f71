//! The picture of a script.

use crate::cells::{Fate, script_fates};
use crate::column::Column;
use crate::drawing::Drawing;
use crate::head::{add_count, add_numbers, end_head};
use crate::history::MOST_BYTES;
use crate::lanes::call_lines;
use crate::lines::{Lines, MOST_BATCHES, NO_LINES};
use crate::mark::Mark;
use crate::numbers::{HistoryNumbers, script_numbers};
use crate::phrase::Phrase;
use crate::tally::{MOST_COUNTS, Tally};
use dl_desk::{BatchState, BatchView, Desk, DeskCall, DeskFault, FetchKey, Reply};
use dl_documents::Script;
use std::alloc::{AllocError, Global};
use std::hash::RandomState;

/// Draws a script, as SVG: its calls in a row, each with its answer, and the batches below them. With more than 60
/// batches, or if the text would have a megabyte, it shows counts. `hashing` hashes the keys of the desk that answers the
/// calls, and nothing that you see depends on it.
///
/// # Errors
/// `AllocError` if memory runs out.
pub fn script_picture(
    alloc: Global,
    hashing: RandomState,
    script: &Script,
) -> Result<String, AllocError> {
    let run = script.play(alloc, hashing)?;
    let numbers = script_numbers(&run)?;
    let cells = script_fates(alloc, &run)?;
    let calls = Calls {
        calls: script.calls.as_slice(),
        answers: run.answers.as_slice(),
        cells: cells.as_slice(),
    };
    if numbers.batches.batches <= MOST_BATCHES as u64 {
        let picture = run_picture(alloc, calls, &run.desk, &numbers)?;
        if picture.len() <= MOST_BYTES {
            return Ok(picture);
        }
    }
    folded_picture(alloc, calls, &run.desk, &numbers)
}

/// The calls of a script with their answers, and what became of the cells.
#[derive(Clone, Copy)]
struct Calls<'a> {
    calls: &'a [DeskCall],
    answers: &'a [Result<Reply, DeskFault>],
    cells: &'a [Fate],
}

/// The picture of what calls left: a head with its numbers, the calls, and the batches.
fn run_picture(
    alloc: Global,
    calls: Calls<'_>,
    desk: &Desk,
    numbers: &HistoryNumbers,
) -> Result<String, AllocError> {
    let mut drawing = Drawing::new(alloc);
    add_head(&mut drawing, calls, numbers);
    add_calls(&mut drawing, calls);
    drawing.add_words("lane", Phrase::Words("batches"));
    add_batches(&mut drawing, desk);
    drawing.finish()
}

/// The same with counts of the calls' keys, and of the batches.
fn folded_picture(
    alloc: Global,
    calls: Calls<'_>,
    desk: &Desk,
    numbers: &HistoryNumbers,
) -> Result<String, AllocError> {
    let tally = tally_of(alloc, calls, desk)?;
    let mut drawing = Drawing::new(alloc);
    add_head(&mut drawing, calls, numbers);
    add_counts(&mut drawing, &tally);
    drawing.finish()
}

/// The counts of the calls' keys and of the batches. Fails if memory runs out.
fn tally_of<'a>(alloc: Global, calls: Calls<'a>, desk: &Desk) -> Result<Tally<'a>, AllocError> {
    let mut tally = Tally::new(alloc, MOST_COUNTS);
    for (call, answer) in calls.calls.iter().zip(calls.answers) {
        tally.add_lines(lines_of(calls.cells, call, answer))?;
    }
    count_batches(&mut tally, desk)?;
    Ok(tally)
}

/// A column with counts of all calls.
fn add_counts(drawing: &mut Drawing, tally: &Tally<'_>) {
    drawing.add_column(&Column {
        heading: Phrase::Words("all calls"),
        side: Phrase::Words(""),
        note: None,
        batch: None,
        lines: tally.lines(),
        foot: NO_LINES,
    });
}

/// The head of a script's picture, and the words above its calls.
fn add_head(drawing: &mut Drawing, calls: Calls<'_>, numbers: &HistoryNumbers) {
    drawing.add_words("title", Phrase::Words("What the calls were answered"));
    add_count(drawing, "calls", "calls", calls.answers.len() as u64);
    add_numbers(drawing, numbers, "keys in batches");
    end_head(drawing);
    drawing.add_words("lane", Phrase::Words("calls"));
}

// ---- calls

/// A column for each call, with its number and its answer.
fn add_calls(drawing: &mut Drawing, calls: Calls<'_>) {
    for number in 0..calls.calls.len() {
        if let Some(call) = calls.calls.get(number) {
            if let Some(answer) = calls.answers.get(number) {
                drawing.add_column(&Column {
                    heading: Phrase::Named(number as u64, name_of(call)),
                    side: side_of(call, answer),
                    note: None,
                    batch: None,
                    lines: lines_of(calls.cells, call, answer),
                    foot: NO_LINES,
                });
            }
        }
    }
}

/// The name of a call, as a script has it.
pub(crate) fn name_of(call: &DeskCall) -> &'static str {
    match call {
        DeskCall::Load(_) => "load",
        DeskCall::LoadMany(_) => "loadMany",
        DeskCall::Prime(_) => "prime",
        DeskCall::Clear(_) => "clear",
        DeskCall::ClearAll => "clearAll",
        DeskCall::Dispatch => "dispatch",
        DeskCall::Settle(_) => "settle",
        DeskCall::Fail(_) => "fail",
    }
}

/// What is to the right of the name of a call: the batch that it ends, or how many it sends.
fn side_of(call: &DeskCall, answer: &Result<Reply, DeskFault>) -> Phrase {
    match call {
        DeskCall::Settle(batch) | DeskCall::Fail(batch) => {
            Phrase::Numbered("batch ", *batch as u64, "")
        }
        _ => match answer {
            Ok(Reply::Sent(jobs)) => Phrase::Numbered("", jobs.as_slice().len() as u64, " sent"),
            _ => Phrase::Words(""),
        },
    }
}

/// A line for each key of a call, with what became of it, or why the call was refused.
fn lines_of<'a>(
    cells: &'a [Fate],
    call: &'a DeskCall,
    answer: &'a Result<Reply, DeskFault>,
) -> Lines<'a> {
    match answer {
        Ok(reply) => call_lines(cells, keys_of(call), reply),
        Err(fault) => Lines::Refused(fault_name(*fault)),
    }
}

/// The keys that a call names.
pub(crate) fn keys_of(call: &DeskCall) -> &[FetchKey] {
    match call {
        DeskCall::Load(key) | DeskCall::Prime(key) | DeskCall::Clear(key) => {
            std::slice::from_ref(key)
        }
        DeskCall::LoadMany(keys) => keys.as_slice(),
        DeskCall::ClearAll | DeskCall::Dispatch | DeskCall::Settle(_) | DeskCall::Fail(_) => &[],
    }
}

/// Why a call was refused, by its name.
pub(crate) fn fault_name(fault: DeskFault) -> &'static str {
    match fault {
        DeskFault::NoBatch => "NoBatch",
        DeskFault::NotSent => "NotSent",
        DeskFault::SettledBefore => "SettledBefore",
        DeskFault::CellsFull { .. } => "CellsFull",
        DeskFault::OutOfMemory => "OutOfMemory",
    }
}

// ---- batches

/// A column for each batch, with its keys and how far it has come.
fn add_batches(drawing: &mut Drawing, desk: &Desk) {
    for number in 0..u32::MAX {
        match desk.batch(number) {
            Some(batch) => drawing.add_column(&batch_column(number, &batch)),
            None => return,
        }
    }
}

/// Counts the batches by how far they have come. Fails if memory runs out.
fn count_batches(tally: &mut Tally<'_>, desk: &Desk) -> Result<(), AllocError> {
    for number in 0..u32::MAX {
        match desk.batch(number) {
            Some(batch) => tally.add_batch(state_of(&batch).1)?,
            None => return Ok(()),
        }
    }
    Ok(())
}

/// How far a batch has come.
fn state_of(batch: &BatchView<'_>) -> (&'static str, Mark) {
    match batch.state() {
        BatchState::Collecting => (" open", Mark::Waiting),
        BatchState::Sent => (" sent", Mark::Waiting),
        BatchState::Settled => (" settled", Mark::Settled),
        BatchState::Failed => (" failed", Mark::Failed),
    }
}

/// The column of a batch.
fn batch_column<'a>(number: u32, batch: &BatchView<'a>) -> Column<'a> {
    let (state, mark) = state_of(batch);
    let keys = batch.keys();
    Column {
        heading: Phrase::Numbered("batch ", number as u64, state),
        side: Phrase::count(keys.len(), " key", " keys"),
        note: None,
        batch: Some(number),
        lines: Lines::Keys { keys, mark },
        foot: NO_LINES,
    }
}
