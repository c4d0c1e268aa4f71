//! Lanes that show counts, for pictures of many batches or rounds, and the first batches that failed.

use crate::column::Column;
use crate::drawing::Drawing;
use crate::lanes::{Scene, add_batch, call_lines, call_name, ends_column, event_of, keys_of};
use crate::lines::NO_LINES;
use crate::mark::Mark;
use crate::phrase::Phrase;
use crate::tally::Tally;
use dl_desk::{Job, Reply};
use dl_history::{Call, Event};
use std::alloc::AllocError;

/// How many columns all lanes have at most, and each of them, but for one.
const MOST_COLUMNS: usize = 240;

const MOST_PLACES: usize = 60;

/// How many rounds or dispatches a column has in lanes of which the longest has this many.
pub(crate) fn rounds_a_column(lanes: u32, rounds: usize) -> usize {
    let places = (MOST_COLUMNS / (lanes as usize).max(1)).min(MOST_PLACES);
    (rounds / places.max(1)).saturating_add(1)
}

/// What a column of such a lane shows: the rounds or the dispatches behind the first `first` ones up to `last`, what came with them, and
/// which of their batches failed.
#[derive(Drop)]
struct Fold<'a> {
    first: usize,
    last: usize,
    tally: Tally<'a>,
    failed: Vec<&'a Job>,
}

impl Fold<'_> {
    /// Begins the next one.
    fn go_on(&mut self) {
        self.first = self.last;
        self.tally.clear();
        self.failed.clear();
    }
}

/// The lane of a caller, with a column for every `rounds_each` rounds or dispatches. Fails if memory runs out.
pub(crate) fn fold_calls(
    drawing: &mut Drawing,
    scene: Scene<'_>,
    caller: u32,
    rounds_each: usize,
) -> Result<(), AllocError> {
    let mut fold = Fold {
        first: 0,
        last: 0,
        tally: Tally::new(drawing.sheet.alloc, drawing.counts),
        failed: Vec::new(drawing.sheet.alloc),
    };
    let mut place: u64 = 0;
    for entry in scene.history.entries(caller) {
        if let Some(event) = event_of(scene.history.events(), *entry) {
            if begins_column(event, fold.last.saturating_sub(fold.first), rounds_each) {
                add_fold(drawing, scene, place, &fold);
                fold.go_on();
                place = place.saturating_add(1);
            }
            count_event(&mut fold, scene, event)?;
        }
    }
    add_fold(drawing, scene, place, &fold);
    Ok(())
}

/// Whether an event begins another column, behind one of `rounds` rounds or dispatches.
fn begins_column(event: &Event, rounds: usize, rounds_each: usize) -> bool {
    rounds >= rounds_each && call_name(&event.call, None).is_some()
}

/// The column in a place of a lane, and below it the batches that failed, as far as the drawing has room for them.
fn add_fold(drawing: &mut Drawing, scene: Scene<'_>, place: u64, fold: &Fold<'_>) {
    drawing.go_to(place);
    drawing.add_below(&Column {
        heading: fold_name(scene, fold),
        side: Phrase::Words(""),
        note: None,
        batch: None,
        lines: fold.tally.lines(),
        foot: NO_LINES,
    });
    for job in &fold.failed {
        if drawing.failures > 0 {
            drawing.failures = drawing.failures.saturating_sub(1);
            add_batch(drawing, scene, *job);
        }
    }
}

/// The words above such a column.
fn fold_name(scene: Scene<'_>, fold: &Fold<'_>) -> Phrase {
    let (from, to) = ((fold.first as u64).saturating_add(1), fold.last as u64);
    let (none, one, several) = match scene.plans {
        Some(_) => ("no round", "round ", "rounds "),
        None => ("no dispatch", "dispatch ", "dispatches "),
    };
    if from < to {
        Phrase::Range(several, from, to)
    } else if from == to {
        Phrase::Numbered(one, to, "")
    } else {
        Phrase::Words(none)
    }
}

/// Counts what a call did to its keys, and the batches that it sent. Fails if memory runs out.
fn count_event<'a>(
    fold: &mut Fold<'a>,
    scene: Scene<'a>,
    event: &'a Event,
) -> Result<(), AllocError> {
    if call_name(&event.call, None).is_some() {
        fold.tally.add_lines(call_lines(scene.cells, keys_of(&event.call), &event.reply))?;
    }
    if let Reply::Sent(jobs) = &event.reply {
        for job in jobs.as_slice() {
            let mark = end_mark(scene, job.batch);
            fold.tally.add_batch(mark)?;
            if mark == Mark::Failed {
                fold.failed.push(job)?;
            }
        }
    }
    if ends_column(scene, event) {
        fold.last = fold.last.saturating_add(1);
    }
    Ok(())
}

/// How a batch ended.
fn end_mark(scene: Scene<'_>, batch: u32) -> Mark {
    match scene.ends.get(batch as usize) {
        Some(Some(event)) => match &event.call {
            Call::Settle { .. } => Mark::Settled,
            _ => Mark::Failed,
        },
        _ => Mark::Waiting,
    }
}
