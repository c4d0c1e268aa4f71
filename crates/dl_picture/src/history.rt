//! The picture of a history.

use crate::asked::loads_asked;
use crate::cells::cell_fates;
use crate::drawing::Drawing;
use crate::folded::{fold_calls, rounds_a_column};
use crate::head::{add_count, add_numbers, end_head};
use crate::lanes::{
    Scene, add_calls, add_workers, batch_ends, caller_name, callers, ends_column, event_of,
    is_shown,
};
use crate::lines::MOST_BATCHES;
use crate::numbers::{HistoryNumbers, history_numbers, plan_numbers};
use crate::parts::{Steps, plan_steps};
use crate::phrase::Phrase;
use dl_history::History;
use dl_terms::{MOST_PLANS, Term};
use std::alloc::{AllocError, Global};
use std::hash::RandomState;

/// A picture with a longer lane than this, in rounds, shows counts.
const MOST_ROUNDS: usize = 60;

/// So does one that would have more bytes than this.
pub(crate) const MOST_BYTES: usize = 900_000;

/// A picture that shows counts has this many of its failed batches.
const MOST_FAILURES: u64 = 60;

/// Draws a history, as SVG. Of what serving plans left, you give the terms of each plan, as [`terms_of`](crate::terms_of)
/// gives them: the first callers are these plans, and the others are workers. Without terms the callers are none of
/// these. Each plan has a lane, as each caller does that made other calls than ends of batches, and its rounds are in it
/// from left to right, or the calls up to each of its dispatches. A round of a plan says which step and which part of its
/// term it loads for, and in which fault of the term's own form the step ends with it. Above it are the primes and clears
/// before it, and below it the batches that it sent, which lines join to their keys: those that have no room there are to
/// its right. A batch of more than 24 keys has the first 8 of them, and counts of the others, by their errors too. With
/// more than 60 batches, or as many rounds, or calls without plans, in a lane, a lane shows counts, and the first batches
/// that failed, so the text has less than a megabyte. `hashing` hashes keys, and nothing that you see depends on it.
///
/// # Errors
/// `AllocError` if memory runs out.
///
/// # Examples
/// The picture of a report, from `crates/dl_plans`:
///
/// ```rust
/// history_picture(alloc, hashing, report.history(), Some(terms))
/// ```
pub fn history_picture(
    alloc: Global,
    hashing: RandomState,
    history: &History,
    plans: Option<&[Vec<Term>]>,
) -> Result<String, AllocError> {
    let numbers = history_numbers(history)?;
    let alone = match plans {
        Some(plans) => Some(loads_asked(alloc, hashing, history, plans)?),
        None => None,
    };
    let cells = cell_fates(alloc, history)?;
    let ends = batch_ends(alloc, history.events(), numbers.batches.batches)?;
    let scene = Scene {
        history,
        cells: cells.as_slice(),
        ends: ends.as_slice(),
        plans: plans.map(|plans| plans.len().min(MOST_PLANS) as u32),
    };
    let is_short = longest(scene) <= MOST_ROUNDS && has_few_calls(scene);
    if numbers.batches.batches <= MOST_BATCHES as u64 && is_short {
        let steps = plan_steps(alloc, hashing, history, plans.unwrap_or(&[]))?;
        let picture = whole_picture(alloc, scene, &numbers, alone, steps.as_slice())?;
        if picture.len() <= MOST_BYTES {
            return Ok(picture);
        }
    }
    let picture = folded_picture(alloc, scene, &numbers, alone, true)?;
    if picture.len() <= MOST_BYTES {
        return Ok(picture);
    }
    folded_picture(alloc, scene, &numbers, alone, false)
}

/// The picture with the keys of all calls. Without a loader plans make `alone` fetches, and of the steps of each it says
/// this.
fn whole_picture(
    alloc: Global,
    scene: Scene<'_>,
    numbers: &HistoryNumbers,
    alone: Option<u64>,
    steps: &[Steps],
) -> Result<String, AllocError> {
    let mut drawing = Drawing::new(alloc);
    add_head(&mut drawing, numbers, alone);
    for caller in 0..most_lanes(scene) {
        if has_lane(scene, caller) {
            add_lane_words(&mut drawing, scene, caller);
            add_calls(&mut drawing, scene, caller, steps.get(caller as usize));
        }
    }
    add_all_workers(&mut drawing, scene);
    drawing.finish()
}

/// The picture with counts in its lanes. With errors it has their texts, and the first batches that failed.
fn folded_picture(
    alloc: Global,
    scene: Scene<'_>,
    numbers: &HistoryNumbers,
    alone: Option<u64>,
    has_errors: bool,
) -> Result<String, AllocError> {
    let mut drawing = Drawing::new(alloc);
    if has_errors {
        drawing.failures = MOST_FAILURES;
    } else {
        drawing.counts = 0;
    }
    add_head(&mut drawing, numbers, alone);
    let rounds_each = rounds_a_column(lanes(scene), longest(scene));
    for caller in 0..most_lanes(scene) {
        if has_lane(scene, caller) {
            add_lane_words(&mut drawing, scene, caller);
            let folded = fold_calls(&mut drawing, scene, caller, rounds_each);
            drawing.sheet.note(folded);
        }
    }
    add_all_workers(&mut drawing, scene);
    drawing.finish()
}

/// The head of a history's picture. Without a loader plans make `alone` fetches.
fn add_head(drawing: &mut Drawing, numbers: &HistoryNumbers, alone: Option<u64>) {
    drawing.add_words("title", Phrase::Words("What the requests did"));
    add_numbers(drawing, numbers, "keys fetched");
    if let Some(alone) = alone {
        add_count(drawing, "alone", "fetches, no loader", alone);
    }
    end_head(drawing);
}

// ---- lanes

/// How many callers may have lanes.
fn most_lanes(scene: Scene<'_>) -> u32 {
    callers(scene.history.events()).max(scene.plans.unwrap_or(0))
}

/// How many callers have lanes.
fn lanes(scene: Scene<'_>) -> u32 {
    let mut lanes: u32 = 0;
    for caller in 0..most_lanes(scene) {
        if has_lane(scene, caller) {
            lanes = lanes.saturating_add(1);
        }
    }
    lanes
}

/// How many rounds, or without plans how many dispatches, the longest lane has.
fn longest(scene: Scene<'_>) -> usize {
    let mut most: usize = 0;
    for caller in 0..most_lanes(scene) {
        most = most.max(columns(scene, caller));
    }
    most
}

/// How many columns of a lane end.
fn columns(scene: Scene<'_>, caller: u32) -> usize {
    let mut count: usize = 0;
    for entry in scene.history.entries(caller) {
        if let Some(event) = event_of(scene.history.events(), *entry) {
            if ends_column(scene, event) {
                count = count.saturating_add(1);
            }
        }
    }
    count
}

/// Whether no lane shows more calls than it may have rounds, or there are plans.
fn has_few_calls(scene: Scene<'_>) -> bool {
    for caller in 0..most_lanes(scene) {
        if scene.plans.is_none() && calls_shown(scene, caller) > MOST_ROUNDS {
            return false;
        }
    }
    true
}

/// How many calls a lane shows.
fn calls_shown(scene: Scene<'_>, caller: u32) -> usize {
    let mut count: usize = 0;
    for entry in scene.history.entries(caller) {
        if let Some(event) = event_of(scene.history.events(), *entry) {
            if is_shown(event) {
                count = count.saturating_add(1);
            }
        }
    }
    count
}

/// Whether a caller has a lane: it is a plan, or it loaded, primed, cleared or sent a batch.
fn has_lane(scene: Scene<'_>, caller: u32) -> bool {
    if caller < scene.plans.unwrap_or(0) {
        return true;
    }
    calls_shown(scene, caller) > 0
}

/// The words above the lane of a caller.
fn add_lane_words(drawing: &mut Drawing, scene: Scene<'_>, caller: u32) {
    match plan_numbers(scene.history, caller) {
        Ok(numbers) => {
            let loads = numbers.loads;
            drawing.begin_words("lane");
            drawing.sheet.push_phrase(caller_name(scene.plans, caller));
            if scene.plans.is_some() {
                drawing
                    .sheet
                    .push_form(": rounds #,", &[numbers.rounds as u64]);
            } else {
                drawing.sheet.push(":");
            }
            drawing
                .sheet
                .push_form(" loads #, hits #</text>\n", &[loads.loads, loads.hits]);
        }
        Err(error) => drawing.sheet.note(Err(error)),
    }
}

/// The workers of plans, and which batches they ended.
fn add_all_workers(drawing: &mut Drawing, scene: Scene<'_>) {
    if let Some(plans) = scene.plans {
        drawing.add_words("lane", Phrase::Words("workers"));
        add_workers(drawing, scene.history, plans);
    }
}
