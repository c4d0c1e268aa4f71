//! Lanes of a history: the calls of its callers with the batches that they sent, and its workers, each as columns.

use crate::cells::{Fate, replies_of, why_failed};
use crate::column::Column;
use crate::drawing::Drawing;
use crate::lines::{Ended, Lines, NO_LINES};
use crate::loads::is_round;
use crate::mark::Mark;
use crate::parts::Steps;
use crate::phrase::Phrase;
use dl_desk::{FetchKey, Job};
use dl_history::{Call, EntryKind, Event, Events, History, Reply};
use std::alloc::{AllocError, Global};

/// The event of an entry, if the entry is a call.
pub(crate) fn event_of(events: &Events, entry: EntryKind) -> Option<&Event> {
    match entry {
        EntryKind::Call { at } => events.get(at as usize),
        EntryKind::Saw { .. } => None,
    }
}

/// What lanes are drawn of: a history, what became of its cells, the event that ended each batch, and how many of its
/// callers are plans, if it is of plans and workers.
#[derive(Clone, Copy)]
pub(crate) struct Scene<'a> {
    pub(crate) history: &'a History,
    pub(crate) cells: &'a [Fate],
    pub(crate) ends: &'a [Option<&'a Event>],
    pub(crate) plans: Option<u32>,
}

/// The event that ended each batch of a history that has this many. Fails if memory runs out.
pub(crate) fn batch_ends(
    alloc: Global,
    events: &Events,
    batches: u64,
) -> Result<Vec<Option<&Event>>, AllocError> {
    let mut ends = Vec::new(alloc);
    for _ in 0..batches {
        ends.push(None)?;
    }
    for at in 0..events.len() {
        if let Some(event) = events.get(at) {
            if let Some(ended) = ended_by(&event.call) {
                if let Some(end) = ends.get_mut(ended.batch as usize) {
                    *end = Some(event);
                }
            }
        }
    }
    Ok(ends)
}

// ---- lanes

/// Whether what follows in a caller's lane is further to the right: behind each round of a plan, and behind each dispatch
/// of another caller that sent batches.
pub(crate) fn ends_column(scene: Scene<'_>, event: &Event) -> bool {
    match (scene.plans, &event.reply) {
        (Some(_), _) => is_round(&event.call),
        (None, Reply::Sent(jobs)) => !jobs.as_slice().is_empty(),
        (None, _) => false,
    }
}

/// The lane of a caller, and what it says of the steps of a plan. Each round of a plan is in its place, below the primes
/// and clears since the round before, and the faults of steps without a round there, and above the batches that it sent.
/// Another caller's calls up to a dispatch are above its batches.
pub(crate) fn add_calls<'a>(
    drawing: &mut Drawing,
    scene: Scene<'a>,
    caller: u32,
    steps: Option<&'a Steps>,
) {
    let mut rounds: usize = 0;
    for entry in scene.history.entries(caller) {
        if let Some(event) = event_of(scene.history.events(), *entry) {
            add_call(drawing, scene, event, rounds, steps);
            add_sent(drawing, scene, &event.reply);
            if ends_column(scene, event) {
                rounds = rounds.saturating_add(1);
            }
        }
    }
    if let Some(steps) = steps {
        add_faults(drawing, steps, rounds);
    }
}

/// The column of a call after this many others, or none if it is a dispatch or ends a batch.
fn add_call<'a>(
    drawing: &mut Drawing,
    scene: Scene<'a>,
    event: &'a Event,
    rounds: usize,
    steps: Option<&'a Steps>,
) {
    if let Some(heading) = call_name(&event.call, scene.plans.map(|_| rounds)) {
        let lines = call_lines(scene.cells, keys_of(&event.call), &event.reply);
        let side = Phrase::count(lines.count(), " key", " keys");
        let (mut note, mut foot) = (None, NO_LINES);
        if let (Call::LoadMany(_), Some(steps)) = (&event.call, steps) {
            add_faults(drawing, steps, rounds);
            note = steps.part(rounds);
            foot = Lines::Faults(steps.faults_at(rounds));
        }
        drawing.go_to(rounds as u64);
        drawing.add_below(&Column {
            heading,
            side,
            note,
            batch: None,
            lines,
            foot,
        });
    }
}

/// A column with the faults of the steps of a plan that take no round and come behind this many, if there are any.
fn add_faults(drawing: &mut Drawing, steps: &Steps, rounds: usize) {
    let faults = steps.faults_before(rounds);
    if !faults.is_empty() {
        drawing.go_to(rounds as u64);
        drawing.add_below(&Column {
            heading: Phrase::Words("no round"),
            side: Phrase::count(faults.len(), " step", " steps"),
            note: None,
            batch: None,
            lines: Lines::Faults(faults),
            foot: NO_LINES,
        });
    }
}

/// A column for each batch that a call sent.
fn add_sent(drawing: &mut Drawing, scene: Scene<'_>, reply: &Reply) {
    if let Reply::Sent(jobs) = reply {
        for job in jobs.as_slice() {
            add_batch(drawing, scene, job);
        }
    }
}

/// The words above a call, of a plan after this many rounds.
pub(crate) fn call_name(call: &Call, rounds: Option<usize>) -> Option<Phrase> {
    match call {
        Call::LoadMany(_) => match rounds {
            Some(rounds) => Some(Phrase::Numbered("round ", (rounds as u64).saturating_add(1), "")),
            None => Some(Phrase::Words("load many")),
        },
        Call::Load(_) => Some(Phrase::Words("load")),
        Call::Prime(_, _) => Some(Phrase::Words("prime")),
        Call::Clear(_) => Some(Phrase::Words("clear")),
        Call::ClearAll => Some(Phrase::Words("clear all")),
        Call::Dispatch | Call::Settle { .. } | Call::Fail { .. } => None,
    }
}

/// Whether a lane shows something of an event.
pub(crate) fn is_shown(event: &Event) -> bool {
    match &event.reply {
        Reply::Sent(jobs) => !jobs.as_slice().is_empty(),
        _ => call_name(&event.call, None).is_some(),
    }
}

/// A line for each key of a call.
pub(crate) fn call_lines<'a>(
    cells: &'a [Fate],
    keys: &'a [FetchKey],
    reply: &'a Reply,
) -> Lines<'a> {
    let mark = match reply {
        Reply::Loaded(_) | Reply::Many(_) => {
            let replies = replies_of(reply);
            return Lines::Loads {
                cells,
                keys,
                replies,
            };
        }
        Reply::Primed(cell) => {
            let fate = cells.get(*cell as usize);
            return Lines::Primed { keys, fate };
        }
        Reply::Kept => Mark::Kept,
        Reply::Done | Reply::Sent(_) => Mark::Cleared,
    };
    Lines::Keys { keys, mark }
}

/// The keys that a call names.
pub(crate) fn keys_of(call: &Call) -> &[FetchKey] {
    match call {
        Call::Load(key) | Call::Prime(key, _) | Call::Clear(key) => std::slice::from_ref(key),
        Call::LoadMany(keys) => keys.as_slice(),
        Call::ClearAll | Call::Dispatch | Call::Settle { .. } | Call::Fail { .. } => &[],
    }
}

// ---- batches and workers

/// The batch that a call ends, if it ends one.
pub(crate) fn ended_by(call: &Call) -> Option<Ended> {
    let (batch, mark) = match call {
        Call::Settle { batch, .. } => (*batch, Mark::Settled),
        Call::Fail { batch, .. } => (*batch, Mark::Failed),
        _ => return None,
    };
    Some(Ended { batch, mark })
}

/// The column of a batch that went out: how it ended, who ended it, and what became of its keys.
pub(crate) fn add_batch(drawing: &mut Drawing, scene: Scene<'_>, job: &Job) {
    let (keys, number) = (job.keys.as_slice(), job.batch);
    let end = match scene.ends.get(number as usize) {
        Some(Some(event)) => Some(*event),
        _ => None,
    };
    let (state, note, lines) = end_of(end, keys);
    let side = match end {
        Some(event) => caller_name(scene.plans, event.caller),
        None => Phrase::Words(""),
    };
    drawing.add_below(&Column {
        heading: Phrase::Numbered("batch ", number as u64, state),
        side,
        note,
        batch: Some(number),
        lines,
        foot: NO_LINES,
    });
}

/// How a batch with these keys ended by an event, why it failed, and a line for each key.
fn end_of<'a>(
    end: Option<&'a Event>,
    keys: &'a [FetchKey],
) -> (&'static str, Option<&'a str>, Lines<'a>) {
    let mut mark = Mark::Waiting;
    if let Some(event) = end {
        match &event.call {
            Call::Settle { outcomes, .. } => {
                let outcomes = outcomes.as_slice();
                return (" settled", None, Lines::Settled { keys, outcomes });
            }
            Call::Fail { fault, .. } => {
                mark = Mark::Failed;
                let why = Some(why_failed(fault));
                return (" failed", why, Lines::Keys { keys, mark });
            }
            _ => {}
        }
    }
    (" sent", None, Lines::Keys { keys, mark })
}

/// Who a caller is. If there are plans, they come first, and then their workers.
pub(crate) fn caller_name(plans: Option<u32>, caller: u32) -> Phrase {
    match plans {
        None => Phrase::Numbered("caller ", caller as u64, ""),
        Some(plans) if caller < plans => Phrase::Numbered("plan ", caller as u64, ""),
        Some(plans) => Phrase::Numbered("worker ", caller.saturating_sub(plans) as u64, ""),
    }
}

/// The workers that ended batches, and which batches each of them ended, in order. The first callers are `plans` plans.
pub(crate) fn add_workers(drawing: &mut Drawing, history: &History, plans: u32) {
    let events = history.events();
    for caller in plans..callers(events) {
        add_worker(
            drawing,
            events,
            history.entries(caller),
            caller_name(Some(plans), caller),
        );
    }
}

/// How many callers there are up to the last one that made a call.
pub(crate) fn callers(events: &Events) -> u32 {
    let mut callers: u32 = 0;
    for at in 0..events.len() {
        if let Some(event) = events.get(at) {
            callers = callers.max(event.caller.saturating_add(1));
        }
    }
    callers
}

/// The column of a worker, by its entries, if it ended a batch.
fn add_worker(drawing: &mut Drawing, events: &Events, entries: &[EntryKind], heading: Phrase) {
    let mut ended = Vec::new(drawing.sheet.alloc);
    let pushed = push_ended(&mut ended, events, entries);
    drawing.sheet.note(pushed);
    if !ended.is_empty() {
        let side = Phrase::count(ended.len(), " batch", " batches");
        let lines = Lines::Ended(ended.as_slice());
        drawing.add_column(&Column {
            heading,
            side,
            note: None,
            batch: None,
            lines,
            foot: NO_LINES,
        });
    }
}

/// The batches that entries end. Fails if memory runs out.
fn push_ended(
    ended: &mut Vec<Ended>,
    events: &Events,
    entries: &[EntryKind],
) -> Result<(), AllocError> {
    for entry in entries {
        if let Some(event) = event_of(events, *entry) {
            if let Some(batch) = ended_by(&event.call) {
                ended.push(batch)?;
            }
        }
    }
    Ok(())
}
