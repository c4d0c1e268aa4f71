//! Reading the history that a closed loader left.

ghost use Rattle.std.specs.Prelude.{◌≡◌, true, slice_get};
ghost use Rattle.dl_c_values.specs.Answers.{refused_as};
ghost use Rattle.dl_loader_c.specs.Handles.{OnClosed, Stays};
ghost use Rattle.dl_loader_c.specs.Named.{IsHosted, named_by};
ghost use Rattle.dl_loader_c.specs.Readings.{OnHistory, ReadsKey, batches_sent, batches_told, call_number, entry_as, entry_at, event_as, keys_told, no_entry, no_event, reply_as, told_event};

use crate::handle::{Handle, HeldOf, take};
use dl_c_values::answers::Loaded;
use dl_c_values::box_parts::BoxParts;
use dl_c_values::codes::{CLOSED, DONE, FRESH, HIT, NO_EVENT, NO_MEMBER, OPEN};
use dl_c_values::key_texts::KeyTexts;
use dl_desk::FetchKey;
use dl_history::{Call, EntryKind, Event, History, Reply};
use dl_loader::LoaderName;
use std::alloc::Global;
use std::marker::Brand;
use std::slice;

/// An event of a history: who made which call, the number of its keys, and the batches that it sent or ended. If the code
/// isn't `DONE`, all else is 0.
#[repr(C)]
#[derive(Clone, Copy, Debug, PartialEq, Eq)]
pub struct ToldEvent {
    pub code: u32,
    pub caller: u32,
    pub call: u32,
    pub batch: u32,
    pub keys: usize,
    pub batches: usize,
}

/// An entry of a caller: a call of it, by the place of its event, or an outcome that it saw, by the cell and the place of
/// the event that ended it. If the code isn't `DONE`, all else is 0.
#[repr(C)]
#[derive(Clone, Copy, Debug, PartialEq, Eq)]
pub struct ToldEntry {
    pub code: u32,
    pub kind: u32,
    pub at: u32,
    pub cell: u32,
}

/// The event at a place of the history, counted from 0 on.
///
/// Codes: `DONE`; `CLOSED`, `OPEN`, `NO_EVENT`.
#[unsafe(no_mangle)]
pub extern "C" fn dl_serial_event(alloc: Global, handle: &mut Handle, at: u32) -> ToldEvent
    ensures closed { OnClosed handle.old handle.new (result ≡ no_event CLOSED) }
    ensures stays { Stays handle.old handle.new }
    ensures history { handle.old.is_open ≡ true → OnHistory handle.old.held.kept handle.new.held.kept (λ h. result ≡ told_event (slice_get h.events at)) (result ≡ no_event OPEN) }
{
    let Some(held) = take(alloc, handle) else {
        return ToldEvent::none(CLOSED);
    };
    let (held, answer) = event::<Brand>(held, at);
    handle.open(held);
    answer
}

fn event<L: LoaderName>(held: HeldOf<L>, at: u32) -> (HeldOf<L>, ToldEvent)
    requires hosted { IsHosted L.service L.parts }
    requires name { held.name ≡ named_by L.cells L.service L.name }
    ensures name { result.0.name ≡ held.name }
    ensures history { OnHistory held.kept result.0.kept (λ h. result.1 ≡ told_event (slice_get h.events at)) (result.1 ≡ no_event OPEN) }
{
    let kept = held.release().into_box();
    let answer = match &kept.history {
        Some(history) => event_at(history, at),
        None => ToldEvent::none(OPEN),
    };
    (HeldOf::<L>::hold(BoxParts::of(kept)), answer)
}

fn event_at(history: &History, at: u32) -> ToldEvent
    ensures { result ≡ told_event (slice_get history.now.events at) }
{
    match history.events().get(at as usize) {
        Some(event) => ToldEvent::of(event),
        None => ToldEvent::none(NO_EVENT),
    }
}

/// A key of an event, by its index, which it writes to `texts`, and what the event answered to it. On failure it doesn't
/// change the texts.
///
/// Codes: `HIT`, `FRESH` and `DONE`, as the event's call answers them; `CLOSED`, `OPEN`, `NO_EVENT`, `NO_MEMBER`.
#[unsafe(no_mangle)]
pub extern "C" fn dl_serial_event_key(
    alloc: Global,
    handle: &mut Handle,
    at: u32,
    index: usize,
    texts: &mut KeyTexts,
) -> Loaded
    ensures closed { OnClosed handle.old handle.new ((result ≡ refused_as CLOSED) × (texts.new ≡ texts.old)) }
    ensures stays { Stays handle.old handle.new }
    ensures history { handle.old.is_open ≡ true → OnHistory handle.old.held.kept handle.new.held.kept (λ h. ReadsKey (slice_get h.events at) index result texts.old texts.new) ((result ≡ refused_as OPEN) × (texts.new ≡ texts.old)) }
{
    let Some(held) = take(alloc, handle) else {
        return Loaded::refused(CLOSED);
    };
    let (held, answer) = event_key::<Brand>(held, at, index, texts);
    handle.open(held);
    answer
}

fn event_key<L: LoaderName>(
    held: HeldOf<L>,
    at: u32,
    index: usize,
    texts: &mut KeyTexts,
) -> (HeldOf<L>, Loaded)
    requires hosted { IsHosted L.service L.parts }
    requires name { held.name ≡ named_by L.cells L.service L.name }
    ensures name { result.0.name ≡ held.name }
    ensures history { OnHistory held.kept result.0.kept (λ h. ReadsKey (slice_get h.events at) index result.1 texts.old texts.new) ((result.1 ≡ refused_as OPEN) × (texts.new ≡ texts.old)) }
{
    let kept = held.release().into_box();
    let answer = match &kept.history {
        Some(history) => key_at(history, at, index, texts),
        None => Loaded::refused(OPEN),
    };
    (HeldOf::<L>::hold(BoxParts::of(kept)), answer)
}

fn key_at(history: &History, at: u32, index: usize, texts: &mut KeyTexts) -> Loaded
    ensures { ReadsKey (slice_get history.now.events at) index result texts.old texts.new }
{
    let Some(event) = history.events().get(at as usize) else {
        return Loaded::refused(NO_EVENT);
    };
    let Some(key) = keys_of(&event.call).get(index) else {
        return Loaded::refused(NO_MEMBER);
    };
    let answer = reply_to(&event.reply, index);
    if answer.code <= FRESH {
        texts.copy_from(key);
    }
    answer
}

/// An entry of a caller, by its index: what the caller did and saw, in order.
///
/// Codes: `DONE`; `CLOSED`, `OPEN`, `NO_EVENT`.
#[unsafe(no_mangle)]
pub extern "C" fn dl_serial_entry(
    alloc: Global,
    handle: &mut Handle,
    caller: u32,
    index: usize,
) -> ToldEntry
    ensures closed { OnClosed handle.old handle.new (result ≡ no_entry CLOSED) }
    ensures stays { Stays handle.old handle.new }
    ensures history { handle.old.is_open ≡ true → OnHistory handle.old.held.kept handle.new.held.kept (λ h. result ≡ entry_at h caller index) (result ≡ no_entry OPEN) }
{
    let Some(held) = take(alloc, handle) else {
        return ToldEntry::none(CLOSED);
    };
    let (held, answer) = entry::<Brand>(held, caller, index);
    handle.open(held);
    answer
}

fn entry<L: LoaderName>(held: HeldOf<L>, caller: u32, index: usize) -> (HeldOf<L>, ToldEntry)
    requires hosted { IsHosted L.service L.parts }
    requires name { held.name ≡ named_by L.cells L.service L.name }
    ensures name { result.0.name ≡ held.name }
    ensures history { OnHistory held.kept result.0.kept (λ h. result.1 ≡ entry_at h caller index) (result.1 ≡ no_entry OPEN) }
{
    let kept = held.release().into_box();
    let answer = match &kept.history {
        Some(history) => entry_of(history, caller, index),
        None => ToldEntry::none(OPEN),
    };
    (HeldOf::<L>::hold(BoxParts::of(kept)), answer)
}

fn entry_of(history: &History, caller: u32, index: usize) -> ToldEntry
    ensures { result ≡ entry_at history.now caller index }
{
    match history.entries(caller).get(index) {
        Some(kind) => ToldEntry::of(*kind),
        None => ToldEntry::none(NO_EVENT),
    }
}

impl ToldEvent {
    fn none(code: u32) -> ToldEvent
        ensures { result ≡ no_event code }
    {
        ToldEvent {
            code,
            caller: 0,
            call: 0,
            batch: 0,
            keys: 0,
            batches: 0,
        }
    }

    fn of(event: &Event) -> ToldEvent
        ensures { result ≡ event_as event.now }
    {
        let (batch, batches) = batches_of(&event.call, &event.reply);
        ToldEvent {
            code: DONE,
            caller: event.caller,
            call: number_of(&event.call),
            batch,
            keys: keys_of(&event.call).len(),
            batches,
        }
    }
}

impl ToldEntry {
    fn none(code: u32) -> ToldEntry
        ensures { result ≡ no_entry code }
    {
        ToldEntry {
            code,
            kind: 0,
            at: 0,
            cell: 0,
        }
    }

    fn of(kind: EntryKind) -> ToldEntry
        ensures { result ≡ entry_as kind }
    {
        match kind {
            EntryKind::Call { at } => ToldEntry {
                code: DONE,
                kind: 0,
                at,
                cell: 0,
            },
            EntryKind::Saw { cell, at } => ToldEntry {
                code: DONE,
                kind: 1,
                at,
                cell,
            },
        }
    }
}

/// The number of a call's kind.
fn number_of(call: &Call) -> u32
    ensures { result ≡ call_number call.now }
{
    match call {
        Call::Load(_) => 0,
        Call::LoadMany(_) => 1,
        Call::Prime(..) => 2,
        Call::Clear(_) => 3,
        Call::ClearAll => 4,
        Call::Dispatch => 5,
        Call::Settle { .. } => 6,
        Call::Fail { .. } => 7,
    }
}

/// The keys of a call.
fn keys_of(call: &Call) -> &[FetchKey]
    ensures { result.now ≡ keys_told call.now }
{
    match call {
        Call::Load(key) => slice::from_ref(key),
        Call::LoadMany(keys) => keys.as_slice(),
        Call::Prime(key, _) => slice::from_ref(key),
        Call::Clear(key) => slice::from_ref(key),
        Call::ClearAll | Call::Dispatch | Call::Settle { .. } | Call::Fail { .. } => &[],
    }
}

/// The batches that a call ends or sends: the first of them, and how many they are.
fn batches_of(call: &Call, reply: &Reply) -> (u32, usize)
    ensures { result ≡ batches_told call.now reply.now }
{
    match call {
        Call::Settle { batch, .. } => (*batch, 1),
        Call::Fail { batch, .. } => (*batch, 1),
        _ => sent_in(reply),
    }
}

/// The batches that a reply sends.
#[tactic(auto, using(dl_c_values::proofs::Rows::first_of_some, dl_c_values::proofs::Rows::first_of_none))]
fn sent_in(reply: &Reply) -> (u32, usize)
    ensures { result ≡ batches_sent reply.now }
{
    let Reply::Sent(jobs) = reply else {
        return (0, 0);
    };
    let jobs = jobs.as_slice();
    match jobs.first() {
        Some(job) => (job.batch, jobs.len()),
        None => (0, 0),
    }
}

/// What a reply answers to the key of an index.
fn reply_to(reply: &Reply, index: usize) -> Loaded
    ensures { result ≡ reply_as reply.now index }
{
    match reply {
        Reply::Loaded(reply) => Loaded::of_load(*reply),
        Reply::Many(replies) => match replies.as_slice().get(index) {
            Some(reply) => Loaded::of_load(*reply),
            None => Loaded::refused(NO_MEMBER),
        },
        Reply::Primed(cell) => Loaded {
            code: FRESH,
            cell: *cell,
            batch: 0,
        },
        Reply::Kept => Loaded::refused(HIT),
        Reply::Done | Reply::Sent(_) => Loaded::refused(DONE),
    }
}
