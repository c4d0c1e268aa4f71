//! How many loads a history has, how many of them were hits, and how many rounds.

ghost use Rattle.std.specs.Prelude.{◌≡◌, ◌+◌, ◌∷◌, ◌++◌, [], ℕ, List, IfOk, count_by, flat_map, length, option_copied, slice_get, take};
ghost use Rattle.dl_desk.specs.declared.reply.LoadReply.{LoadReply};
ghost use Rattle.dl_history.specs.Lists.{one_if};
ghost use Rattle.dl_desk.specs.declared.event.Event.{Event};
ghost use Rattle.dl_picture.specs.Numbers.{AreLoadNumbers, events_by, is_by, is_hit, is_round, load_replies, replies_in, round_events};
ghost use Rattle.dl_picture.specs.Script.{answer_replies};

use dl_desk::{DeskFault, LoadReply};
use dl_history::{Call, Event, Events, Reply};
use std::alloc::AllocError;

/// How many loads there are, and how many of them are hits.
#[derive(Clone, Copy)]
pub struct LoadNumbers {
    /// The loads that callers made. A round loads each of its keys once.
    pub loads: u64,
    /// The loads of a key that was held: they fetched nothing.
    pub hits: u64,
}

/// The loads and hits of a caller's events, or of all events if you name no caller.
///
/// # Errors
/// `AllocError` if there are more than a number can count, which no memory holds.
pub(crate) fn load_numbers(events: &Events, caller: Option<u32>) -> Result<LoadNumbers, AllocError>
    ensures { IfOk result (AreLoadNumbers (load_replies (events_by caller events.now))) }
{
    let mut numbers = LoadNumbers { loads: 0, hits: 0 };
    for at in 0..events.len() {
        numbers = numbers.with_event(caller, events.get(at))?;
    }
    Ok(numbers)
}

/// The loads of the answers, and how many of them are hits.
///
/// # Errors
/// `AllocError` if there are more than a number can count, which no memory holds.
pub(crate) fn answer_numbers(
    answers: &[Result<Reply, DeskFault>],
) -> Result<LoadNumbers, AllocError>
    ensures { IfOk result (AreLoadNumbers (flat_map answer_replies answers.now)) }
{
    let mut numbers = LoadNumbers { loads: 0, hits: 0 };
    for answer in answers {
        numbers = numbers.with_answer(answer)?;
    }
    Ok(numbers)
}

/// How many rounds a caller's events begin: each loadMany is one.
pub(crate) fn rounds(events: &Events, caller: u32) -> usize
    ensures { result ≡ length (round_events caller events.now) }
{
    let mut count = 0;
    for at in 0..events.len() {
        if begins_round(caller, events.get(at)) {
            count += 1;
        }
    }
    count
}

impl LoadNumbers {
    /// The numbers with one event more, if there is one and it is the caller's.
    fn with_event(
        self,
        caller: Option<u32>,
        event: Option<&Event>,
    ) -> Result<LoadNumbers, AllocError>
        ensures { IfOk result (λ more. (events : List Event) (at : ℕ) → option_copied event.entry ≡ slice_get events at
            → AreLoadNumbers (load_replies (events_by caller (take at events))) self
            → AreLoadNumbers (load_replies (events_by caller (take (at + 1) events))) more) }
    {
        match event {
            Some(event) if is_by(caller, event) => self.with_reply(&event.reply),
            _ => Ok(self),
        }
    }

    /// The numbers with the loads of one call more, unless it was refused.
    fn with_answer(self, answer: &Result<Reply, DeskFault>) -> Result<LoadNumbers, AllocError>
        ensures { IfOk result (λ more. (before : List LoadReply) → AreLoadNumbers before self → AreLoadNumbers (before ++ answer_replies answer.now) more) }
    {
        match answer {
            Ok(reply) => self.with_reply(reply),
            Err(_) => Ok(self),
        }
    }

    /// The numbers with the loads of one call more.
    fn with_reply(self, reply: &Reply) -> Result<LoadNumbers, AllocError>
        ensures { IfOk result (λ more. (before : List LoadReply) → AreLoadNumbers before self → AreLoadNumbers (before ++ replies_in reply.now) more) }
    {
        match reply {
            Reply::Loaded(reply) => self.with_load(*reply),
            Reply::Many(replies) => self.with_loads(replies.as_slice()),
            Reply::Primed(_) | Reply::Kept | Reply::Done | Reply::Sent(_) => Ok(self),
        }
    }

    /// The numbers with one load more.
    fn with_load(self, reply: LoadReply) -> Result<LoadNumbers, AllocError>
        ensures { IfOk result (λ more. (before : List LoadReply) → AreLoadNumbers before self → AreLoadNumbers (before ++ reply ∷ []) more) }
    {
        let loads = sum(self.loads, 1)?;
        match reply {
            LoadReply::Hit(_) => {
                let hits = sum(self.hits, 1)?;
                Ok(LoadNumbers { loads, hits })
            }
            LoadReply::Fresh { .. } => Ok(LoadNumbers {
                loads,
                hits: self.hits,
            }),
        }
    }

    /// The numbers with the loads of a loadMany more.
    fn with_loads(self, replies: &[LoadReply]) -> Result<LoadNumbers, AllocError>
        ensures { IfOk result (λ more. (before : List LoadReply) → AreLoadNumbers before self → AreLoadNumbers (before ++ replies.now) more) }
    {
        let mut numbers = self;
        for reply in replies {
            numbers = numbers.with_load(*reply)?;
        }
        Ok(numbers)
    }
}

/// Whether the event is the caller's, or you name no caller.
fn is_by(caller: Option<u32>, event: &Event) -> bool
    ensures { result ≡ is_by caller event.now }
{
    match caller {
        Some(caller) => caller == event.caller,
        None => true,
    }
}

/// Whether the event, if there is one, is the caller's and begins a round.
fn begins_round(caller: u32, event: Option<&Event>) -> bool
    ensures { (events : List Event) (at : ℕ) → option_copied event.entry ≡ slice_get events at
        → length (round_events caller (take (at + 1) events)) ≡ length (round_events caller (take at events)) + one_if result }
{
    match event {
        Some(event) if caller == event.caller => is_round(&event.call),
        _ => false,
    }
}

/// Whether the call begins a round.
pub(crate) fn is_round(call: &Call) -> bool
    ensures { result ≡ is_round call.now }
{
    matches!(call, Call::LoadMany(_))
}

/// The sum of two counts. Fails if no number holds it.
pub(crate) fn sum(count: u64, more: u64) -> Result<u64, AllocError>
    ensures { IfOk result (λ sum. sum ≡ count + more) }
{
    match count.checked_add(more) {
        Some(sum) => Ok(sum),
        None => Err(AllocError),
    }
}
