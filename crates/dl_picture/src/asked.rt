//! How many loads the terms of plans ask for, by the rounds in which they read.

ghost use Rattle.std.specs.Prelude.{◌≡◌, ◌+◌, ◌≤◌, ◌&&◌, ℕ, List, [], IfOk, OnOk, drop, length, map, nat_eq, option_copied, slice_get, take};
ghost use Rattle.indexmap.specs.IndexMap.{insert_entry};
ghost use Rattle.dl_values.specs.Key.{key_eq};
ghost use Rattle.dl_history.specs.Entries.{cell_of_load};
ghost use Rattle.dl_desk.specs.declared.event.Event.{Event};
ghost use Rattle.dl_picture.specs.Numbers.{is_round, round_events};
ghost use Rattle.dl_picture.specs.TermLoads.{loads_asked, loads_in, rounds_after, terms_loads, trees_of_terms, with_call, with_loads};
ghost use Rattle.dl_terms.specs.View.{term_view};

use crate::loads::{is_round, sum};
use crate::origins::read_term;
use dl_desk::{FetchKey, LoadReply};
use dl_history::{Call, Event, Events, History, Reply, load_cell};
use dl_terms::Term;
use indexmap::IndexMap;
use std::alloc::{AllocError, Global};
use std::hash::RandomState;

/// The cell of each key that a term has read.
pub(crate) type Cells = IndexMap<FetchKey, u32, RandomState>;

/// How many loads the terms of served plans ask for, each as often as it appears in its term: without a loader, each of
/// them is a fetch. An `each` asks once for each of its ids, and a term that ends in a fault for what it met until then.
/// You give the terms of each plan, in order, and plan n is caller n of the history. `hashing` hashes keys, and nothing
/// that you see depends on it.
///
/// # Errors
/// `AllocError` if memory runs out, or if there are more than a number can count, which no memory holds.
pub fn loads_asked(
    alloc: Global,
    hashing: RandomState,
    history: &History,
    plans: &[Vec<Term>],
) -> Result<u64, AllocError>
    ensures { IfOk result (λ loads. loads ≡ loads_asked history.now.events (trees_of_terms plans.now)) }
{
    let mut loads: u64 = 0;
    let mut caller: u32 = 0;
    for terms in plans {
        let more = plan_loads(alloc, hashing, history, terms.as_slice(), caller)?;
        loads = sum(loads, more)?;
        caller = next_caller(caller)?;
    }
    Ok(loads)
}

/// The caller of the next plan. Fails if no number holds it.
fn next_caller(caller: u32) -> Result<u32, AllocError>
    ensures { IfOk result (λ next. next ≡ caller + 1) }
{
    match caller.checked_add(1) {
        Some(next) => Ok(next),
        None => Err(AllocError),
    }
}

/// The loads that the terms of a plan ask for, which is this caller.
fn plan_loads(
    alloc: Global,
    hashing: RandomState,
    history: &History,
    terms: &[Term],
    caller: u32,
) -> Result<u64, AllocError>
    ensures { IfOk result (λ loads. loads ≡ terms_loads history.now.events (map term_view terms.now) (round_events caller history.now.events)) }
{
    let rounds = rounds_of(alloc, history.events(), caller)?;
    terms_loads(alloc, hashing, history, terms, rounds.as_slice())
}

/// The events by which a caller began its rounds.
pub(crate) fn rounds_of<'h>(
    alloc: Global,
    events: &'h Events,
    caller: u32,
) -> Result<Vec<&'h Event>, AllocError>
    ensures { IfOk result (λ rounds. map (λ e. e.now) rounds.items ≡ round_events caller events.now) }
{
    let mut rounds = Vec::new(alloc);
    for at in 0..events.len() {
        push_round(&mut rounds, caller, events.get(at))?;
    }
    Ok(rounds)
}

/// Appends the event, if there is one and it begins a round of the caller.
fn push_round<'h>(
    rounds: &mut Vec<&'h Event>,
    caller: u32,
    event: Option<&'h Event>,
) -> Result<(), AllocError>
    ensures { OnOk result ((events : List Event) (at : ℕ) → option_copied event.entry ≡ slice_get events at
        → map (λ e. e.now) rounds.old.items ≡ round_events caller (take at events) → map (λ e. e.now) rounds.new.items ≡ round_events caller (take (at + 1) events)) }
{
    match event {
        Some(event) if is_round_of(caller, event) => {
            rounds.push(event)?;
            Ok(())
        }
        _ => Ok(()),
    }
}

/// Whether the event begins a round of the caller.
fn is_round_of(caller: u32, event: &Event) -> bool
    ensures { result ≡ (nat_eq caller event.now.caller && is_round event.now.call) }
{
    caller == event.caller && is_round(&event.call)
}

/// The loads that terms ask for, one after another, of which the first reads from the first of these rounds on.
fn terms_loads(
    alloc: Global,
    hashing: RandomState,
    history: &History,
    terms: &[Term],
    rounds: &[&Event],
) -> Result<u64, AllocError>
    ensures { IfOk result (λ loads. loads ≡ terms_loads history.now.events (map term_view terms.now) (map (λ e. e.now) rounds.now)) }
{
    let mut loads: u64 = 0;
    let mut passed = 0;
    for term in terms {
        let (_, left) = rounds.split_at(passed);
        let (more, read) = term_loads(alloc, hashing, history, term, left)?;
        loads = sum(loads, more)?;
        passed += read;
    }
    Ok(loads)
}

/// The loads that a term asks for, and how many of these rounds it reads until it has its answer.
fn term_loads(
    alloc: Global,
    hashing: RandomState,
    history: &History,
    term: &Term,
    rounds: &[&Event],
) -> Result<(u64, usize), AllocError>
    ensures loads { IfOk result (λ r. r.0 ≡ loads_in history.now.events (term_view term.now) [] (map (λ e. e.now) rounds.now)) }
    ensures left { IfOk result (λ r. drop r.1 (map (λ e. e.now) rounds.now) ≡ rounds_after history.now.events (term_view term.now) [] (map (λ e. e.now) rounds.now)) }
    ensures within { IfOk result (λ r. r.1 ≤ length rounds.now) }
{
    let (_, loads, read) = read_term(alloc, hashing, history, term, rounds)?;
    Ok((loads, read))
}

/// Reads the loads of a round.
pub(crate) fn read_round(cells: &mut Cells, round: &Event) -> Result<(), AllocError>
    ensures { OnOk result (cells.new.entries ≡ with_call cells.old.entries round.now.call round.now.reply) }
{
    match (&round.call, &round.reply) {
        (Call::LoadMany(keys), Reply::Many(replies)) => {
            read_loads(cells, keys.as_slice(), replies.as_slice())
        }
        _ => Ok(()),
    }
}

/// Reads loads: the cell of each key is that of its reply.
fn read_loads(cells: &mut Cells, keys: &[FetchKey], replies: &[LoadReply]) -> Result<(), AllocError>
    ensures { OnOk result (cells.new.entries ≡ with_loads cells.old.entries keys.now replies.now) }
{
    for (place, key) in keys.iter().enumerate() {
        match replies.get(place) {
            Some(reply) => read_load(cells, key, *reply)?,
            None => return Ok(()),
        }
    }
    Ok(())
}

/// Reads a load: the cell of its key is that of its reply.
fn read_load(cells: &mut Cells, key: &FetchKey, reply: LoadReply) -> Result<(), AllocError>
    ensures { OnOk result (cells.new.entries ≡ insert_entry key_eq cells.old.entries key.now (cell_of_load reply)) }
{
    let key = key.try_copy()?;
    cells.insert(key, load_cell(reply))?;
    Ok(())
}
