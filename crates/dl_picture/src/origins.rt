//! Where the faults of a plan's terms come from, and how many loads the terms ask for, by the rounds in which they read.

ghost use Rattle.std.specs.Prelude.{◌≡◌, ◌≤◌, [], IfOk, drop, length, map};
ghost use Rattle.dl_picture.specs.FaultPath.{HasOrigin, HaveOrigins, MayEndWith};
ghost use Rattle.dl_picture.specs.Numbers.{round_events};
ghost use Rattle.dl_picture.specs.Seeking.{origin_of};
ghost use Rattle.dl_picture.specs.TermLoads.{known_by, loads_in, rounds_after, term_loads};
ghost use Rattle.dl_terms.specs.View.{term_view};

use crate::asked::{Cells, read_round, rounds_of};
use crate::asking::Asking;
use crate::knowledge::Knowledge;
use crate::origin::{Ending, Origin};
use dl_history::{Event, History};
use dl_terms::Term;
use indexmap::IndexMap;
use std::alloc::{AllocError, Global};
use std::hash::RandomState;

/// Where the faults of a served plan's terms come from, in the order of the terms, with `None` for a term that has no
/// fault. The plan is this caller of the history. It evaluates each term once more, over the outcomes that the plan
/// read, and loads nothing. `hashing` hashes keys, and nothing that you see depends on it.
///
/// # Errors
/// `AllocError` if memory runs out.
pub fn fault_origins<'t>(
    alloc: Global,
    hashing: RandomState,
    history: &History,
    caller: u32,
    terms: &'t [Term],
) -> Result<Vec<Option<Origin<'t>>>, AllocError>
    ensures { IfOk result (λ origins. HaveOrigins history.now.events (map term_view terms.now) (round_events caller history.now.events) origins.items) }
{
    let rounds = rounds_of(alloc, history.events(), caller)?;
    origins_of(alloc, hashing, history, terms, rounds.as_slice())
}

/// The origins of the faults of terms, one after another, of which the first reads from the first of these rounds on.
fn origins_of<'t>(
    alloc: Global,
    hashing: RandomState,
    history: &History,
    terms: &'t [Term],
    rounds: &[&Event],
) -> Result<Vec<Option<Origin<'t>>>, AllocError>
    ensures { IfOk result (λ origins. HaveOrigins history.now.events (map term_view terms.now) (map (λ e. e.now) rounds.now) origins.items) }
{
    let mut origins = Vec::with_capacity(alloc, terms.len())?;
    let mut passed = 0;
    for term in terms {
        let (_, left) = rounds.split_at(passed);
        let (origin, _, read) = read_term(alloc, hashing, history, term, left)?;
        origins.push_reserved(origin);
        passed += read;
    }
    Ok(origins)
}

/// The origin of a term's fault, if it has one, how many loads the term asks for, and how many of these rounds it reads
/// until it has its answer.
pub(crate) fn read_term<'t>(
    alloc: Global,
    hashing: RandomState,
    history: &History,
    term: &'t Term,
    rounds: &[&Event],
) -> Result<(Option<Origin<'t>>, u64, usize), AllocError>
    ensures origin { IfOk result (λ r. HasOrigin history.now.events (term_view term.now) (map (λ e. e.now) rounds.now) r.0) }
    ensures loads { IfOk result (λ r. r.1 ≡ loads_in history.now.events (term_view term.now) [] (map (λ e. e.now) rounds.now)) }
    ensures left { IfOk result (λ r. drop r.2 (map (λ e. e.now) rounds.now) ≡ rounds_after history.now.events (term_view term.now) [] (map (λ e. e.now) rounds.now)) }
    ensures within { IfOk result (λ r. r.2 ≤ length rounds.now) }
{
    let mut cells = IndexMap::with_hasher(alloc, hashing);
    read_rounds(alloc, history, &mut cells, term, rounds)
}

/// The same, by reading the rounds into these cells, of which there are none yet.
fn read_rounds<'t>(
    alloc: Global,
    history: &History,
    cells: &mut Cells,
    term: &'t Term,
    rounds: &[&Event],
) -> Result<(Option<Origin<'t>>, u64, usize), AllocError>
    requires { cells.old.entries ≡ [] }
    ensures origin { IfOk result (λ r. HasOrigin history.now.events (term_view term.now) (map (λ e. e.now) rounds.now) r.0) }
    ensures loads { IfOk result (λ r. r.1 ≡ loads_in history.now.events (term_view term.now) [] (map (λ e. e.now) rounds.now)) }
    ensures left { IfOk result (λ r. drop r.2 (map (λ e. e.now) rounds.now) ≡ rounds_after history.now.events (term_view term.now) [] (map (λ e. e.now) rounds.now)) }
    ensures within { IfOk result (λ r. r.2 ≤ length rounds.now) }
{
    for (place, round) in rounds.iter().enumerate() {
        let (ending, loads) = ending_known(alloc, history, cells, term)?;
        match ending {
            None => read_round(cells, *round)?,
            ending => return Ok((origin_of(ending), loads, place)),
        }
    }
    let (ending, loads) = ending_known(alloc, history, cells, term)?;
    Ok((origin_of(ending), loads, rounds.len()))
}

/// What a term ends with that has read these cells, or `None` if it waits, and how many loads it asks for.
fn ending_known<'t>(
    alloc: Global,
    history: &History,
    cells: &Cells,
    term: &'t Term,
) -> Result<(Option<Ending<'t>>, u64), AllocError>
    ensures ends { IfOk result (λ r. MayEndWith (known_by history.now.events cells.now.entries) (term_view term.now) r.0) }
    ensures loads { IfOk result (λ r. r.1 ≡ term_loads (known_by history.now.events cells.now.entries) (term_view term.now)) }
{
    let known = Knowledge {
        alloc,
        history,
        cells,
    };
    let mut asking = Asking::new(alloc);
    let ending = known.seek(term, None, &mut asking)?;
    Ok((ending, asking.loads))
}

/// The origin of the fault with which a term ends, if it does.
fn origin_of<'t>(ending: Option<Ending<'t>>) -> Option<Origin<'t>>
    ensures { result ≡ origin_of ending.entry }
{
    match ending {
        Some(Err(origin)) => Some(origin),
        Some(Ok(_)) | None => None,
    }
}
