//! What each round of a plan loads for, as the number of its step and the parts of its term that wait, and which steps
//! end in faults of their terms' own forms.

use crate::asked::{Cells, read_round};
use crate::asking::{Asking, Loading};
use crate::faults::{Ends, StepFault, faults_after, push_end, step_fault};
use crate::knowledge::Knowledge;
use crate::origin::Origin;
use crate::origins::fault_origins;
use crate::sheet::Sheet;
use dl_history::{Call, Event, Events, History};
use dl_terms::Term;
use indexmap::IndexMap;
use std::alloc::{AllocError, Global};
use std::hash::RandomState;

impl Loading<'_> {
    /// Appends it: its form, and the key or the field.
    fn push_to(self, sheet: &mut Sheet) {
        match self {
            Loading::Load(key) => {
                sheet.push("load ");
                sheet.push(key.table());
                sheet.push("/");
                sheet.push(key.id());
            }
            Loading::Follow(field) => {
                sheet.push("follow ");
                sheet.push(field.as_str());
            }
            Loading::Each(field) => {
                sheet.push("each ");
                sheet.push(field.as_str());
            }
        }
    }
}

/// A round of a plan, and how many primes and clears the plan made before it.
#[derive(Clone, Copy)]
struct Round<'h> {
    event: &'h Event,
    others: u64,
}

/// The rounds of a plan, and how many primes and clears it made in all.
#[derive(Drop)]
struct Rounds<'h> {
    rounds: Vec<Round<'h>>,
    others: u64,
}

impl Rounds<'_> {
    /// How many primes and clears the plan made before the last of its first `passed` rounds, or before all of them.
    fn others_before(&self, passed: usize) -> u64 {
        match passed.checked_sub(1) {
            Some(last) => self.others_from(last),
            None => 0,
        }
    }

    /// How many it made before the round in this place, or at all if there is none.
    fn others_from(&self, place: usize) -> u64 {
        match self.rounds.get(place) {
            Some(round) => round.others,
            None => self.others,
        }
    }

    /// The number of the step of the term with this number that reads rounds up to the first `passed` ones.
    fn step_of_round(&self, term: u64, passed: usize) -> u64 {
        self.others_before(passed).saturating_add(term)
    }

    /// The number of the step of the term with this number that takes no round and comes behind the first `passed` ones,
    /// unless a prime or a clear is there too.
    fn step_between(&self, term: u64, passed: usize) -> Option<u64> {
        let others = self.others_before(passed);
        if self.others_from(passed) == others {
            Some(others.saturating_add(term))
        } else {
            None
        }
    }
}

/// What a lane says of the steps of its plan.
#[derive(Drop)]
pub(crate) struct Steps {
    /// What each round loads for.
    parts: Vec<String>,
    /// The faults in which steps end with a round.
    ends: Vec<Ends>,
    /// Those in which steps end that take no round.
    others: Vec<Ends>,
}

impl Steps {
    /// What the round in this place loads for, if that is known.
    pub(crate) fn part(&self, place: usize) -> Option<&str> {
        match self.parts.get(place) {
            Some(part) => Some(part.as_str()),
            None => None,
        }
    }

    /// The fault in which a step ends with the round in this place, if it does.
    pub(crate) fn faults_at(&self, place: usize) -> &[StepFault] {
        faults_after(self.ends.as_slice(), place.saturating_add(1))
    }

    /// The faults in which steps end before the round in this place, behind the one before, and take no round.
    pub(crate) fn faults_before(&self, place: usize) -> &[StepFault] {
        faults_after(self.others.as_slice(), place)
    }

    /// With the fault of a term, if it has one of its own form: the term with this number, which comes behind `before`
    /// rounds and reads what there is up to now. Fails if memory runs out.
    fn push_fault(
        &mut self,
        alloc: Global,
        rounds: &Rounds<'_>,
        term: u64,
        before: usize,
        origin: &Origin<'_>,
    ) -> Result<(), AllocError> {
        let passed = self.parts.len();
        let takes_rounds = before < passed;
        let number = if takes_rounds {
            Some(rounds.step_of_round(term, passed))
        } else {
            rounds.step_between(term, passed)
        };
        if let Some(fault) = step_fault(alloc, number, origin)? {
            let ends = if takes_rounds {
                &mut self.ends
            } else {
                &mut self.others
            };
            push_end(alloc, ends, passed, fault)?;
        }
        Ok(())
    }
}

/// What the lane of each plan says of its steps, in order. Fails if memory runs out.
pub(crate) fn plan_steps(
    alloc: Global,
    hashing: RandomState,
    history: &History,
    plans: &[Vec<Term>],
) -> Result<Vec<Steps>, AllocError> {
    let mut steps = Vec::new(alloc);
    let mut caller: u32 = 0;
    for terms in plans {
        let own = steps_of(alloc, hashing, history, terms.as_slice(), caller)?;
        steps.push(own)?;
        caller = caller.saturating_add(1);
    }
    Ok(steps)
}

/// What the lane of a plan says of its steps, by the plan's caller and its terms. Fails if memory runs out.
fn steps_of(
    alloc: Global,
    hashing: RandomState,
    history: &History,
    terms: &[Term],
    caller: u32,
) -> Result<Steps, AllocError> {
    let rounds = rounds_of(alloc, history.events(), caller)?;
    let origins = fault_origins(alloc, hashing, history, caller, terms)?;
    let mut steps = Steps {
        parts: Vec::new(alloc),
        ends: Vec::new(alloc),
        others: Vec::new(alloc),
    };
    for (place, term) in terms.iter().enumerate() {
        let (number, before) = (place as u64, steps.parts.len());
        let passed = rounds.rounds.as_slice();
        push_parts(
            alloc,
            hashing,
            history,
            passed,
            (number, term),
            &mut steps.parts,
        )?;
        if let Some(Some(origin)) = origins.get(place) {
            steps.push_fault(alloc, &rounds, number, before, origin)?;
        }
    }
    Ok(steps)
}

/// The rounds of a caller. Fails if memory runs out.
fn rounds_of<'h>(alloc: Global, events: &'h Events, caller: u32) -> Result<Rounds<'h>, AllocError> {
    let mut rounds = Vec::new(alloc);
    let mut others: u64 = 0;
    for at in 0..events.len() {
        if let Some(event) = events.get(at) {
            if event.caller == caller {
                match &event.call {
                    Call::LoadMany(_) => rounds.push(Round { event, others })?,
                    Call::Prime(_, _) | Call::Clear(_) | Call::ClearAll => {
                        others = others.saturating_add(1);
                    }
                    _ => {}
                }
            }
        }
    }
    Ok(Rounds { rounds, others })
}

/// Appends what the rounds of a term load for, of which the first is the one after those that have their parts. You give
/// the term with its number among those of the plan. Fails if memory runs out.
fn push_parts(
    alloc: Global,
    hashing: RandomState,
    history: &History,
    rounds: &[Round<'_>],
    numbered: (u64, &Term),
    parts: &mut Vec<String>,
) -> Result<(), AllocError> {
    let mut cells = IndexMap::with_hasher(alloc, hashing);
    push_waiting(alloc, history, rounds, numbered, &mut cells, parts)
}

/// Appends what the rounds of a term load for, as long as it waits, and reads them into these cells.
fn push_waiting(
    alloc: Global,
    history: &History,
    rounds: &[Round<'_>],
    numbered: (u64, &Term),
    cells: &mut Cells,
    parts: &mut Vec<String>,
) -> Result<(), AllocError> {
    let (number, term) = numbered;
    for place in parts.len()..rounds.len() {
        let Some(round) = rounds.get(place) else {
            return Ok(());
        };
        let step = round.others.saturating_add(number);
        match part_waiting(alloc, history, cells, step, term)? {
            Some(part) => parts.push(part)?,
            None => return Ok(()),
        }
        read_round(cells, round.event)?;
    }
    Ok(())
}

/// The text of the part of a term that waits, in the step with this number, or `None` if the term has its answer.
fn part_waiting(
    alloc: Global,
    history: &History,
    cells: &Cells,
    step: u64,
    term: &Term,
) -> Result<Option<String>, AllocError> {
    let known = Knowledge {
        alloc,
        history,
        cells,
    };
    let mut asking = Asking::new(alloc);
    known.seek(term, None, &mut asking)?;
    match asking.first {
        Some(first) => Ok(Some(part_text(alloc, step, first, &asking)?)),
        None => Ok(None),
    }
}

/// The text of a step's number, the first part that waits with the places of the items around it, and how many others do.
fn part_text(
    alloc: Global,
    step: u64,
    first: Loading<'_>,
    asking: &Asking<'_>,
) -> Result<String, AllocError> {
    let mut sheet = Sheet::new(alloc);
    sheet.push_number("eval ", step);
    sheet.push(": ");
    for place in &asking.places {
        sheet.push_number("item ", *place as u64);
        sheet.push(": ");
    }
    first.push_to(&mut sheet);
    if asking.others > 0 {
        sheet.push_number(" +", asking.others);
    }
    sheet.finish()
}
