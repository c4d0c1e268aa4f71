//! Faults of terms' own forms: in which step, and what is wrong.

use crate::knowledge::MOST_ITEMS;
use crate::origin::{Met, Origin, PathStep};
use crate::sheet::Sheet;
use dl_terms::{EvalFault, Term};
use std::alloc::{AllocError, Global};

/// The fault of its term's own form in which a step ends.
#[derive(Drop)]
pub(crate) struct StepFault {
    /// The number of the step, if it is known, and in bodies the places of the items.
    pub(crate) step: String,
    /// What is wrong.
    pub(crate) why: String,
}

/// The faults in which steps end when their plan has made this many rounds.
#[derive(Drop)]
pub(crate) struct Ends {
    rounds: usize,
    faults: Vec<StepFault>,
}

/// Appends a fault in which a step ends after this many rounds, which are no fewer than before. Fails if memory runs out.
pub(crate) fn push_end(
    alloc: Global,
    ends: &mut Vec<Ends>,
    rounds: usize,
    fault: StepFault,
) -> Result<(), AllocError> {
    if let Some(last) = ends.last_mut() {
        if last.rounds == rounds {
            last.faults.push(fault)?;
            return Ok(());
        }
    }
    let mut faults = Vec::new(alloc);
    faults.push(fault)?;
    ends.push(Ends { rounds, faults })?;
    Ok(())
}

/// The faults in which steps end after this many rounds.
pub(crate) fn faults_after(ends: &[Ends], rounds: usize) -> &[StepFault] {
    for end in ends {
        if end.rounds == rounds {
            return end.faults.as_slice();
        }
    }
    &[]
}

/// The fault of a step, by its origin, unless it is the outcome of a key. You give the number of the step if you know
/// it. Fails if memory runs out.
pub(crate) fn step_fault(
    alloc: Global,
    number: Option<u64>,
    origin: &Origin<'_>,
) -> Result<Option<StepFault>, AllocError> {
    if let EvalFault::Key { .. } | EvalFault::Batch { .. } = &origin.fault {
        return Ok(None);
    }
    let step = step_text(alloc, number, origin.path.as_slice())?;
    let why = why_text(alloc, origin)?;
    Ok(Some(StepFault { step, why }))
}

/// The text of a step's number and of the places of the items in whose bodies a path leads.
fn step_text(
    alloc: Global,
    number: Option<u64>,
    path: &[PathStep<'_>],
) -> Result<String, AllocError> {
    let mut sheet = Sheet::new(alloc);
    sheet.push("eval");
    if let Some(number) = number {
        sheet.push_number(" ", number);
    }
    for step in path.iter().rev() {
        if matches!(step.term, Term::Over { .. }) && step.part > 0 {
            sheet.push_number(": item ", (step.part - 1) as u64);
        }
    }
    sheet.finish()
}

/// The text of what is wrong with a part.
fn why_text(alloc: Global, origin: &Origin<'_>) -> Result<String, AllocError> {
    let mut sheet = Sheet::new(alloc);
    let field = field_of(origin.part);
    match (&origin.fault, field) {
        (EvalFault::NoField, _) => push_field(&mut sheet, "no field ", field),
        (EvalFault::NotAKey, _) => {
            if let Met::Item(place, _) = &origin.met {
                sheet.push_number("item ", *place as u64);
                sheet.push(" of ");
            }
            push_field(&mut sheet, "", field);
            sheet.push(" is no id");
        }
        (EvalFault::NotAList, Some(_)) => {
            push_field(&mut sheet, "", field);
            sheet.push(" is no list");
        }
        (EvalFault::NotAList, None) => sheet.push("no list to go over"),
        (EvalFault::TooMany, _) => {
            sheet.push_number("over ", MOST_ITEMS as u64);
            sheet.push(" items");
            push_field(&mut sheet, " in ", field);
        }
        (EvalFault::NoItem, _) => sheet.push("item outside an over"),
        (EvalFault::Key { .. } | EvalFault::Batch { .. }, _) => {}
    }
    sheet.finish()
}

/// Appends these words and a field, if there is one.
fn push_field(sheet: &mut Sheet, words: &str, field: Option<&str>) {
    if let Some(field) = field {
        sheet.push(words);
        sheet.push_quoted(field);
    }
}

/// The field of a part, if it has one.
fn field_of(part: &Term) -> Option<&str> {
    match part {
        Term::Pick { field, .. } | Term::Follow { field, .. } | Term::Each { field, .. } => {
            Some(field.as_str())
        }
        _ => None,
    }
}
