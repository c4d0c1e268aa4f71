//! Where the faults of answers come from.

ghost use Rattle.std.specs.Prelude.{◌≡◌, IsTrue, IfSome, option_copied};
ghost use Rattle.dl_plans.specs.Explanations.{Explains};

use crate::explanation_lines::push_explanation;
use dl_desk::BatchFault;
use dl_picture::{Origin, fault_origins};
use dl_scope::{MOST_PLANS, Report, StepAnswer};
use dl_terms::{Answer, EvalFault, Term};
use std::alloc::{AllocError, Global};
use std::hash::RandomState;

/// A step whose answer is a fault, and where that comes from. The origin is there if a look at what the plan read finds
/// one of just this fault.
#[derive(Clone, Copy)]
pub(crate) struct Explanation<'r, 't> {
    /// The number of the plan.
    pub(crate) plan: usize,
    /// The number of the step.
    pub(crate) step: usize,
    /// The fault that the step answers.
    pub(crate) fault: &'r EvalFault,
    /// Where it comes from.
    pub(crate) origin: Option<&'r Origin<'t>>,
}

/// A line for each step of a report that answers a fault, in the order of plans and steps: where the fault comes from,
/// by the terms of the plans that were served. Fails if memory runs out.
pub(crate) fn explanation_lines(
    alloc: Global,
    hashing: RandomState,
    report: &Report,
    terms: &[Vec<Term>],
) -> Result<String, AllocError> {
    let mut out = String::new(alloc);
    for (plan, answers) in report.answers().iter().enumerate() {
        let own = match terms.get(plan) {
            Some(own) => own.as_slice(),
            None => &[],
        };
        let caller = plan.min(MOST_PLANS) as u32;
        let origins = fault_origins(alloc, hashing, report.history(), caller, own)?;
        push_explanations(alloc, &mut out, plan, answers, origins.as_slice())?;
    }
    Ok(out)
}

/// Appends the lines of a plan, by the origins of its terms.
fn push_explanations(
    alloc: Global,
    out: &mut String,
    plan: usize,
    answers: &[StepAnswer],
    origins: &[Option<Origin<'_>>],
) -> Result<(), AllocError> {
    for (place, given) in answers.iter().enumerate() {
        let origin = match origins.get(place) {
            Some(Some(origin)) => Some(origin),
            _ => None,
        };
        if let Some(explained) = explain_step(plan, given, origin) {
            push_explanation(alloc, out, &explained)?;
        }
    }
    Ok(())
}

/// The explanation of a step's answer, if that is a fault, by the origin that was found for its term.
fn explain_step<'r, 't>(
    plan: usize,
    given: &'r StepAnswer,
    origin: Option<&'r Origin<'t>>,
) -> Option<Explanation<'r, 't>>
    ensures { Explains plan given.now (option_copied origin.entry) result }
{
    match &given.answer {
        Answer::Value(_) => None,
        Answer::Fault(fault) => Some(Explanation {
            plan,
            step: given.step,
            fault,
            origin: origin_of(fault, origin),
        }),
    }
}

/// The origin, if it is one of this fault.
fn origin_of<'r, 't>(fault: &EvalFault, origin: Option<&'r Origin<'t>>) -> Option<&'r Origin<'t>>
    ensures fault { IfSome result (λ o. o.now.fault ≡ fault.now) }
    ensures origin { IfSome result (λ o. option_copied origin.entry ≡ Some o.now) }
{
    match origin {
        Some(origin) if is_same_fault(&origin.fault, fault) => Some(origin),
        _ => None,
    }
}

/// Whether two faults are the same.
fn is_same_fault(one: &EvalFault, other: &EvalFault) -> bool
    ensures { IsTrue result → one.now ≡ other.now }
{
    match (one, other) {
        (
            EvalFault::Key { key, text },
            EvalFault::Key {
                key: own,
                text: said,
            },
        ) => { key == own && text.as_str() == said.as_str() }
        (
            EvalFault::Batch { key, fault },
            EvalFault::Batch {
                key: own,
                fault: said,
            },
        ) => { key == own && is_same_batch_fault(fault, said) }
        (EvalFault::NoField, EvalFault::NoField) => true,
        (EvalFault::NotAKey, EvalFault::NotAKey) => true,
        (EvalFault::NotAList, EvalFault::NotAList) => true,
        (EvalFault::TooMany, EvalFault::TooMany) => true,
        (EvalFault::NoItem, EvalFault::NoItem) => true,
        _ => false,
    }
}

/// Whether batches failed for the same.
fn is_same_batch_fault(one: &BatchFault, other: &BatchFault) -> bool
    ensures { IsTrue result → one.now ≡ other.now }
{
    match (one, other) {
        (BatchFault::Source(text), BatchFault::Source(said)) => text.as_str() == said.as_str(),
        (BatchFault::Memory, BatchFault::Memory) => true,
        (BatchFault::Unsent, BatchFault::Unsent) => true,
        _ => false,
    }
}
