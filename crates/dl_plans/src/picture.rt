//! The picture and the trace of a report, and the terms that are kept for it.

ghost use Rattle.std.specs.Prelude.{◌≡◌, IfOk, IfSome, map};
ghost use Rattle.dl_picture.specs.TermLoads.{plan_terms, trees_of_terms};

use crate::settings::Options;
use dl_picture::{history_picture, history_trace, terms_of};
use dl_scope::{MOST_PLANS, Report};
use dl_terms::{Plan, Term};
use std::alloc::{AllocError, Global};
use std::hash::RandomState;

/// The terms of each plan, if the options ask for a picture or for explanations. Fails if memory runs out.
pub(crate) fn kept_terms(
    alloc: Global,
    plans: &[Plan],
    options: &Options,
) -> Result<Option<Vec<Vec<Term>>>, AllocError>
    ensures { IfOk result (λ kept. IfSome kept (λ terms. trees_of_terms terms.items ≡ map plan_terms plans.now)) }
{
    if options.picture.is_none() && !options.explain {
        return Ok(None);
    }
    Ok(Some(terms_of(alloc, plans)?))
}

/// The picture of what serving the plans with these terms left. Fails if memory runs out.
pub(crate) fn report_picture(
    alloc: Global,
    hashing: RandomState,
    report: &Report,
    terms: &[Vec<Term>],
) -> Result<String, AllocError> {
    history_picture(alloc, hashing, report.history(), Some(terms))
}

/// The trace of what serving plans by so many workers left. Fails if memory runs out.
pub(crate) fn report_trace(
    alloc: Global,
    report: &Report,
    workers: u32,
) -> Result<String, AllocError> {
    let plans = plans_of(report);
    let callers = plans.saturating_add(workers);
    history_trace(alloc, report.history(), Some(plans), callers)
}

/// How many plans were served.
fn plans_of(report: &Report) -> u32 {
    report.rounds().len().min(MOST_PLANS) as u32
}
