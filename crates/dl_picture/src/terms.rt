//! The terms of plans, which serving the plans takes.

ghost use Rattle.std.specs.Prelude.{◌≡◌, ◌++◌, IfOk, OnOk, map};
ghost use Rattle.dl_picture.specs.TermLoads.{plan_terms, step_terms, trees_of_terms};
ghost use Rattle.dl_terms.specs.View.{term_view};

use dl_terms::{Plan, Step, Term};
use std::alloc::{AllocError, Global};

/// Copies of the terms of each plan, in order. They share the texts and values of the plans.
///
/// # Errors
/// `AllocError` if memory runs out.
///
/// # Examples
/// Keeps the terms of plans that are to be served, from `crates/dl_plans`:
///
/// ```rust
/// Ok(Some(terms_of(alloc, plans)?))
/// ```
pub fn terms_of(alloc: Global, plans: &[Plan]) -> Result<Vec<Vec<Term>>, AllocError>
    ensures { IfOk result (λ copies. trees_of_terms copies.items ≡ map plan_terms plans.now) }
{
    let mut copies = Vec::with_capacity(alloc, plans.len())?;
    for plan in plans {
        copies.push(terms_of_plan(alloc, plan)?)?;
    }
    Ok(copies)
}

/// Copies of the terms of a plan, in order.
fn terms_of_plan(alloc: Global, plan: &Plan) -> Result<Vec<Term>, AllocError>
    ensures { IfOk result (λ copies. map term_view copies.items ≡ plan_terms plan.now) }
{
    let mut copies = Vec::new(alloc);
    for step in plan.steps.iter() {
        push_term(alloc, &mut copies, step)?;
    }
    Ok(copies)
}

/// Appends a copy of a step's term, if it has one.
fn push_term(alloc: Global, copies: &mut Vec<Term>, step: &Step) -> Result<(), AllocError>
    ensures { OnOk result (map term_view copies.new.items ≡ map term_view copies.old.items ++ step_terms step.now) }
{
    match step {
        Step::Eval(term) => {
            copies.push(term.try_copy(alloc)?)?;
            Ok(())
        }
        Step::Prime(_, _) | Step::Clear(_) | Step::ClearAll => Ok(()),
    }
}
