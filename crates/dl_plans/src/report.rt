//! Writes the text of a report.

ghost use Rattle.std.specs.Prelude.{◌≡◌, ◌++◌, IfOk, OnOk, string_bytes};
ghost use Rattle.dl_desk.specs.Events.{atoms};
ghost use Rattle.dl_history.specs.History.{past};
ghost use Rattle.dl_plans.specs.ReportText.{report_text, rounds_text};

use crate::answer_lines::push_answers;
use crate::batch_lines::push_batches;
use dl_scope::Report;
use std::alloc::{AllocError, Global};
use std::fmt::Write;

/// The text of a report: a line for each answer, in the order of plans and steps. If you want `batches` and there is
/// exactly one plan, its rounds and all batches follow.
///
/// # Errors
/// `AllocError` if memory runs out.
pub fn report_text(alloc: Global, report: &Report, batches: bool) -> Result<String, AllocError>
    ensures { IfOk result (λ text. string_bytes text ≡ report_text report.now batches) }
{
    let mut out = String::new(alloc);
    for (plan, answers) in report.answers().iter().enumerate() {
        push_answers(alloc, &mut out, plan, answers)?;
    }
    if batches && report.answers().len() == 1 {
        push_rounds(alloc, &mut out, report)?;
    }
    Ok(out)
}

/// Appends the line of the rounds of the first plan, and those of all batches.
fn push_rounds(alloc: Global, out: &mut String, report: &Report) -> Result<(), AllocError>
    ensures { OnOk result (string_bytes out.new ≡ string_bytes out.old ++ rounds_text report.now.rounds (atoms (past report.now.history.events))) }
{
    match report.rounds().first() {
        Some(rounds) => {
            writeln!(out, "rounds {rounds}")?;
            push_batches(alloc, out, &report.history().batches())
        }
        None => Ok(()),
    }
}
