//! Writes the lines of answers.

ghost use Rattle.std.specs.Prelude.{◌≡◌, ◌++◌, IfOk, OnOk, codes, decimal, flat_map, string_bytes};
ghost use Rattle.dl_plans.specs.ReplyLines.{text_line};
ghost use Rattle.dl_plans.specs.ReportText.{answer_line, batch_fault_text, fault_text};

use dl_desk::BatchFault;
use dl_picture::{key_text, quoted_text};
use dl_scope::StepAnswer;
use dl_terms::{Answer, EvalFault};
use std::alloc::{AllocError, Global};
use std::fmt::Write;

/// Appends the lines of what the steps of a plan answer.
pub(crate) fn push_answers(
    alloc: Global,
    out: &mut String,
    plan: usize,
    answers: &[StepAnswer],
) -> Result<(), AllocError>
    ensures { OnOk result (string_bytes out.new ≡ string_bytes out.old ++ flat_map (answer_line plan) answers.now) }
{
    for given in answers {
        push_answer(alloc, out, plan, given)?;
    }
    Ok(())
}

/// Appends the line of what a step of a plan answers.
fn push_answer(
    alloc: Global,
    out: &mut String,
    plan: usize,
    given: &StepAnswer,
) -> Result<(), AllocError>
    ensures { OnOk result (string_bytes out.new ≡ string_bytes out.old ++ answer_line plan given.now) }
{
    write!(out, "{plan} {} ", given.step)?;
    match &given.answer {
        Answer::Value(value) => {
            let text = value.to_text(alloc)?;
            writeln!(out, "ok {text}")
        }
        Answer::Fault(fault) => push_fault(alloc, out, fault),
    }
}

/// Appends why a term has no value, to the end of its line.
fn push_fault(alloc: Global, out: &mut String, fault: &EvalFault) -> Result<(), AllocError>
    ensures { OnOk result (string_bytes out.new ≡ string_bytes out.old ++ text_line (codes "fault " ++ fault_text fault.now)) }
{
    match fault {
        EvalFault::Key { key, text } => {
            let key = key_text(alloc, key)?;
            let text = quoted_text(alloc, text.as_str())?;
            writeln!(out, "fault key {key} {text}")
        }
        EvalFault::Batch { key, fault } => {
            let key = key_text(alloc, key)?;
            let text = batch_fault_text(alloc, fault)?;
            writeln!(out, "fault batch {key} {text}")
        }
        EvalFault::NoField => writeln!(out, "fault NoField"),
        EvalFault::NotAKey => writeln!(out, "fault NotAKey"),
        EvalFault::NotAList => writeln!(out, "fault NotAList"),
        EvalFault::TooMany => writeln!(out, "fault TooMany"),
        EvalFault::NoItem => writeln!(out, "fault NoItem"),
    }
}

/// Why a batch failed.
pub(crate) fn batch_fault_text(alloc: Global, fault: &BatchFault) -> Result<String, AllocError>
    ensures { IfOk result (λ text. string_bytes text ≡ batch_fault_text fault.now) }
{
    match fault {
        BatchFault::Source(text) => quoted_text(alloc, text.as_str()),
        BatchFault::Memory => String::from_str(alloc, "memory"),
        BatchFault::Unsent => String::from_str(alloc, "unsent"),
    }
}
