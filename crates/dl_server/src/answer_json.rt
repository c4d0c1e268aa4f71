//! Writes a report as JSON.
#![tactic(auto, unfolding(json::specs::Print::escape_byte))]

ghost use Rattle.std.specs.Prelude.{◌≡◌, ◌++◌, true, IfOk, OnOk, string_bytes};
ghost use Rattle.serde_json.specs.Written.{compact_text, members_text};
ghost use Rattle.dl_server.specs.AnswerJson.{answer_tree, answers_tree, batch_members, fault_tree, report_json, rounds_tree};

use dl_desk::BatchFault;
use dl_picture::{key_text, quoted_text};
use dl_scope::{Report, StepAnswer};
use dl_terms::{Answer, EvalFault};
use std::alloc::{AllocError, Global};
use std::fmt::Write;

/// A report as JSON: an object with the members `answers`, for each plan the list of what its terms answer, and `rounds`,
/// for each plan how many rounds of loads its terms took. An answer is an object with the number of its `step`, and either
/// its value, as `ok`, or a `fault`, with the key and the text that the program `plans` prints of the same fault.
///
/// # Errors
/// `AllocError` if memory runs out.
pub fn report_json(alloc: Global, report: &Report) -> Result<String, AllocError>
    ensures { IfOk result (λ text. string_bytes text ≡ report_json report.now) }
{
    let mut out = String::from_str(alloc, "{\"answers\":[")?;
    let mut before = "";
    let plans = report.answers();
    for answers in plans {
        out.push_str(before)?;
        push_answers(alloc, &mut out, answers.as_slice())?;
        before = ",";
    }
    out.push_str("],\"rounds\":")?;
    push_rounds(&mut out, report.rounds())?;
    out.push_str("}")?;
    Ok(out)
}

/// Appends the list of how many rounds the plans took.
fn push_rounds(out: &mut String, rounds: &[u64]) -> Result<(), AllocError>
    ensures { OnOk result (string_bytes out.new ≡ string_bytes out.old ++ compact_text (rounds_tree rounds.now)) }
{
    out.push_str("[")?;
    let mut before = "";
    for count in rounds {
        out.push_str(before)?;
        write!(out, "{count}")?;
        before = ",";
    }
    out.push_str("]")?;
    Ok(())
}

/// Appends the list of what the terms of a plan answer.
fn push_answers(alloc: Global, out: &mut String, answers: &[StepAnswer]) -> Result<(), AllocError>
    ensures { OnOk result (string_bytes out.new ≡ string_bytes out.old ++ compact_text (answers_tree answers.now)) }
{
    out.push_str("[")?;
    let mut before = "";
    for given in answers {
        out.push_str(before)?;
        push_answer(alloc, out, given)?;
        before = ",";
    }
    out.push_str("]")?;
    Ok(())
}

/// Appends what a term answers.
fn push_answer(alloc: Global, out: &mut String, given: &StepAnswer) -> Result<(), AllocError>
    ensures { OnOk result (string_bytes out.new ≡ string_bytes out.old ++ compact_text (answer_tree given.now)) }
{
    match &given.answer {
        Answer::Value(value) => {
            let text = value.to_text(alloc)?;
            write!(out, "{{\"ok\":{text},\"step\":{}}}", given.step)
        }
        Answer::Fault(fault) => push_fault(alloc, out, fault, given.step),
    }
}

/// Appends why the term of this step has no value.
fn push_fault(
    alloc: Global,
    out: &mut String,
    fault: &EvalFault,
    step: usize,
) -> Result<(), AllocError>
    ensures { OnOk result (string_bytes out.new ≡ string_bytes out.old ++ compact_text (fault_tree fault.now step)) }
{
    match fault {
        EvalFault::Key { key, text } => {
            let key = key_text(alloc, key)?;
            let text = quoted_text(alloc, text.as_str())?;
            write!(
                out,
                "{{\"fault\":\"key\",\"key\":{key},\"step\":{step},\"text\":{text}}}"
            )
        }
        EvalFault::Batch { key, fault } => {
            let key = key_text(alloc, key)?;
            let rest = batch_members(alloc, fault)?;
            write!(
                out,
                "{{\"fault\":\"batch\",\"key\":{key},\"step\":{step}{rest}"
            )
        }
        EvalFault::NoField => write!(out, "{{\"fault\":\"NoField\",\"step\":{step}}}"),
        EvalFault::NotAKey => write!(out, "{{\"fault\":\"NotAKey\",\"step\":{step}}}"),
        EvalFault::NotAList => write!(out, "{{\"fault\":\"NotAList\",\"step\":{step}}}"),
        EvalFault::TooMany => write!(out, "{{\"fault\":\"TooMany\",\"step\":{step}}}"),
        EvalFault::NoItem => write!(out, "{{\"fault\":\"NoItem\",\"step\":{step}}}"),
    }
}

/// The end of an object, from a comma on: why a batch failed, with the text with which the source broke, or that the batch
/// was given up.
fn batch_members(alloc: Global, fault: &BatchFault) -> Result<String, AllocError>
    ensures { IfOk result (λ rest. string_bytes rest ≡ members_text true (batch_members fault.now)) }
{
    match fault {
        BatchFault::Source(text) => {
            let text = quoted_text(alloc, text.as_str())?;
            format!(in alloc; ",\"text\":{text}}}")
        }
        BatchFault::Memory => String::from_str(alloc, ",\"unfetched\":\"memory\"}"),
        BatchFault::Unsent => String::from_str(alloc, ",\"unfetched\":\"unsent\"}"),
    }
}
