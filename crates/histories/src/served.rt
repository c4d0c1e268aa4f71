//! Serving plans.

use crate::event_text::push_history;
use crate::restless::Restless;
use crate::sheet::PushJson;
use dl_picture::Sheet;
use dl_scope::{Plan, Report, Setup, StepAnswer, serve};
use dl_terms::{Answer, EvalFault};
use dl_values::{BatchFault, FetchKey};
use std::alloc::{AllocError, Global};
use std::hash::RandomState;
use std::sync::Wait;
use std::thread::Threads;

/// The text of what serving plans leaves: a report, or why there is none.
pub(crate) fn served<R: Threads + Wait + Sync>(
    rt: &R,
    alloc: Global,
    hashing: RandomState,
    source: &Restless,
    setup: Setup,
    plans: Vec<Plan>,
) -> Result<String, AllocError> {
    match serve(rt, alloc, hashing, source, setup, plans, source) {
        Ok(report) => report_text(alloc, &report),
        Err(fault) => format!(in alloc; "{{\"fault\":\"{fault:?}\"}}\n"),
    }
}

/// The answers of each plan, the rounds of the plans, the jobs that went out, got to a worker and are left, and the
/// history.
fn report_text(alloc: Global, report: &Report) -> Result<String, AllocError> {
    let mut sheet = Sheet::new(alloc);
    for (plan, answers) in report.answers().iter().enumerate() {
        push_answers(&mut sheet, plan, answers.as_slice());
    }
    push_numbers(&mut sheet, report);
    push_history(&mut sheet, report.history());
    sheet.finish()
}

/// Appends the rounds of the plans, and the jobs.
fn push_numbers(sheet: &mut Sheet, report: &Report) {
    sheet.push("{\"rounds\":[");
    for (plan, rounds) in report.rounds().iter().enumerate() {
        sheet.part(plan);
        sheet.push_number("", *rounds);
    }
    let tally = report.tally();
    sheet.push_number("],\"tally\":[", tally.sent);
    sheet.push_number(",", tally.taken);
    sheet.push_number(",", tally.left);
    sheet.push("]}\n");
}

/// Appends the lines of a plan's answers, as the program `plans` prints them.
fn push_answers(sheet: &mut Sheet, plan: usize, answers: &[StepAnswer]) {
    for given in answers {
        sheet.push_number("", plan as u64);
        sheet.push_number(" ", given.step as u64);
        push_answer(sheet, &given.answer);
        sheet.push("\n");
    }
}

fn push_answer(sheet: &mut Sheet, answer: &Answer) {
    match answer {
        Answer::Value(value) => {
            sheet.push(" ok ");
            sheet.push_answer(value);
        }
        Answer::Fault(fault) => push_fault(sheet, fault),
    }
}

fn push_fault(sheet: &mut Sheet, fault: &EvalFault) {
    match fault {
        EvalFault::Key { key, text } => push_cause(sheet, " fault key ", key, text.as_str()),
        EvalFault::Batch { key, fault } => push_cause(sheet, " fault batch ", key, cause(fault)),
        EvalFault::NoField => sheet.push(" fault NoField"),
        EvalFault::NotAKey => sheet.push(" fault NotAKey"),
        EvalFault::NotAList => sheet.push(" fault NotAList"),
        EvalFault::TooMany => sheet.push(" fault TooMany"),
        EvalFault::NoItem => sheet.push(" fault NoItem"),
    }
}

/// Appends the fault of a load: what failed, its key, and why.
fn push_cause(sheet: &mut Sheet, failed: &str, key: &FetchKey, text: &str) {
    sheet.push(failed);
    sheet.push_key(key);
    sheet.push(" ");
    sheet.push_quoted(text);
}

fn cause(fault: &BatchFault) -> &str {
    match fault {
        BatchFault::Source(text) => text.as_str(),
        BatchFault::Memory => "memory",
        BatchFault::Unsent => "unsent",
    }
}
