//! Rows of plans, and how `serve` serves them.

use crate::batches::{Batch, assert_batches, count_batches};
use crate::stage::Stage;
use crate::{answer_text, assert_is};
use dl_desk::Limits;
use dl_scope::{Policy, Report, ScopeFault, Setup, StepAnswer, serve};
use dl_source::Source;
use dl_workers::{Gate, Tally};
use std::io::Eprint;
use std::process::Abort;
use std::sync::Wait;
use std::thread::Threads;

/// The answers of a plan's terms, each with its step.
pub(crate) type Answers = &'static [(usize, &'static str)];

/// Plans for one call of `serve`, and what the report must have.
pub(crate) struct Row {
    pub(crate) about: &'static str,
    /// The most keys of a batch, cells and calls.
    pub(crate) most: (u32, u32, u32),
    /// The number of jobs that the queue has room for.
    pub(crate) queue: u32,
    /// Each number of workers serves the plans `times` times.
    pub(crate) workers: &'static [u32],
    pub(crate) times: u32,
    /// Each as a plan file has it.
    pub(crate) plans: &'static [&'static str],
    /// Why there is no report. With `None` there is one, and it has what follows.
    pub(crate) fault: Option<ScopeFault>,
    /// For each plan, the answers of its terms.
    pub(crate) answers: &'static [Answers],
    /// For each plan, the number of rounds of loads that its terms take.
    pub(crate) rounds: &'static [u64],
    /// All batches, in order, if no schedule changes them. The job of each went out to a worker.
    pub(crate) batches: Option<&'static [Batch]>,
    /// The number of calls of all plans and workers, if no schedule changes it.
    pub(crate) calls: Option<usize>,
}

/// Serves the plans of a row as often as it says, each time with the report that it says. Answers the number of batches
/// in the histories of all these reports.
pub(crate) fn try_row<S: Source + Sync, G: Gate + Sync, R: Abort + Eprint + Threads + Wait + Sync>(
    stage: &Stage<'_, R>,
    source: &S,
    gate: &G,
    row: &Row,
) -> u32 {
    let mut batches: u32 = 0;
    for workers in row.workers {
        for _ in 0..row.times {
            let served = serve_row(stage, source, gate, *workers, row);
            batches = batches.saturating_add(served);
        }
    }
    batches
}

/// Serves the plans of a row with this many workers. There is the report that the row says, or the fault, and the answer
/// is the number of batches.
fn serve_row<S: Source + Sync, G: Gate + Sync, R: Abort + Eprint + Threads + Wait + Sync>(
    stage: &Stage<'_, R>,
    source: &S,
    gate: &G,
    workers: u32,
    row: &Row,
) -> u32 {
    let (rt, alloc, hashing) = (stage.rt, stage.alloc, stage.hashing);
    let (max_batch, max_cells, max_calls) = row.most;
    let limits = Limits::new(max_batch, max_cells, max_calls);
    let setup = Setup {
        limits: limits.expect(rt, "no limits"),
        tables: None,
        workers,
        policy: Policy::Eager,
        queue: row.queue,
        max_answer: None,
    };
    let plans = stage.plans(row.plans);
    let (fault, batches) = match serve(rt, alloc, hashing, source, setup, plans, gate) {
        Ok(report) => {
            stage.assert_report(&report, row);
            (None, count_batches(report.history()))
        }
        Err(fault) => (Some(fault), 0),
    };
    assert_is!(rt, &fault, &row.fault, row.about);
    batches
}

impl<R: Abort + Eprint> Stage<'_, R> {
    /// The report has what the row says.
    fn assert_report(&self, report: &Report, row: &Row) {
        let answers = report.answers();
        assert_is!(self.rt, &answers.len(), &row.answers.len(), row.about);
        for (given, want) in answers.iter().zip(row.answers.iter()) {
            self.assert_answers(given.as_slice(), want);
        }
        assert_is!(self.rt, &report.rounds(), &row.rounds, row.about);
        if let Some(batches) = row.batches {
            let jobs = batches.len() as u64;
            let tally = Tally {
                sent: jobs,
                taken: jobs,
                left: 0,
            };
            assert_batches(self.rt, self.alloc, report.history(), batches, row.about);
            assert_is!(self.rt, &report.tally(), &tally, row.about);
        }
        if let Some(calls) = row.calls {
            let events = report.history().events();
            assert_is!(self.rt, &events.len(), &calls, row.about);
        }
    }

    /// A plan gave these answers.
    fn assert_answers(&self, given: &[StepAnswer], want: Answers) {
        assert_is!(self.rt, &given.len(), &want.len(), "answers");
        for (given, (step, want)) in given.iter().zip(want.iter()) {
            assert_is!(self.rt, &given.step, step, "step");
            let text = answer_text(self.alloc, &given.answer);
            let text = text.expect(self.rt, "no memory");
            assert_is!(self.rt, &text.as_str(), want, "answer");
        }
    }
}
