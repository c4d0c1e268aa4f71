//! Counts of what a workload did.

use dl_desk::{Job, LARGEST_LIMIT, LoadReply};
use dl_loader::{EndedBatch, EntryKind, History};
use dl_source::BatchAnswer;

/// The numbers of loads that began a cell, of hits, of batches, of jobs, of settled batches, and of outcomes that it
/// fetched or read; the batch of the newest cell; and how many microseconds it took, if the source takes time.
#[derive(Default, Drop)]
pub(crate) struct Counts {
    pub(crate) cells: u64,
    pub(crate) hits: u64,
    pub(crate) batches: u64,
    pub(crate) jobs: u64,
    pub(crate) settled: u64,
    pub(crate) outcomes: u64,
    pub(crate) last_batch: Option<u32>,
    pub(crate) micros: Option<u64>,
}

impl Counts {
    /// Counts the batches of a history, with the cells of their keys, and the outcomes that its first caller has read.
    pub(crate) fn history(&mut self, history: &History) {
        let batches = history.batches();
        for number in 0..LARGEST_LIMIT {
            let Some(batch) = batches.get(number) else {
                break;
            };
            self.batch(&batch);
        }
        for kind in history.entries(0) {
            if let EntryKind::Saw { .. } = kind {
                self.outcomes = self.outcomes.saturating_add(1);
            }
        }
    }

    /// Counts a batch of a history, which went out as a job.
    fn batch(&mut self, batch: &EndedBatch<'_>) {
        self.batches = self.batches.saturating_add(1);
        self.jobs = self.jobs.saturating_add(1);
        self.cells = self.cells.saturating_add(batch.keys().len() as u64);
        if batch.is_settled() {
            self.settle();
        }
    }

    /// Counts a load, and a batch if it isn't that of the newest cell.
    #[inline]
    pub(crate) fn load(&mut self, reply: LoadReply) {
        match reply {
            LoadReply::Hit(_) => self.hits = self.hits.saturating_add(1),
            LoadReply::Fresh { batch, .. } => {
                self.cells = self.cells.saturating_add(1);
                if self.last_batch != Some(batch) {
                    self.batches = self.batches.saturating_add(1);
                    self.last_batch = Some(batch);
                }
            }
        }
    }

    pub(crate) fn loads(&mut self, replies: &[LoadReply]) {
        for reply in replies {
            self.load(*reply);
        }
    }

    pub(crate) fn jobs(&mut self, jobs: &[Job]) {
        self.jobs = self.jobs.saturating_add(jobs.len() as u64);
    }

    /// Counts a settled batch.
    pub(crate) fn settle(&mut self) {
        self.settled = self.settled.saturating_add(1);
    }

    /// Counts the outcomes of an answer.
    pub(crate) fn answer(&mut self, answer: &BatchAnswer) {
        if let BatchAnswer::Each(outcomes) = answer {
            let count = outcomes.as_slice().len() as u64;
            self.outcomes = self.outcomes.saturating_add(count);
        }
    }
}
