//! A job together with its source's answer.

ghost use Rattle.std.specs.Prelude.{◌≡◌};
ghost use Rattle.dl_values.specs.Answering.{MayAnswer, MayAnswer-prop};

use crate::source::Source;
use dl_values::{BatchAnswer, FetchKey, Job};

/// A job and what its source answered to the job's keys. Only [`fetch_job`](crate::fetch_job) makes one, so the answer
/// is one that the source may give.
#[derive(Drop)]
pub struct Fetched<'s, S: Source> {
    source: &'s S,
    job: Job,
    answer: BatchAnswer,
    pub ghost answered: { MayAnswer (S.answer source.now) job.keys answer } by { MayAnswer-prop (S.answer source.now) job.keys answer },
}

impl<'s, S: Source> Fetched<'s, S> {
    ghost use Rattle.std.specs.Prelude.{◌≡◌};
    ghost use Rattle.dl_values.specs.Answering.{IsFor, MayAnswer};
    ghost use Rattle.dl_source.specs.Fetched.{source_of, job_of, answer_of};

    pub(crate) fn new(source: &'s S, job: Job, answer: BatchAnswer) -> Fetched<'s, S>
        requires { MayAnswer (S.answer source.now) job.keys answer }
        ensures source { source_of result ≡ source.entry.now }
        ensures job { job_of result ≡ job }
    {
        Fetched {
            source,
            job,
            answer,
        }
    }

    /// The number of the job's batch.
    pub fn batch(&self) -> u32
        ensures { result ≡ (job_of self.now).batch }
    {
        self.job.batch
    }

    /// The job's keys, in order.
    pub fn keys(&self) -> &[FetchKey]
        ensures { result.now ≡ (job_of self.now).keys }
    {
        self.job.keys.as_slice()
    }

    /// What the source answered: as many outcomes as there are keys, or a break.
    pub fn answer(&self) -> &BatchAnswer
        ensures answer { result.now ≡ answer_of self.now }
        ensures own { MayAnswer (S.answer (source_of self.now)) (job_of self.now).keys result.now }
        ensures fits { IsFor (job_of self.now).keys result.now }
    {
        &self.answer
    }

    /// The job, without the answer.
    pub fn into_job(self) -> Job
        ensures { result ≡ job_of self.entry }
    {
        let Fetched { job, .. } = self;
        job
    }

    /// The job and the answer, moved out.
    pub fn into_parts(self) -> (Job, BatchAnswer)
        ensures job { result.0 ≡ job_of self.entry }
        ensures answer { result.1 ≡ answer_of self.entry }
        ensures own { MayAnswer (S.answer (source_of self.entry)) result.0.keys result.1 }
        ensures fits { IsFor result.0.keys result.1 }
    {
        let Fetched { job, answer, .. } = self;
        (job, answer)
    }
}
