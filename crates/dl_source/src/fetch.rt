//! Asking a source for the keys of a job.

ghost use Rattle.std.specs.Prelude.{◌≡◌, IfOk, IfErr};
ghost use Rattle.dl_source.specs.Fetched.{source_of, job_of};

use crate::fetched::Fetched;
use crate::source::Source;
use dl_values::Job;
use std::alloc::{AllocError, Global};

/// Asks the source for the job's keys. A loader settles a batch only by what this call gives you.
///
/// # Errors
/// The job and `AllocError`, if memory runs out.
pub fn fetch_job<'s, S: Source>(
    alloc: Global,
    source: &'s S,
    job: Job,
) -> Result<Fetched<'s, S>, (Job, AllocError)>
    ensures ok { IfOk result (λ f. (source_of f ≡ source.entry.now) × (job_of f ≡ job)) }
    ensures err { IfErr result (λ e. e.0 ≡ job) }
{
    match source.fetch(alloc, job.keys.as_slice()) {
        Ok(answer) => Ok(Fetched::new(source, job, answer)),
        Err(error) => Err((job, error)),
    }
}
