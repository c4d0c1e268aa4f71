//! The job of a batch, for a host that knows the batch by its number.

ghost use Rattle.std.specs.Prelude.{◌≡◌, IfOk};
ghost use Rattle.dl_loader.specs.HostJobs.{job_now};

use crate::serial_loader::SerialLoader;
use dl_desk::{Job, Keys};
use dl_history::LoaderName;
use std::alloc::{AllocError, Global};

/// The job of a batch, which has no keys if there is no such batch. Fails if memory runs out.
#[tactic(auto, using(crate::proofs::JobNow::no_keys, crate::proofs::JobNow::all_keys))]
pub fn job_of<L: LoaderName>(
    alloc: Global,
    loader: &SerialLoader<L>,
    batch: u32,
) -> Result<Job, AllocError>
    ensures { IfOk result (λ job. job ≡ job_now batch loader.now) }
{
    loader.keeps();
    let Some(view) = loader.batch(batch) else {
        let keys = Keys::copy_of(alloc, &[])?;
        return Ok(Job { batch, keys });
    };
    let keys = Keys::copy_of(alloc, view.keys())?;
    Ok(Job { batch, keys })
}
