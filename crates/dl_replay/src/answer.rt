//! Answers in numbers.

ghost use Rattle.std.specs.Prelude.{◌≡◌, IfOk, flat_map, map};
ghost use Rattle.dl_loader.specs.EventReplies.{reply_by};
ghost use Rattle.dl_replay.specs.Told.{answer_numbers, batch_of, load_numbers};

use dl_desk::{Job, LoadReply};
use dl_loader::PrimeReply;
use std::alloc::{AllocError, Global};

/// The numbers of the replies to loads. Fails if memory runs out.
pub(crate) fn loaded(alloc: Global, replies: &[LoadReply]) -> Result<Vec<u32>, AllocError>
    ensures { IfOk result (λ numbers. numbers.items ≡ flat_map load_numbers replies.now) }
{
    let mut numbers = Vec::new(alloc);
    for reply in replies {
        numbers.extend_from_slice(&load_numbers(*reply))?;
    }
    Ok(numbers)
}

/// The numbers of the reply to a load.
fn load_numbers(reply: LoadReply) -> [u32; 3]
    ensures { result ≡ load_numbers reply }
{
    match reply {
        LoadReply::Hit(cell) => [0, cell, 0],
        LoadReply::Fresh { cell, batch } => [1, cell, batch],
    }
}

/// The numbers of the reply to a prime. Fails if memory runs out.
pub(crate) fn primed(alloc: Global, reply: PrimeReply) -> Result<Vec<u32>, AllocError>
    ensures { IfOk result (λ numbers. numbers.items ≡ answer_numbers (reply_by reply)) }
{
    match reply {
        PrimeReply::Primed { cell, .. } => [1, cell, 0].to_vec(alloc),
        PrimeReply::Kept => [0, 0, 0].to_vec(alloc),
    }
}

/// The numbers of the batches of jobs. Fails if memory runs out.
pub(crate) fn sent(alloc: Global, jobs: &[Job]) -> Result<Vec<u32>, AllocError>
    ensures { IfOk result (λ numbers. numbers.items ≡ map batch_of jobs.now) }
{
    jobs.iter().map(|job| job.batch).collect(alloc)
}
