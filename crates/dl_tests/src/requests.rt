//! Plans that `serve` serves at once: worked rows of their answers, rounds and batches by one, two and three workers;
//! of plans that it rejects; of plans that stop by the fault of another; of workers that fetch at once; of code whose
//! answers change; and of many plans over a queue with room for one job.

mod held_workers;
mod own_code;
mod refusals;
pub(crate) mod row;
pub(crate) mod rows;
mod stops;
