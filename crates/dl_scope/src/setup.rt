//! How to serve plans.

use dl_desk::{Limits, TableLimits};
use dl_loader::Policy;

/// How [`serve`](crate::serve) serves plans.
#[derive(Drop)]
pub struct Setup {
    /// The limits of the loader.
    pub limits: Limits,
    /// If you give these, each batch has keys of one table, and a table may have a limit of its own. Else batches may
    /// mix tables.
    pub tables: Option<TableLimits>,
    /// How many fetch workers there are: 1 to [`MOST_WORKERS`](crate::MOST_WORKERS).
    pub workers: u32,
    /// When plans that have made their loads send them, once no plan runs: at once, or once all batches have ended.
    pub policy: Policy,
    /// How many jobs the queue between plans and workers holds: 1 to 1,024.
    pub queue: u32,
    /// The most bytes that the texts of a plan's answers may have, together with what its terms copy on the way: see
    /// [`Room`](dl_terms::Room). Without this there is no bound. A plan that needs more meets `OutOfMemory`.
    pub max_answer: Option<u64>,
}
