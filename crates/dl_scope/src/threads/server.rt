//! What the threads of a server share.

use dl_loader::{Loader, LoaderName};
use dl_workers::JobQueue;
use std::alloc::Global;
use std::hash::RandomState;

/// What it takes to serve plans.
#[derive(Drop)]
pub(crate) struct Resources<'a, S, G> {
    pub(crate) alloc: Global,
    /// Hashes keys.
    pub(crate) hashing: RandomState,
    /// Answers what workers fetch.
    pub(crate) source: &'a S,
    /// Hears of each step of a worker.
    pub(crate) gate: &'a G,
    /// The most bytes that a plan's answers may take, if there is a bound.
    pub(crate) max_answer: Option<u64>,
}

/// What the threads of a server share.
#[derive(Drop)]
pub(crate) struct Server<'a, L: LoaderName, S, G> {
    pub(crate) resources: &'a Resources<'a, S, G>,
    /// The loader. Each thread has a pass of it.
    pub(crate) loader: &'a Loader<L>,
    /// The queue. Each thread has a seat at it.
    pub(crate) queue: &'a JobQueue,
}
