//! What a workload needs.

use std::alloc::Global;
use std::hash::RandomState;

/// The runtime, the allocator and the hash of a workload.
#[derive(Drop)]
pub(crate) struct Scene<'a, R> {
    pub(crate) rt: &'a R,
    pub(crate) alloc: Global,
    pub(crate) hashing: RandomState,
}
