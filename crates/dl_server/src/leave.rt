//! What threads may share of any runtime.

use std::marker::PhantomData;
use std::sync::Wait;
use std::thread::Threads;

/// A runtime's leave to start threads and to wait, without the runtime, so that threads may share it. A proof of a trait's
/// method knows of no bound `Sync`, and of this type it needs none.
#[derive(Drop)]
pub(crate) struct Leave<R> {
    of: PhantomData<R>,
}

impl<R: Wait> Wait for Leave<R> {}

impl<R: Threads> Threads for Leave<R> {}

impl<R: Threads + Wait> Leave<R> {
    /// What this runtime may do.
    pub(crate) fn of(_rt: &R) -> Leave<R> {
        Leave { of: PhantomData }
    }
}

// It has nothing of the runtime.
unsafe impl<R> Sync for Leave<R> {}
