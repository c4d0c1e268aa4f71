//! The event calls of a loader, as values.

use dl_desk::{FetchKey, Job, Outcome};
use dl_source::{Fetched, Source};

/// An event call with its arguments, for [`laws::event`](crate::laws::event).
#[derive(Drop)]
pub enum Ask<'a, S: Source> {
    /// `load`
    Load(&'a FetchKey),
    /// `load_many`
    LoadMany(&'a [FetchKey]),
    /// `prime`
    Prime(&'a FetchKey, Outcome),
    /// `clear`
    Clear(&'a FetchKey),
    /// `clear_all`
    ClearAll,
    /// `dispatch`
    Dispatch,
    /// `settle`
    Settle(Fetched<'a, S>),
    /// `fail`
    Fail(Job, GiveUp),
}

/// Why you fail a batch that went out, without an answer.
#[derive(Clone, Copy, Debug, PartialEq, Eq)]
pub enum GiveUp {
    /// Memory ran out: the batch has no answer, or its outcomes can't be kept.
    Memory,
    /// The batch never got to a worker.
    Unsent,
}
