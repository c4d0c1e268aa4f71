//! Why what a host says is no history.

use dl_documents::PlanFault;
use dl_history::{CallFault, CloseFault};
use thiserror::Error;

/// Why an event of a host can't come where it does.
#[derive(Clone, Copy, Debug, PartialEq, Eq, Error)]
pub enum Wrong {
    /// There is no such caller.
    #[error("caller")]
    Caller,
    /// The loader refuses the call.
    #[error("{0}")]
    Refused(CallFault),
    /// The loader answers something else.
    #[error("answer")]
    Answer,
}

/// Why what a host says is no history: the first event that can't come where it does, or else how it ends.
#[derive(Clone, Copy, Debug, PartialEq, Eq, Error)]
pub enum ReplayFault {
    /// The event of this number is wrong, and those before it aren't.
    #[error("event {at}: {wrong}")]
    Event { at: usize, wrong: Wrong },
    /// After all events the loader can't close.
    #[error("{0}")]
    Close(CloseFault),
    /// Memory ran out.
    #[error("out of memory")]
    OutOfMemory,
}

/// Why a file has no history: the first of these causes that applies.
#[derive(Clone, Copy, Debug, PartialEq, Eq, Error)]
pub enum HistoryFault {
    /// The first line is no document.
    #[error("{0}")]
    Refused(PlanFault),
    /// The first line is a plan file.
    #[error("no script")]
    NoScript,
    /// The other lines aren't a list with a caller and an answer for each call.
    #[error("answers")]
    Answers,
    /// What they tell is no history.
    #[error("{0}")]
    Replay(ReplayFault),
    /// Memory ran out.
    #[error("out of memory")]
    OutOfMemory,
}
