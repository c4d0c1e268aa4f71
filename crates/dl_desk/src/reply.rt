//! Replies of a desk.

use dl_values::Job;
use std::fmt;

/// The reply to a load: the cell that will have the key's outcome.
#[derive(Clone, Copy, Debug, PartialEq, Eq)]
pub enum LoadReply {
    /// The memo holds the key: its cell.
    Hit(u32),
    /// The memo didn't hold the key: a new cell, and the batch that will fetch it.
    Fresh { cell: u32, batch: u32 },
}

/// The cell, and of a new one the batch, such as `hit 0` or `fresh 1 in batch 0`.
impl fmt::Display for LoadReply {
    fn fmt<W: fmt::Write>(&self, f: &mut fmt::Formatter<W>) -> fmt::Result {
        match self {
            LoadReply::Hit(cell) => write!(f, "hit {cell}"),
            LoadReply::Fresh { cell, batch } => write!(f, "fresh {cell} in batch {batch}"),
        }
    }
}

/// The reply to a prime.
#[derive(Clone, Copy, Debug, PartialEq, Eq)]
pub enum DeskPrime {
    /// The memo holds this new cell for the key from now on.
    Primed(u32),
    /// The memo holds the key already, and nothing changed.
    Kept,
}

/// How a batch ended.
#[derive(Clone, Copy, Debug, PartialEq, Eq)]
pub enum End {
    /// With an outcome for each member.
    Settled,
    /// As a whole.
    Failed,
}

/// The reply to a call that you can prepare with a desk.
#[derive(Debug, Drop)]
pub enum DeskReply {
    /// To a load of several keys: a reply for each, in order.
    Loads(Vec<LoadReply>),
    /// To a prime.
    Primed(DeskPrime),
    /// To a dispatch: the jobs, in order.
    Sent(Vec<Job>),
}

/// How far a batch has come.
#[derive(Clone, Copy, Debug, PartialEq, Eq)]
pub enum BatchState {
    /// It has not gone out, and takes members while it has room and is the last one, or the last one of its table.
    Collecting,
    /// It has gone out, and has not ended.
    Sent,
    /// It ended with an outcome for each member.
    Settled,
    /// It failed as a whole.
    Failed,
}
