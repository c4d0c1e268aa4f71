//! The events of a shared loader: who made which call, and the reply.

use crate::replies::{Jobs, Replies};
use crate::reply::LoadReply;
use crate::shared::Shared;
use dl_values::{BatchFault, FetchKey, Keys, Outcome, Outcomes};
use std::fmt;

/// A call of a shared loader, with its arguments.
#[derive(Debug, Drop)]
pub enum Call {
    /// `load` of a key.
    Load(FetchKey),
    /// `load_many`: loads of several keys in order, as one call.
    LoadMany(Keys),
    /// `prime` of a key with an outcome.
    Prime(FetchKey, Shared<Outcome>),
    /// `clear`: the memo forgets a key.
    Clear(FetchKey),
    /// `clear_all`: the memo forgets all keys.
    ClearAll,
    /// `dispatch`: each batch that hasn't gone out goes out.
    Dispatch,
    /// A batch ends with an outcome for each member, in order.
    Settle { batch: u32, outcomes: Outcomes },
    /// A batch fails as a whole.
    Fail { batch: u32, fault: BatchFault },
}

/// The reply to a call of a shared loader.
#[derive(Debug, Drop)]
pub enum Reply {
    /// To a load.
    Loaded(LoadReply),
    /// To a loadMany: a reply for each key, in order.
    Many(Replies),
    /// To a prime of a key that the loader didn't hold: the new cell.
    Primed(u32),
    /// To a prime of a key that the loader holds: nothing changed.
    Kept,
    /// To a clear, a clearAll, a settle and a fail.
    Done,
    /// To a dispatch: the jobs, in order.
    Sent(Jobs),
}

/// A call of a shared loader with its reply. Its place in the history is the number of events before it.
#[derive(Debug)]
pub struct Event {
    /// The caller, counted from 0.
    pub caller: u32,
    pub call: Call,
    pub reply: Reply,
}

/// On one line, such as `caller 1 load user/u1: hit 0`.
impl fmt::Display for Event {
    fn fmt<W: fmt::Write>(&self, f: &mut fmt::Formatter<W>) -> fmt::Result {
        write!(f, "caller {} {}: {}", self.caller, self.call, self.reply)
    }
}

impl fmt::Display for Call {
    fn fmt<W: fmt::Write>(&self, f: &mut fmt::Formatter<W>) -> fmt::Result {
        match self {
            Call::Load(key) => write!(f, "load {key}"),
            Call::LoadMany(keys) => write!(f, "loadMany {keys}"),
            Call::Prime(key, outcome) => write!(f, "prime {key} by {outcome}"),
            Call::Clear(key) => write!(f, "clear {key}"),
            Call::ClearAll => f.write_str("clearAll"),
            Call::Dispatch => f.write_str("dispatch"),
            Call::Settle { batch, outcomes } => write!(f, "settle batch {batch} by {outcomes}"),
            Call::Fail { batch, fault } => write!(f, "fail batch {batch} by {fault}"),
        }
    }
}

impl fmt::Display for Reply {
    fn fmt<W: fmt::Write>(&self, f: &mut fmt::Formatter<W>) -> fmt::Result {
        match self {
            Reply::Loaded(reply) => write!(f, "{reply}"),
            Reply::Many(replies) => write!(f, "{replies}"),
            Reply::Primed(cell) => write!(f, "primed {cell}"),
            Reply::Kept => f.write_str("kept"),
            Reply::Done => f.write_str("done"),
            Reply::Sent(jobs) => write!(f, "sent {jobs}"),
        }
    }
}

// Most events are loads, of which only the key is let go.
impl Drop for Event {
    #[inline(always)]
    fn drop(self) {
        let Event {
            caller: _,
            call,
            reply,
        } = self;
        match call {
            Call::Load(key) => drop(key),
            other => drop(other),
        }
        match reply {
            Reply::Loaded(_) => {}
            other => drop(other),
        }
    }
}

/// What a cell of a shared loader shows once it has ended: its outcome, and the place of the event that gave it.
#[derive(Debug)]
pub struct Ending {
    /// The place, below 65,536, since a history has at most 65,536 events.
    pub at: u16,
    pub outcome: Outcome,
}

impl Drop for Ending {
    fn drop(self) {
        let Ending { at: _, outcome } = self;
        drop(outcome);
    }
}
