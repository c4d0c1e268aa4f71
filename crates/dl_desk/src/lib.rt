//! The single-threaded loader: a memo of keys with their cells, and batches of keys to fetch.
//!
//! A [`Desk`] answers each of your calls as a data loader of one thread does. Its contracts speak of the history of the
//! calls so far, in the words of `specs/History.antt`. Keys, outcomes and limits are those of `dl_values`, under the
//! same names.
#![tactic(auto)]

// A type that several crates own has its `drop` written out. A derived one is proved once more in each crate that lets
// such a value go.

mod batch;
mod call;
mod desk;
mod event;
mod fault;
pub mod laws;
mod memo_and_batches;
mod ready;
mod replies;
mod reply;
mod shared;
mod table_book;
mod table_map;
mod table_name;

pub use call::DeskCall;
pub use desk::{BatchView, Desk};
pub use dl_values::{
    BatchAnswer, BatchFault, FetchKey, ID_BYTES, Job, Json, KeyFault, Keys, LARGEST_LIMIT,
    LimitFault, Limits, List, Message, Outcome, Outcomes, TABLE_BYTES, TableLimit, TableLimitFault,
    TableLimits, Text, has_float,
};
pub use event::{Call, Ending, Event, Reply};
pub use fault::DeskFault;
pub use ready::Ready;
pub use replies::{Jobs, Replies};
pub use reply::{BatchState, DeskPrime, DeskReply, End, LoadReply};
pub use shared::Shared;
