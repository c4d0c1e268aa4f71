//! The loader that threads share: a memo, its batches and its history behind one lock, and cells that you read without
//! the lock.
//!
//! You make an [`Opening`], start the loader by [`Loader::start`], make calls with a [`Pass`] for each caller, and
//! close the loader to get its [`History`]. Each call is one event of the history, and happens under the lock. A pass
//! has what its caller called and read.
//!
//! If you make the calls of all callers yourself, one at a time, start a [`SerialLoader`] instead, which has no lock. If
//! you also fetch and keep the outcomes yourself, open it with a [`HostSource`].
#![tactic(auto)]

// A type that several crates own has its `drop` written out. A derived one is proved once more in each crate that lets
// such a value go.

mod ask;
mod book;
mod calls;
mod dues;
mod event_call;
mod host_job;
mod host_source;
mod job_end;
pub mod laws;
mod load_replies;
mod loader;
mod opening;
mod reply;
mod serial_loader;
mod turns;
mod waiter;

pub use ask::{Ask, GiveUp};
pub use book::Book;
pub use dl_gather::Policy;
pub use dl_history::{
    Batches, Call, CallFault, CloseFault, EndedBatch, Ending, Entry, EntryKind, Event, Events,
    History, Jobs, LoaderName, Pass, Replies, Reply, Shared, StartFault, Stopped, Ticket,
};
pub use host_job::job_of;
pub use host_source::{HostSource, mark};
pub use job_end::{end_job, end_jobs};
pub use loader::Loader;
pub use opening::{MOST_CALLERS, Opening};
pub use reply::{PrimeReply, Settled};
pub use serial_loader::SerialLoader;
