//! Fetch workers, which end the batches of jobs by what a source answers, and the queue that carries the jobs to them from
//! the callers that dispatch them.
//!
//! A [`JobQueue`] is a bounded channel under a rule that holds for every schedule: what senders sent is what takers
//! took and what the channel still holds, each item as often. Items are jobs and end marks. You use the queue by a
//! seat, a [`Sender`] or a [`Taker`]. Each seat holds a pass: a token of no bytes that knows, in proofs, what its seat
//! sent and took. So the rule speaks of what the channel holds and what all passes know, and each step keeps it:
//!
//! - A send adds an item to the channel and to what its own seat sent.
//! - A take moves an item from the channel to what its own seat took.
//! - A split cuts a pass in two, and the new one begins with nothing sent and nothing taken. A new queue has one pass,
//!   of one seat. To *widen* it is to split it so that it becomes the pass of one seat more, and to drop the other
//!   half. Then each seat gets its pass by a split.
//! - A join adds what one seat sent and took to another. [`JobQueue::finish`] joins all seats into one: what that sent
//!   is what it took and what is left in the channel. Without the end marks on both sides, this says the same of the
//!   jobs.
#![tactic(auto)]

mod fault;
mod gate;
mod give_ups;
mod new_seats;
mod queue;
mod rule;
mod seats;
mod worker;

pub use fault::QueueFault;
pub use gate::{Gate, NoGate};
pub use give_ups::least_given_up;
pub use queue::{JobQueue, LARGEST_CAPACITY, MOST_SEATS, Tally};
pub use seats::{Sender, Taker};
pub use worker::{WorkerEnd, work};
