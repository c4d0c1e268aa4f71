//! Why you get no queue.

use thiserror::Error;

/// Why [`JobQueue::new`](crate::JobQueue::new) makes no queue: the first of these causes that applies.
#[derive(Clone, Copy, Debug, PartialEq, Eq, Error)]
pub enum QueueFault {
    /// The capacity isn't 1 to [`LARGEST_CAPACITY`](crate::LARGEST_CAPACITY).
    #[error("the capacity of a queue must be 1 to 1,024")]
    BadCapacity,
    /// A number of senders or of takers isn't 1 to [`MOST_SEATS`](crate::MOST_SEATS).
    #[error("a queue must have 1 to 32 senders and 1 to 32 takers")]
    BadCounts,
    /// Memory ran out.
    #[error("out of memory")]
    OutOfMemory,
}
