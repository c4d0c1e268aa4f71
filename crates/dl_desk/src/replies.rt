//! Lists in the replies of events.

use crate::reply::LoadReply;
use dl_values::{Job, List};

/// The replies to the loads of a loadMany, in the order of its keys.
pub type Replies = List<LoadReply>;

/// The jobs that a dispatch sent, in the order of their batches.
pub type Jobs = List<Job>;
