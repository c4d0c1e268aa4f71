//! How far a run of a term is.

use crate::fault::PollFault;

/// What the next poll of a run does.
#[derive(Clone, Copy)]
pub(crate) enum Stage {
    /// Looks at the tickets of the keys, and goes on once all of them show their outcomes.
    Learning,
    /// Nothing: the run wants these keys, and has no tickets of them yet.
    Wanting,
    /// Answers this.
    Ended(PollFault),
}
