//! What event calls answer, apart from tickets and jobs.

/// What a prime answers. That the new cell refused the outcome, `shown: false`, never comes in a run. No proof excludes
/// it, since none says that a set on an empty cell succeeds.
#[derive(Clone, Copy, Debug, PartialEq, Eq)]
pub enum PrimeReply {
    /// The key has a new cell, which shows the outcome. `shown: false` never comes in a run: treat it as a bug.
    Primed { cell: u32, shown: bool },
    /// The loader holds the key already: nothing changed (DataLoader: `prime`).
    Kept,
}

/// How the cells of a batch took its end.
#[derive(Clone, Copy, Debug, PartialEq, Eq)]
pub struct Settled {
    /// How many cells show their outcome.
    pub shown: u32,
    /// How many cells refused it. A number above 0 never comes in a run: treat it as a bug. No proof excludes it, since
    /// none says that a set on an empty cell succeeds.
    pub refused: u32,
}
