//! Answers as C sees them.

ghost use Rattle.std.specs.Prelude.{◌≡◌};
ghost use Rattle.dl_c_values.specs.Answers.{loaded_as, refused_as, sent_as, none_sent};

use crate::codes::{DONE, FRESH, HIT};
use dl_desk::{Job, LoadReply};

/// The answer to a call on a cell: a code, a cell and a batch. If the code promises no cell or no batch, that one is 0.
#[repr(C)]
#[derive(Clone, Copy, Debug, PartialEq, Eq)]
pub struct Loaded {
    pub code: u32,
    pub cell: u32,
    pub batch: u32,
}

/// The answer to a dispatch: a code, the number of the first batch that went out, and the number of batches.
#[repr(C)]
#[derive(Clone, Copy, Debug, PartialEq, Eq)]
pub struct Dispatched {
    pub code: u32,
    pub first: u32,
    pub count: usize,
}

impl Loaded {
    /// No cell, for the reason that the code names.
    pub fn refused(code: u32) -> Loaded
        ensures { result ≡ refused_as code }
    {
        Loaded {
            code,
            cell: 0,
            batch: 0,
        }
    }

    /// The cell that was found.
    pub fn found(cell: u32) -> Loaded
        ensures { result ≡ record { code = HIT; cell = cell; batch = 0 } }
    {
        Loaded {
            code: HIT,
            cell,
            batch: 0,
        }
    }

    /// The answer to a load.
    pub fn of_load(reply: LoadReply) -> Loaded
        ensures { result ≡ loaded_as reply }
    {
        match reply {
            LoadReply::Hit(cell) => Loaded::found(cell),
            LoadReply::Fresh { cell, batch } => Loaded {
                code: FRESH,
                cell,
                batch,
            },
        }
    }
}

impl Dispatched {
    /// The batches of these jobs went out.
    #[tactic(auto, using(crate::proofs::Rows::first_of_some, crate::proofs::Rows::first_of_none))]
    pub fn sent(jobs: &[Job]) -> Dispatched
        ensures { result ≡ sent_as jobs.now }
    {
        let first = match jobs.first() {
            Some(job) => job.batch,
            None => 0,
        };
        Dispatched {
            code: DONE,
            first,
            count: jobs.len(),
        }
    }

    /// No batch went out, for the reason that the code names.
    pub fn refused(code: u32) -> Dispatched
        ensures { result ≡ none_sent code }
    {
        Dispatched {
            code,
            first: 0,
            count: 0,
        }
    }
}
