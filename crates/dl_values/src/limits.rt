//! The limits of a loader.

ghost use Rattle.std.specs.Prelude.{◌≡◌, ◌&&◌, nat_le, IfOk, IfErr};
ghost use Rattle.dl_values.specs.Limits.{AreLimits, RefusedAs, largest_limit};

use crate::fault::LimitFault;
use std::marker::Model;

/// The largest number that a limit may be.
pub const LARGEST_LIMIT: u32 = 65_536;

/// How much a loader takes: the most keys of a batch (DataLoader's `maxBatchSize`), the most cells and the most calls.
/// Each is 1 to [`LARGEST_LIMIT`].
///
/// # Examples
/// Opens a loader for one caller with 64 keys in a batch, 1,024 cells and 4,096 calls at most, from
/// `crates/example_loaders/src/one_caller.rt`:
///
/// ```rust
/// let limits = Limits::new(64, 1_024, 4_096)?;
/// let opening = Opening::new(alloc, hashing, &users, limits, 1)?;
/// ```
#[derive(Clone, Copy, Debug)]
pub struct Limits {
    max_batch: u32,
    max_cells: u32,
    max_calls: u32,
}

impl Model for Limits {
    ghost use Rattle.dl_values.specs.Limits.{Limits, AreLimits};

    ghost Value = { Limits };

    ghost view = { λ l. record { max_batch = l.max_batch; max_cells = l.max_cells; max_calls = l.max_calls } };

    ghost invariant = { λ l. AreLimits (record { max_batch = l.max_batch; max_cells = l.max_cells; max_calls = l.max_calls }) };

    ghost inverse = { λ l. record { max_batch = l.max_batch; max_cells = l.max_cells; max_calls = l.max_calls } };
}

impl Limits {
    /// Takes the most keys of a batch, the most cells and the most calls, in this order.
    ///
    /// # Errors
    /// The first of the three that isn't 1 to [`LARGEST_LIMIT`].
    pub fn new(max_batch: u32, max_cells: u32, max_calls: u32) -> Result<Limits, LimitFault>
        ensures ok { IfOk result (λ l. (l ≡ record { max_batch = max_batch; max_cells = max_cells; max_calls = max_calls }) × AreLimits l) }
        ensures err { IfErr result (RefusedAs max_batch max_cells max_calls) }
    {
        if !is_limit(max_batch) {
            return Err(LimitFault::BatchLimit);
        }
        if !is_limit(max_cells) {
            return Err(LimitFault::CellLimit);
        }
        if !is_limit(max_calls) {
            return Err(LimitFault::CallLimit);
        }
        Ok(Limits {
            max_batch,
            max_cells,
            max_calls,
        })
    }

    /// The most keys of a batch.
    pub fn max_batch(&self) -> u32
        ensures value { result ≡ self.now.max_batch }
        ensures limits { AreLimits self.now }
    {
        self.max_batch
    }

    /// The most cells.
    pub fn max_cells(&self) -> u32
        ensures value { result ≡ self.now.max_cells }
        ensures limits { AreLimits self.now }
    {
        self.max_cells
    }

    /// The most calls.
    pub fn max_calls(&self) -> u32
        ensures value { result ≡ self.now.max_calls }
        ensures limits { AreLimits self.now }
    {
        self.max_calls
    }
}

/// Whether a number may be a limit.
pub(crate) fn is_limit(number: u32) -> bool
    ensures { result ≡ (nat_le 1 number && nat_le number largest_limit) }
{
    (1..=LARGEST_LIMIT).contains(&number)
}
