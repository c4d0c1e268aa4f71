//! How many batches a history has, and how many keys they have.

ghost use Rattle.std.specs.Prelude.{◌≡◌, ◌/◌, ◌%◌, ◌∷◌, ◌++◌, [], ℕ, List, IfNone, IfOk, IfSome};
ghost use Rattle.dl_desk.specs.BatchBook.{StandsFor};
ghost use Rattle.dl_desk.specs.Events.{atoms};
ghost use Rattle.dl_desk.specs.History.{Atom};
ghost use Rattle.dl_history.specs.History.{past};
ghost use Rattle.dl_picture.specs.Numbers.{AreBatchNumbers, AreSizes};

use crate::loads::sum;
use dl_desk::Desk;
use dl_history::Batches;
use std::alloc::AllocError;

/// How many batches there are, how many keys they have together, and how many keys the largest has.
#[derive(Clone, Copy)]
pub struct BatchNumbers {
    pub batches: u64,
    pub keys: u64,
    pub largest: u64,
}

/// How many keys a batch has on average: `whole`, and the fraction `rest` of `of`.
#[derive(Clone, Copy)]
pub struct Mean {
    pub whole: u64,
    pub rest: u64,
    pub of: u64,
}

/// The numbers of a history's batches.
///
/// # Errors
/// `AllocError` if there are more than a number can count, which no memory holds.
pub(crate) fn batch_numbers(batches: &Batches<'_>) -> Result<BatchNumbers, AllocError>
    ensures { IfOk result (AreBatchNumbers (atoms (past batches.now))) }
{
    let mut numbers = BatchNumbers::of_none();
    for number in 0..u32::MAX {
        match batches.get(number) {
            Some(batch) => numbers = numbers.with(batch.keys().len())?,
            None => return Ok(numbers),
        }
    }
    Err(AllocError)
}

/// The numbers of a desk's batches, sent or not.
///
/// # Errors
/// `AllocError` if there are more than a number can count, which no memory holds.
pub(crate) fn desk_numbers(desk: &Desk) -> Result<BatchNumbers, AllocError>
    ensures { IfOk result (λ numbers. (history : List Atom) → StandsFor desk.now.book history → AreBatchNumbers history numbers) }
{
    let mut numbers = BatchNumbers::of_none();
    for number in 0..u32::MAX {
        match desk.batch(number) {
            Some(batch) => numbers = numbers.with(batch.keys().len())?,
            None => return Ok(numbers),
        }
    }
    Err(AllocError)
}

impl BatchNumbers {
    /// The numbers if there is no batch.
    fn of_none() -> BatchNumbers
        ensures { AreSizes [] result }
    {
        BatchNumbers {
            batches: 0,
            keys: 0,
            largest: 0,
        }
    }

    /// The numbers with one batch more, which has this many keys.
    fn with(self, size: usize) -> Result<BatchNumbers, AllocError>
        ensures { IfOk result (λ more. (sizes : List ℕ) → AreSizes sizes self → AreSizes (sizes ++ size ∷ []) more) }
    {
        let size = size as u64;
        Ok(BatchNumbers {
            batches: sum(self.batches, 1)?,
            keys: sum(self.keys, size)?,
            largest: self.largest.max(size),
        })
    }

    /// How many keys a batch has on average, or `None` if there is no batch.
    pub fn mean(&self) -> Option<Mean>
        ensures none { IfNone result (self.now.batches ≡ 0) }
        ensures whole { IfSome result (λ mean. mean.whole ≡ self.now.keys / self.now.batches) }
        ensures rest { IfSome result (λ mean. mean.rest ≡ self.now.keys % self.now.batches) }
        ensures of { IfSome result (λ mean. mean.of ≡ self.now.batches) }
    {
        if self.batches == 0 {
            return None;
        }
        Some(Mean {
            whole: self.keys / self.batches,
            rest: self.keys % self.batches,
            of: self.batches,
        })
    }
}
