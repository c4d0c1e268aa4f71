//! What a source gets to fetch.

ghost use Rattle.std.specs.Prelude.{◌≡◌, IfOk};

use crate::key::Keys;
use std::alloc::AllocError;
use std::fmt;

/// A batch that went out: what a source has to fetch.
#[derive(Debug)]
pub struct Job {
    /// The batch's number.
    pub batch: u32,
    /// The batch's keys, in order.
    pub keys: Keys,
}

impl Drop for Job {
    fn drop(self) {
        let Job { batch: _, keys } = self;
        drop(keys);
    }
}

impl fmt::Display for Job {
    fn fmt<W: fmt::Write>(&self, f: &mut fmt::Formatter<W>) -> fmt::Result {
        write!(f, "batch {} of {}", self.batch, self.keys)
    }
}

impl Job {
    /// An equal job, which shares the keys.
    ///
    /// # Errors
    /// `AllocError` if the reference count would overflow.
    pub fn try_copy(&self) -> Result<Job, AllocError>
        ensures { IfOk result (λ j. j ≡ self.now) }
    {
        let keys = self.keys.try_copy()?;
        Ok(Job {
            batch: self.batch,
            keys,
        })
    }
}
