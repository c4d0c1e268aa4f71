//! Why a desk rejects a call.

ghost use Rattle.std.specs.Prelude.{◌≡◌};
ghost use Rattle.dl_desk.specs.declared.fault.DeskFault.TheVariants.{OutOfMemory};

use std::alloc::{AllocError, AllocFailed};
use thiserror::Error;

/// Why a desk rejects a call. A rejected call leaves the desk as it was.
#[derive(Clone, Copy, Debug, PartialEq, Eq, Error)]
pub enum DeskFault {
    /// No batch has this number yet.
    #[error("no batch has this number yet")]
    NoBatch,
    /// The batch has not gone out: it still collects keys.
    #[error("the batch has not been sent: dispatch it first")]
    NotSent,
    /// The batch has already ended, settled or failed.
    #[error("the batch has already ended")]
    SettledBefore,
    /// The call needs more cells than the limit leaves.
    #[error("a loader of {limit} cells is full: give it more, at most 65,536")]
    CellsFull { limit: u32 },
    /// Memory ran out.
    #[error("out of memory")]
    OutOfMemory,
}

impl From<AllocError> for DeskFault {
    ghost from_gives = { λ _ fault. fault ≡ OutOfMemory };

    fn from(_: AllocError) -> DeskFault {
        DeskFault::OutOfMemory
    }
}

impl<T: Drop> From<AllocFailed<T>> for DeskFault {
    ghost from_gives = { λ _ fault. fault ≡ OutOfMemory };

    fn from(_: AllocFailed<T>) -> DeskFault {
        DeskFault::OutOfMemory
    }
}
