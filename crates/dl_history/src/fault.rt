//! Why a loader doesn't start, rejects a call or a wait, or doesn't close.

ghost use Rattle.std.specs.Prelude.{◌≡◌};
ghost use Rattle.dl_history.specs.declared.fault.CallFault.TheVariants as call;
ghost use Rattle.dl_history.specs.declared.fault.CloseFault.TheVariants as close;
ghost use Rattle.dl_history.specs.declared.fault.StartFault.TheVariants as start;
ghost use Rattle.dl_history.specs.Faults.{append_fault, call_fault};

use crate::journal::AppendFault;
use dl_desk::DeskFault;
use std::alloc::AllocError;
use thiserror::Error;

/// Why you can't open or start a loader: the first of these causes that applies.
#[derive(Clone, Copy, Debug, PartialEq, Eq, Error)]
pub enum StartFault {
    /// A loader has at least one caller.
    #[error("a loader needs a caller: give it 1 to 32")]
    NoCallers,
    /// A loader has at most 32 callers (`dl_loader::MOST_CALLERS`).
    #[error("a loader has at most 32 callers")]
    TooManyCallers,
    /// Memory ran out.
    #[error("out of memory")]
    OutOfMemory,
}

impl From<AllocError> for StartFault {
    ghost from_gives = { λ _ fault. fault ≡ start.OutOfMemory };

    fn from(_: AllocError) -> StartFault {
        StartFault::OutOfMemory
    }
}

/// Why a loader rejects a call: the first of these causes that applies. A rejected call leaves the loader, its history
/// and the pass as they were, except that after `Stopped` the pass knows that the loader is stopped.
#[derive(Clone, Copy, Debug, PartialEq, Eq, Error)]
pub enum CallFault {
    /// Somebody has stopped the loader.
    #[error("the loader is stopped")]
    Stopped,
    /// The pass has seen more of a history than this one has. It never comes in a run. No proof excludes it, since only
    /// the close compares passes with the history. Treat it as a bug.
    #[error("a pass has seen {front} events, and the history has {len}")]
    Behind { front: u32, len: u32 },
    /// The history has all the events that it may have.
    #[error("a history of {limit} calls is full: give it more, at most 65,536")]
    LogFull { limit: u32 },
    /// No batch has this number yet.
    #[error("no batch has this number yet")]
    NoBatch,
    /// The batch has not gone out: it still collects keys.
    #[error("the batch has not been sent: dispatch it first")]
    NotSent,
    /// The batch has already ended, settled or failed.
    #[error("the batch has already ended")]
    SettledBefore,
    /// The keys aren't those of the batch, in order.
    #[error("the keys must be those of the batch, in its order")]
    WrongKeys,
    /// The call needs more cells than the limit leaves.
    #[error("a loader of {limit} cells is full: give it more, at most 65,536")]
    CellsFull { limit: u32 },
    /// Memory ran out.
    #[error("out of memory")]
    OutOfMemory,
    /// The history's own cell refused the event. It never comes in a run. No proof excludes it, since none says that a
    /// set on an empty cell succeeds. Treat it as a bug.
    #[error("the history refused the event")]
    LogRefused,
}

/// Somebody has stopped the loader, and the ticket's cell had not ended. The error of a wait.
#[derive(Clone, Copy, Debug, PartialEq, Eq, Error)]
#[error("the loader is stopped")]
pub struct Stopped;

/// Why you can't close a loader: the first of these causes that applies. You get the loader and the passes back.
#[derive(Clone, Copy, Debug, PartialEq, Eq, Error)]
pub enum CloseFault {
    /// The passes must be those of all callers, one of each.
    #[error("closing takes one pass of each of {want} callers, and got those of {got}")]
    PassesMissing { want: u32, got: u32 },
    /// A pass has seen more of a history than this one has. It never comes in a run. No proof excludes it, since
    /// nothing says that you used a pass with one loader alone. Treat it as a bug.
    #[error("a pass has seen {front} events, and the history has {len}")]
    Behind { front: u32, len: u32 },
    /// A cell refused its outcome, and a pass has an outcome of it. It never comes in a run. No proof excludes it,
    /// since none says that a set on an empty cell succeeds. Treat it as a bug.
    #[error("cell {cell} refused its outcome")]
    Unshown { cell: u32 },
    /// A batch has not ended, whether it has gone out or not.
    #[error("batch {batch} has not ended: settle it or fail it first")]
    Unsettled { batch: u32 },
    /// Memory ran out.
    #[error("out of memory")]
    OutOfMemory,
}

impl From<AllocError> for CloseFault {
    ghost from_gives = { λ _ fault. fault ≡ close.OutOfMemory };

    fn from(_: AllocError) -> CloseFault {
        CloseFault::OutOfMemory
    }
}

impl From<AllocError> for CallFault {
    ghost from_gives = { λ _ fault. fault ≡ call.OutOfMemory };

    fn from(_: AllocError) -> CallFault {
        CallFault::OutOfMemory
    }
}

impl From<AppendFault> for CallFault {
    ghost from_gives = { λ append fault. fault ≡ append_fault append };

    fn from(fault: AppendFault) -> CallFault {
        match fault {
            AppendFault::OutOfMemory => CallFault::OutOfMemory,
            AppendFault::LogRefused => CallFault::LogRefused,
        }
    }
}

impl From<Stopped> for CallFault {
    ghost from_gives = { λ _ fault. fault ≡ call.Stopped };

    fn from(_: Stopped) -> CallFault {
        CallFault::Stopped
    }
}

impl From<DeskFault> for CallFault {
    ghost from_gives = { λ desk fault. fault ≡ call_fault desk };

    fn from(fault: DeskFault) -> CallFault {
        match fault {
            DeskFault::NoBatch => CallFault::NoBatch,
            DeskFault::NotSent => CallFault::NotSent,
            DeskFault::SettledBefore => CallFault::SettledBefore,
            DeskFault::CellsFull { limit } => CallFault::CellsFull { limit },
            DeskFault::OutOfMemory => CallFault::OutOfMemory,
        }
    }
}
