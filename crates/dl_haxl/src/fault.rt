//! Why a poll or an evaluation gives no answer.

ghost use Rattle.std.specs.Prelude.{◌≡◌};
ghost use Rattle.dl_haxl.specs.declared.fault.PollFault.TheVariants as poll;
ghost use Rattle.dl_haxl.specs.declared.fault.RunFault.TheVariants as run;

use dl_loader::{CallFault, Stopped};
use std::alloc::AllocError;
use thiserror::Error;

/// Why a poll gives no answer.
#[derive(Clone, Copy, Debug, PartialEq, Eq, Error)]
pub enum PollFault {
    /// An earlier poll gave the answer.
    #[error("the answer was given before")]
    Finished,
    /// Memory ran out, in this poll or in an earlier one.
    #[error("out of memory")]
    OutOfMemory,
}

impl From<AllocError> for PollFault {
    ghost from_gives = { λ _ fault. fault ≡ poll.OutOfMemory };

    fn from(_: AllocError) -> PollFault {
        PollFault::OutOfMemory
    }
}

/// Why a term gives no answer. The entries that the pass gained until then stay in it.
#[derive(Clone, Copy, Debug, PartialEq, Eq, Error)]
pub enum RunFault {
    /// The loader rejected a call.
    #[error("{0}")]
    Call(CallFault),
    /// The loader is stopped, or a cell refused its outcome.
    #[error("the loader is stopped")]
    Stopped,
    /// Memory ran out.
    #[error("out of memory")]
    OutOfMemory,
}

impl From<CallFault> for RunFault {
    ghost from_gives = { λ call fault. fault ≡ run.Call call };

    fn from(fault: CallFault) -> RunFault {
        RunFault::Call(fault)
    }
}

impl From<Stopped> for RunFault {
    ghost from_gives = { λ _ fault. fault ≡ run.Stopped };

    fn from(_: Stopped) -> RunFault {
        RunFault::Stopped
    }
}

impl From<AllocError> for RunFault {
    ghost from_gives = { λ _ fault. fault ≡ run.OutOfMemory };

    fn from(_: AllocError) -> RunFault {
        RunFault::OutOfMemory
    }
}
