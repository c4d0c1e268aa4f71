//! Why plans aren't served.

ghost use Rattle.std.specs.Prelude.{◌≡◌};
ghost use Rattle.dl_scope.specs.declared.fault.ScopeFault.TheVariants.{OutOfMemory, Queue, Start};

use dl_haxl::RunFault;
use dl_loader::{CloseFault, StartFault};
use dl_workers::QueueFault;
use std::alloc::AllocError;
use thiserror::Error;

/// Why [`serve`](crate::serve) gives no report: the first cause that applies, in this order. `OutOfMemory` has no place
/// in the order: it comes wherever memory runs out or the system refuses a thread.
#[derive(Clone, Copy, Debug, PartialEq, Eq, Error)]
pub enum ScopeFault {
    /// There is no plan.
    #[error("there is no plan: serve 1 to 16")]
    NoPlans,
    /// There are more than [`MOST_PLANS`](dl_terms::MOST_PLANS) plans.
    #[error("there are more than 16 plans")]
    TooManyPlans,
    /// The number of workers isn't 1 to [`MOST_WORKERS`](crate::MOST_WORKERS).
    #[error("the number of workers must be 1 to 16")]
    BadWorkers,
    /// Memory ran out at the start of the loader.
    #[error("{0}")]
    Start(StartFault),
    /// The capacity of the queue isn't 1 to 1,024, or memory ran out for the queue.
    #[error("{0}")]
    Queue(QueueFault),
    /// This plan is the first that met a fault other than that the loader was stopped.
    #[error("plan {plan}: {fault}")]
    Run { plan: u32, fault: RunFault },
    /// No plan met such a fault, but one found the loader stopped, or a worker stopped it.
    #[error("the loader is stopped")]
    Stopped,
    /// The loader refused its close.
    #[error("{0}")]
    Close(CloseFault),
    /// This batch is the least that was given up: memory ran out for it, or its job was not sent.
    #[error("batch {batch} was not fetched")]
    Unfetched { batch: u32 },
    /// Memory ran out, or the system refused a thread.
    #[error("out of memory")]
    OutOfMemory,
}

impl From<AllocError> for ScopeFault {
    ghost from_gives = { λ _ fault. fault ≡ OutOfMemory };

    fn from(_: AllocError) -> ScopeFault {
        ScopeFault::OutOfMemory
    }
}

impl From<StartFault> for ScopeFault {
    ghost from_gives = { λ start fault. fault ≡ Start start };

    fn from(fault: StartFault) -> ScopeFault {
        ScopeFault::Start(fault)
    }
}

impl From<QueueFault> for ScopeFault {
    ghost from_gives = { λ queue fault. fault ≡ Queue queue };

    fn from(fault: QueueFault) -> ScopeFault {
        ScopeFault::Queue(fault)
    }
}
