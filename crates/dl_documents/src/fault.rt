//! Why a document is refused.

ghost use Rattle.std.specs.Prelude.{◌≡◌};
ghost use Rattle.dl_documents.specs.declared.fault.PlanFault.TheVariants.{NotJson, OutOfMemory};

use dl_source::TableFault;
use dl_values::LimitFault;
use json::Invalid;
use std::alloc::{AllocError, AllocFailed};
use thiserror::Error;

/// Why bytes aren't a document: the first cause that applies anywhere in them, in this order. If several have the same
/// cause, it is that of the first call, or of the first plan and its first such step. Calls, plans and steps have
/// numbers from 0.
///
/// The members of a document have the right form if `calls` is a list, `plans` a list of 1 to
/// [`MOST_PLANS`](crate::MOST_PLANS) lists, each of the three limits a whole number, and the `tableLimits` of a script
/// a list of pairs of a table's name and a whole number, with no table twice.
#[derive(Clone, Copy, Debug, PartialEq, Eq, Error)]
pub enum PlanFault {
    /// There are more than [`MOST_BYTES`](crate::MOST_BYTES) bytes.
    #[error("too large")]
    TooLarge,
    /// The bytes aren't the text of a JSON value.
    #[error("not json")]
    NotJson,
    /// The member `script` of a script, or `version` of a plan file, isn't 1 or 2.
    #[error("version")]
    Version,
    /// A member at the top is missing, has the wrong form, or isn't one of this kind and version.
    #[error("top")]
    Top,
    /// This item isn't a call.
    #[error("call {call}")]
    BadCall { call: usize },
    /// This item isn't a step.
    #[error("plan {plan} step {step}")]
    Shape { plan: usize, step: usize },
    /// The term of this step is more than [`MOST_HEIGHT`](crate::MOST_HEIGHT) high.
    #[error("too deep plan {plan} step {step}")]
    TooDeep { plan: usize, step: usize },
    /// This plan has more than [`MOST_STEPS`](crate::MOST_STEPS) steps.
    #[error("too many steps plan {plan}")]
    TooManySteps { plan: usize },
    /// The tables have this fault.
    #[error("table {0:?}")]
    Table(TableFault),
    /// One of the three limits, or a table's limit of a batch, is out of range.
    #[error("limit {0:?}")]
    Limit(LimitFault),
    /// Memory ran out.
    #[error("memory")]
    OutOfMemory,
}

impl From<Invalid> for PlanFault {
    ghost from_gives = { λ _ f. f ≡ NotJson };

    fn from(_error: Invalid) -> PlanFault {
        PlanFault::NotJson
    }
}

impl From<AllocError> for PlanFault {
    ghost from_gives = { λ _ f. f ≡ OutOfMemory };

    fn from(_error: AllocError) -> PlanFault {
        PlanFault::OutOfMemory
    }
}

impl<T: Drop> From<AllocFailed<T>> for PlanFault {
    ghost from_gives = { λ _ f. f ≡ OutOfMemory };

    fn from(_error: AllocFailed<T>) -> PlanFault {
        PlanFault::OutOfMemory
    }
}
