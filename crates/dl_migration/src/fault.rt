//! Why a document isn't migrated.

ghost use Rattle.std.specs.Prelude.{◌≡◌};
ghost use Rattle.dl_migration.specs.Migration.{late, unmigrated};
ghost use Rattle.dl_migration.specs.declared.fault.MigrateFault.TheVariants.{OutOfMemory};

use crate::target::Target;
use dl_documents::PlanFault;
use std::alloc::AllocError;
use thiserror::Error;

/// Why a document isn't migrated: the first cause that applies. `OutOfMemory` has no place in that order: it comes
/// wherever memory runs out.
#[derive(Clone, Copy, Debug, PartialEq, Eq, Error)]
pub enum MigrateFault {
    /// [`read_input`](dl_documents::read_input) refuses the document for this.
    #[error("{0}")]
    Refused(PlanFault),
    /// The document was to be written in version 2, and is a script, or a plan file of version 2 or 3.
    #[error("the document is not a plan file of version 1")]
    NotVersion1,
    /// The document was to be written in version 3, and is a script, or a plan file of version 3.
    #[error("the document is not a plan file of version 1 or 2")]
    NotVersion1Or2,
    /// Memory ran out.
    #[error("out of memory")]
    OutOfMemory,
}

impl MigrateFault {
    /// The document isn't of an earlier version.
    pub(crate) fn late(target: Target) -> MigrateFault
        ensures { result ≡ late target }
    {
        match target {
            Target::Second => MigrateFault::NotVersion1,
            Target::Third => MigrateFault::NotVersion1Or2,
        }
    }
}

impl From<PlanFault> for MigrateFault {
    ghost from_gives = { λ read fault. fault ≡ unmigrated read };

    fn from(fault: PlanFault) -> MigrateFault {
        match fault {
            PlanFault::OutOfMemory => MigrateFault::OutOfMemory,
            fault => MigrateFault::Refused(fault),
        }
    }
}

impl From<AllocError> for MigrateFault {
    ghost from_gives = { λ _ fault. fault ≡ OutOfMemory };

    fn from(_error: AllocError) -> MigrateFault {
        MigrateFault::OutOfMemory
    }
}
