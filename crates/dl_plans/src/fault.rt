//! How a run of the program fails.

use dl_documents::PlanFault;
use dl_replay::HistoryFault;
use dl_scope::ScopeFault;
use thiserror::Error;

/// How a run of the program fails.
#[derive(Clone, Copy, Debug, PartialEq, Eq, Error)]
pub enum RunError {
    /// The reader failed. The run wrote nothing.
    #[error("failed: read")]
    Read,
    /// The reader has no document. The run wrote nothing.
    #[error("refused: {0}")]
    Refused(PlanFault),
    /// `serve` refuses the plans of the document. The run wrote nothing.
    #[error("failed: {}", name_of(.0))]
    Run(ScopeFault),
    /// The writer failed, or the file of the picture or of the trace. The beginning of the text may be written.
    #[error("failed: write")]
    Write,
    /// Memory ran out. The run wrote nothing.
    #[error("failed: memory")]
    OutOfMemory,
    /// There is nothing to migrate to version 2: a script, or a plan file of version 2 or 3. The run wrote nothing.
    #[error("refused: not version 1")]
    NotVersion1,
    /// There is nothing to migrate to version 3: a script, or a plan file of version 3. The run wrote nothing.
    #[error("refused: not version 1 or 2")]
    NotVersion1Or2,
    /// The file has no history. The run wrote nothing.
    #[error("refused: {0}")]
    NoHistory(HistoryFault),
}

/// The name of a fault.
fn name_of(fault: &ScopeFault) -> &'static str {
    match fault {
        ScopeFault::NoPlans => "NoPlans",
        ScopeFault::TooManyPlans => "TooManyPlans",
        ScopeFault::BadWorkers => "BadWorkers",
        ScopeFault::Start(_) => "Start",
        ScopeFault::Queue(_) => "Queue",
        ScopeFault::Run { .. } => "Run",
        ScopeFault::Stopped => "Stopped",
        ScopeFault::Close(_) => "Close",
        ScopeFault::Unfetched { .. } => "Unfetched",
        ScopeFault::OutOfMemory => "OutOfMemory",
    }
}
