//! The codes of a desk's faults.

ghost use Rattle.std.specs.Prelude.{◌≡◌, ◌<◌};
ghost use Rattle.dl_c.specs.Codes.{code_of};

use dl_c_values::codes::{CELLS_FULL, ENDED_BEFORE, FRESH, NO_BATCH, NOT_SENT, OUT_OF_MEMORY};
use dl_desk::DeskFault;

/// The code of a desk's fault.
pub fn code_of(fault: DeskFault) -> u32
    ensures code { result ≡ code_of fault }
    ensures refused { FRESH < result }
{
    match fault {
        DeskFault::OutOfMemory => OUT_OF_MEMORY,
        DeskFault::CellsFull { limit: _ } => CELLS_FULL,
        DeskFault::NoBatch => NO_BATCH,
        DeskFault::NotSent => NOT_SENT,
        DeskFault::SettledBefore => ENDED_BEFORE,
    }
}
