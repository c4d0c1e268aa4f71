//! Names of loaders.

ghost use Rattle.dl_history.specs.CellNames.{CellNames, no_cells};
ghost use Rattle.dl_desk.specs.Service.{Service, no_service};

use std::marker::Brand;
use std::sync::ledger::Ledger;

/// A type that names one loader, in all that belongs to it. It has no functions and no values. To open a loader, you
/// call a function over `L: LoaderName` at `std::marker::Brand`, and the proof then names the brand after the opening.
/// The ledger's number of parts is the number of callers.
pub trait LoaderName: Ledger {
    // The row that the history lies in, the row that the outcomes of cells lie in, and the flags.
    ghost cells: { CellNames };

    // What the loader serves by: how it makes batches, its callers, and what its source may answer.
    ghost service: { Service };
}

impl LoaderName for Brand {
    ghost cells = { no_cells };

    ghost service = { no_service };
}
