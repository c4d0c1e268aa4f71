//! Cells that refused their outcome and that a pass has read, for the close of a loader.

ghost use Rattle.std.specs.Prelude.{◌∷◌, ◌++◌, [], ℕ, List, Some, flat_map};
ghost use Rattle.dl_history.specs.Agreement.{read_in, refused_in, unshown};
ghost use Rattle.dl_history.specs.Accounts.{accounts_of};
ghost use Rattle.dl_loader.specs.CloseRefusals.{IsLeastOf};

use dl_history::{Entry, EntryKind, Journal, LoaderName, Pass};

/// The least cell that refused its outcome and of which one of the passes has an entry.
pub(crate) fn least_unshown<L: LoaderName>(journal: &Journal<L>, passes: &[Pass<L>]) -> Option<u32>
    ensures { IsLeastOf result (unshown journal.now.cells (accounts_of passes.now)) }
{
    let mut least = None;
    for pass in passes {
        least = least_in(journal, least, pass.entries());
    }
    least
}

/// The least of the cells so far and of those that refused their outcome and have an entry here.
fn least_in<L: LoaderName>(
    journal: &Journal<L>,
    found: Option<u32>,
    entries: &[Entry<L>],
) -> Option<u32>
    ensures { (ns : List ℕ) → IsLeastOf found ns → IsLeastOf result (ns ++ refused_in journal.now.cells (flat_map read_in entries.now)) }
{
    let mut least = found;
    for entry in entries {
        least = least_at(journal, least, entry);
    }
    least
}

/// The same for one entry.
fn least_at<L: LoaderName>(
    journal: &Journal<L>,
    found: Option<u32>,
    entry: &Entry<L>,
) -> Option<u32>
    ensures { (ns : List ℕ) → IsLeastOf found ns → IsLeastOf result (ns ++ refused_in journal.now.cells (read_in entry.now)) }
{
    match entry.kind() {
        EntryKind::Saw { cell, .. } if journal.has_refused(cell) => Some(least_of(found, cell)),
        _ => found,
    }
}

/// The least of the cells so far and one more.
fn least_of(found: Option<u32>, cell: u32) -> u32
    ensures { (ns : List ℕ) → IsLeastOf found ns → IsLeastOf (Some result) (ns ++ cell ∷ []) }
{
    match found {
        Some(least) => least.min(cell),
        None => cell,
    }
}
