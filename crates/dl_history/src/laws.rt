//! Laws of the histories that closed loaders leave, and what all looks of one cell have in common. Each function does
//! nothing: its contract is the law, for your proof. `dl_desk` has the laws of every legal history.

ghost use Rattle.std.specs.Prelude.{◌≡◌, IfSome};
ghost use Rattle.dl_cells.specs.Cells.{Agrees};
ghost use Rattle.dl_history.specs.Entries.{cell_of_load};
ghost use Rattle.dl_history.specs.Laws.{EventsAreCalls, HistoriesBeginEmpty};

use crate::name::LoaderName;
use crate::ticket::Ticket;

/// Each event of a closed loader's history is a call among its caller's entries.
pub fn events_are_calls()
    ensures { EventsAreCalls }
{}

/// A loader begins with an empty history: if its callers make no call, the history that it leaves has no event.
pub fn histories_begin_empty()
    ensures { HistoriesBeginEmpty }
{}

/// All looks of one cell show one outcome: if two tickets of it have shown one, it is the same, and the same event gave
/// it, whichever threads looked.
pub fn looks_agree<L: LoaderName>(one: &Ticket<'_, L>, other: &Ticket<'_, L>)
    requires cell { cell_of_load other.now.reply ≡ cell_of_load one.now.reply }
    ensures { IfSome other.now.known (Agrees one.now.known) }
{
    one.agree(other);
}
