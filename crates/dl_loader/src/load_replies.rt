//! What the replies to loads bring: cells, and tickets for their caller.

ghost use Rattle.std.specs.Prelude.{◌≡◌, ◌-◌, ◌<◌, ◌≤◌, [], length, vec_capacity};
ghost use Rattle.dl_loader.specs.Inside.NewCells.{begun_by, begun_in, cells_begun};
ghost use Rattle.dl_history.specs.Entries.{cell_of_load};
ghost use Rattle.dl_history.specs.Lists.{Every};
ghost use Rattle.dl_history.specs.Pass.{AreTickets};

use crate::book::Book;
use dl_desk::LoadReply;
use dl_history::{CellRows, LoaderName, Pass, Reply, Ticket};

/// How many cells a load began.
pub(crate) fn begun_by(reply: LoadReply) -> u32
    ensures { result ≡ begun_by reply }
{
    match reply {
        LoadReply::Hit(_) => 0,
        LoadReply::Fresh { .. } => 1,
    }
}

/// How many cells the loads began.
pub(crate) fn cells_begun(replies: &[LoadReply]) -> usize
    ensures { result ≡ cells_begun replies.now }
{
    let mut cells = 0;
    for reply in replies {
        match reply {
            LoadReply::Hit(_) => {}
            LoadReply::Fresh { .. } => cells += 1,
        }
    }
    cells
}

/// How many cells the loads began, if these are no more than a loader may begin.
pub(crate) fn new_cells<L: LoaderName>(rows: &CellRows<L>, replies: &[LoadReply]) -> u32
    requires { cells_begun replies.now ≤ L.service.rules.limits.max_cells }
    ensures { result ≡ cells_begun replies.now }
{
    let most = rows.limits().max_cells() as usize;
    let cells = cells_begun(replies);
    prove!(cells <= most);
    cells as u32
}

/// How many cells a call with this reply began, if these are no more than a loader may begin.
#[inline(always)]
pub(crate) fn begun_in<L: LoaderName>(rows: &CellRows<L>, reply: &Reply) -> u32
    requires { begun_in reply.now ≤ L.service.rules.limits.max_cells }
    ensures { result ≡ begun_in reply.now }
{
    match reply {
        Reply::Loaded(reply) => begun_by(*reply),
        Reply::Many(replies) => new_cells(rows, replies.as_slice()),
        Reply::Primed(_) => 1,
        _ => 0,
    }
}

impl<L: LoaderName> Book<L> {
    /// Makes a ticket for each of these replies to the last loads of the pass. The list has room for them.
    pub(crate) fn make_tickets<'a>(
        &self,
        rows: &'a CellRows<L>,
        pass: &Pass<L>,
        replies: &[LoadReply],
        tickets: &mut Vec<Ticket<'a, L>>,
    )
        requires none { tickets.old.items ≡ [] }
        requires room { length replies.now ≤ vec_capacity tickets.old }
        requires last { length replies.now ≤ length pass.now.trace.tickets }
        requires begun { Every (λ r. cell_of_load r < length self.now.cells) replies.now }
        ensures { AreTickets (length pass.now.trace.tickets - length replies.now) replies.now tickets.new.items }
    {
        let first = pass.tickets() - replies.len();
        for reply in replies {
            let number = first + tickets.len();
            tickets.push_reserved(self.ticket(rows, number, *reply));
        }
    }
}
