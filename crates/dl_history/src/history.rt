//! Histories: what you get when you close a loader.

ghost use Rattle.std.specs.Prelude.{◌≡◌, ◌<◌, ◌≤◌, [], IfNone, IfOk, IfSome, MatchOption, Some, flat_map, length, map, option_copied};
ghost use Rattle.dl_desk.specs.Events.{atoms, outcome};
ghost use Rattle.dl_desk.specs.History.{begun, cells, end_of};
ghost use Rattle.dl_history.specs.Agreement.{Agrees, account, entries_of};
ghost use Rattle.dl_history.specs.ClosedHistory.{IsHistory, accounts_at, history_of, kinds_of, place_of};
ghost use Rattle.dl_history.specs.Entries.{kind_of};
ghost use Rattle.dl_desk.specs.Legal.{keys_of};
ghost use Rattle.dl_history.specs.History.{past};
ghost use Rattle.dl_history.specs.LoaderState.{IsLoaderState, loader_state};
ghost use Rattle.dl_history.specs.Lists.{places};
ghost use Rattle.dl_desk.specs.Service.{AnswersEach, Service};

mod batches;

use crate::cell_rows::CellRows;
use crate::cells::Cells;
use crate::entry::EntryKind;
use crate::events::Events;
use crate::journal::Journal;
use crate::name::LoaderName;
use crate::outline::Outline;
pub use batches::{Batches, EndedBatch};
use dl_desk::{BatchState, Desk, End, Outcome};
use std::alloc::{AllocError, Global};
use std::fmt;
use std::marker::Model;

/// The history of a closed loader: its events in order, and what each caller knows of them.
///
/// It is legal, each caller's entries are its part of it, and each of its batches has ended. It doesn't name its
/// loader, so the function that opens, uses and closes the loader can return it.
///
/// # Examples
/// `Loader::close` of `dl_loader` gives you the history, or hands back what you gave it, as in
/// `crates/example_loaders/src/one_caller.rt`:
///
/// ```rust
/// match loader.close(alloc, passes) {
///     Ok(history) => print!(rt; "{history}")?,
///     Err((fault, _, _)) => return Err(fault.into()),
/// }
/// ```
pub struct History {
    events: Events,
    cells: Cells,
    desk: Desk,
    outlines: Vec<Outline>,
}

impl Drop for History {
    fn drop(self) {
        let History {
            events,
            cells,
            desk,
            outlines,
        } = self;
        drop(events);
        drop(cells);
        drop(desk);
        drop(outlines);
    }
}

impl Model for History {
    ghost use Rattle.std.specs.Coded.{codes};
    ghost use Rattle.dl_desk.specs.contracts.event.Event as event;
    ghost use Rattle.dl_history.specs.Inside.Codes.{account_code};
    ghost use Rattle.dl_history.specs.ClosedHistory.{History, AreHistoryFields, accounts_at, history_of};
    ghost use Rattle.dl_history.specs.LoaderState.{loader_state};
    ghost use Rattle.dl_desk.specs.Service.{Service};

    ghost Value = { History };

    ghost coded = { Prim.hlevel (codes, event.the_row.coded, account_code) };

    ghost view = { λ h. history_of h.events (accounts_at h.events h.outlines.items) };

    ghost invariant = { λ h. (service : Service)
        × AreHistoryFields service (loader_state h.events h.desk.book h.cells) (history_of h.events (accounts_at h.events h.outlines.items)) };
}

/// A line for each event: its place, its caller, the call and the reply, such as `3 caller 1 load user/u1: hit 0`.
impl fmt::Display for History {
    fn fmt<W: fmt::Write>(&self, f: &mut fmt::Formatter<W>) -> fmt::Result {
        for at in 0..self.events.len() {
            if let Some(event) = self.events.get(at) {
                writeln!(f, "{at} {event}")?;
            }
        }
        Ok(())
    }
}

impl History {
    /// The history that a loader leaves, from its rows, its desk, its journal and the outlines of its callers. It takes
    /// what only the loader has, so `Loader::close` of `dl_loader` is the one to call.
    pub fn of<L: LoaderName>(
        rows: CellRows<L>,
        desk: Desk,
        journal: Journal<L>,
        outlines: Vec<Outline>,
    ) -> History
        requires kept { IsLoaderState L.service (loader_state journal.history desk.book journal.cells) }
        requires answers { AnswersEach L.service.answer }
        requires closed { IsHistory L.service (history_of journal.history (accounts_at journal.history outlines.items)) }
        ensures { result ≡ history_of journal.history (accounts_at journal.history outlines.items) }
    {
        let (events, cells) = journal.into_parts(rows);
        History {
            events,
            cells,
            desk,
            outlines,
        }
    }

    /// What holds of every history: it is legal for some service, each caller has an account that agrees with it, and
    /// each batch has ended. The call does nothing when it runs; its clause is for your proof.
    pub fn keeps(&self)
        ensures { (service : Service) × IsHistory service self.now }
    {
        let _ = &self.desk;
    }

    /// The events, in order.
    pub fn events(&self) -> &Events
        ensures { result.now ≡ self.now.events }
    {
        &self.events
    }

    /// The batches, each with its keys and how it ended.
    pub fn batches(&self) -> Batches<'_>
        ensures { result ≡ self.now.events }
    {
        Batches::new(self)
    }

    /// The outcome of a cell, or `None` exactly if there is no such cell.
    pub fn outcome(&self, cell: u32) -> Option<&Outcome>
        ensures given { option_copied result ≡ outcome (past self.now.events) cell }
        ensures begun { MatchOption result (cells (atoms (past self.now.events)) ≤ cell) (λ _. cell < cells (atoms (past self.now.events))) }
    {
        self.cells.outcome(cell)
    }

    /// What the entries of a caller are, in order. There are none if there is no such caller. What they speak of is in
    /// the history.
    pub fn entries(&self, caller: u32) -> &[EntryKind]
        ensures entries { result.now ≡ map kind_of (entries_of caller self.now.accounts) }
        ensures agree { caller < length self.now.accounts → Agrees self.now.events (account caller (entries_of caller self.now.accounts)) }
        ensures none { length self.now.accounts ≤ caller → result.now ≡ [] }
    {
        kinds_of(self.outlines.as_slice(), caller)
    }

    /// The places of a caller's events, in order. There are none if there is no such caller. Fails if memory runs out.
    pub fn of_caller(&self, alloc: Global, caller: u32) -> Result<Vec<u32>, AllocError>
        ensures { IfOk result (λ found. found.items ≡ places (λ e. e.caller) caller 0 self.now.events) }
    {
        self.keeps();
        places_of(alloc, self.entries(caller))
    }

    /// The batch of this number, or `None` if there isn't one.
    fn batch(&self, batch: u32) -> Option<EndedBatch<'_>>
        ensures begun { IfSome result (λ b. batch < begun (atoms (past self.now.events))) }
        ensures keys { IfSome result (λ b. b.keys ≡ keys_of (atoms (past self.now.events)) batch) }
        ensures end { IfSome result (λ b. end_of (atoms (past self.now.events)) batch ≡ Some b.end) }
        ensures none { IfNone result (begun (atoms (past self.now.events)) ≤ batch) }
    {
        let view = self.desk.batch(batch)?;
        let end = match view.state() {
            BatchState::Settled => End::Settled,
            BatchState::Failed => End::Failed,
            BatchState::Collecting | BatchState::Sent => unreachable!(),
        };
        Some(EndedBatch::new(view.keys(), end))
    }
}

/// What the entries of a caller are, and none if it has no outline.
fn kinds_of(outlines: &[Outline], caller: u32) -> &[EntryKind]
    ensures { result.now ≡ kinds_of caller outlines.now }
{
    for outline in outlines {
        if outline.caller() == caller {
            return outline.entries();
        }
    }
    &[]
}

/// The places of the calls among the entries, in order. Fails if memory runs out.
fn places_of(alloc: Global, entries: &[EntryKind]) -> Result<Vec<u32>, AllocError>
    ensures { IfOk result (λ places. places.items ≡ flat_map place_of entries.now) }
{
    let mut places = Vec::new(alloc);
    for entry in entries {
        match entry {
            EntryKind::Call { at } => places.push(*at)?,
            EntryKind::Saw { .. } => {}
        }
    }
    Ok(places)
}
