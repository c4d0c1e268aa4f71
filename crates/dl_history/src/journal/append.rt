//! One event more in a journal.

ghost use Rattle.std.specs.Prelude.{◌≡◌, ◌+◌, ◌<◌, ◌≤◌, ◌∷◌, ◌++◌, [], IfOk, OnErr, OnOk, length, take};
ghost use Rattle.std.specs.List.{repeat};
ghost use Rattle.dl_cells.specs.Cells.{cell_of, row_len};
ghost use Rattle.dl_values.specs.Limits.{largest_limit};
ghost use Rattle.dl_history.specs.declared.journal.append.AppendFault.TheVariants.{OutOfMemory};
ghost use Rattle.dl_history.specs.Entries.{event_at};
ghost use Rattle.dl_history.specs.Journal.{waiting};

use crate::cell_rows::CellRows;
use crate::entry::PlacedEvent;
use crate::journal::Journal;
use crate::name::LoaderName;
use dl_cells::{CellRow, ReadyCell};
use dl_desk::{Ending, Event};
use std::alloc::AllocError;
use std::sync::ledger::Share;

/// Why a journal doesn't take an event.
#[derive(Clone, Copy, Debug, PartialEq, Eq)]
pub enum AppendFault {
    /// Memory ran out.
    OutOfMemory,
    /// The log has another event at the next place. It never comes: to append, you need the lock. No proof excludes it,
    /// since none says that a cell of the log is empty.
    LogRefused,
}

impl From<AllocError> for AppendFault {
    ghost from_gives = { λ _ fault. fault ≡ OutOfMemory };

    fn from(_: AllocError) -> AppendFault {
        AppendFault::OutOfMemory
    }
}

impl<L: LoaderName> Journal<L> {
    /// Adds an event, which the share of its caller counts, with the cells that it begins, and answers what the caller
    /// knows of it. It makes all allocations first and then stores the event in the log. After that nothing can fail.
    ///
    /// # Errors
    /// `OutOfMemory`, `LogRefused`. The events, the cells and the share are then as they were.
    // Inlined, so that an event is made where it will lie, and not moved there.
    #[inline(always)]
    pub(crate) fn append(
        &mut self,
        rows: &CellRows<L>,
        share: &mut Share<L>,
        event: Event,
        cells: u32,
    ) -> Result<PlacedEvent<L>, AppendFault>
        requires room { length self.old.history < L.service.rules.limits.max_calls }
        requires cells_room { length self.old.cells + cells ≤ L.service.rules.limits.max_cells }
        requires part { 0 < share.old.parts }
        ensures history { OnOk result (self.new.history ≡ self.old.history ++ event ∷ []) }
        ensures cells { OnOk result (self.new.cells ≡ self.old.cells ++ repeat cells (waiting ∷ [])) }
        ensures stored { IfOk result (λ stored. stored ≡ event_at (length self.old.history) event) }
        ensures counted { OnOk result (share.new.amount ≡ share.old.amount + 1) }
        ensures parts { share.new.parts ≡ share.old.parts }
        ensures unchanged { OnErr result ((self.new.history ≡ self.old.history) × (self.new.cells ≡ self.old.cells) × (share.new ≡ share.old)) }
    {
        let place = self.next_place(rows);
        let first = self.next_cell(rows, cells);
        let Ok(cell) = self.grow(rows, place, first, cells) else {
            self.cut_cells(first);
            return Err(AppendFault::OutOfMemory);
        };
        match PlacedEvent::store(place, cell, event) {
            Ok(stored) => {
                self.add(&stored, share);
                Ok(stored)
            }
            Err(fault) => {
                self.cut_cells(first);
                Err(fault)
            }
        }
    }

    /// Makes the allocations of an event at a place and begins its cells, with `first` as the next. Answers the cell of the
    /// log for it. If memory runs out, the call fails, and some of the cells may have begun.
    #[inline(always)]
    fn grow<'a>(
        &mut self,
        rows: &'a CellRows<L>,
        place: u16,
        first: u32,
        cells: u32,
    ) -> Result<ReadyCell<'a, Event>, AllocError>
        requires place { place < L.service.rules.limits.max_calls }
        requires first { first ≡ length self.old.cells }
        requires in_row { first + cells ≤ L.service.rules.limits.max_cells }
        requires fits { first + cells ≤ largest_limit }
        ensures history { self.new.history ≡ self.old.history }
        ensures cells { OnOk result (self.new.cells ≡ self.old.cells ++ repeat cells (waiting ∷ [])) }
        ensures room { OnOk result (0 < self.new.spare) }
        ensures cell { IfOk result (λ cell. cell ≡ cell_of L.cells.log place) }
        ensures in_log { OnOk result (place < row_len L.cells.log) }
        ensures begun { OnErr result (take first self.new.cells ≡ self.old.cells) }
    {
        self.reserve()?;
        let cell = rows.log().ready(u32::from(place))?;
        if cells > 0 {
            self.begin_cells(rows.outcomes(), first, cells)?;
        }
        Ok(cell)
    }

    /// Begins `cells` cells, which have no end yet, with `first` as the next. If memory runs out, the call fails, and some
    /// of them may have begun.
    #[inline(always)]
    fn begin_cells(
        &mut self,
        row: &CellRow<Ending>,
        first: u32,
        cells: u32,
    ) -> Result<(), AllocError>
        requires row { row.now ≡ L.cells.outcomes }
        requires first { first ≡ length self.old.cells }
        requires in_row { first + cells ≤ row_len L.cells.outcomes }
        requires fits { first + cells ≤ largest_limit }
        ensures history { self.new.history ≡ self.old.history }
        ensures cells { OnOk result (self.new.cells ≡ self.old.cells ++ repeat cells (waiting ∷ [])) }
        ensures room { self.new.spare ≡ self.old.spare }
        ensures begun { OnErr result (take first self.new.cells ≡ self.old.cells) }
    {
        self.reserve_cells(cells)?;
        for more in 0..cells {
            let reader = row.reader(first + more)?;
            self.add_cell(reader);
        }
        Ok(())
    }

    /// Takes back all cells from `first` on.
    #[cold]
    fn cut_cells(&mut self, first: u32)
        ensures history { self.new.history ≡ self.old.history }
        ensures cells { self.new.cells ≡ take first self.old.cells }
        ensures room { self.new.spare ≡ self.old.spare }
    {
        self.states.truncate(first as usize);
    }

    /// The place of the next event.
    pub fn next_place(&self, rows: &CellRows<L>) -> u16
        requires { length self.now.history < L.service.rules.limits.max_calls }
        ensures { result ≡ length self.now.history }
    {
        let most = rows.limits().max_calls() as usize;
        let place = self.len();
        prove!(place < most);
        place as u16
    }

    /// The next cell. There are numbers for `cells` cells from that one on.
    fn next_cell(&self, rows: &CellRows<L>, cells: u32) -> u32
        requires { length self.now.cells + cells ≤ L.service.rules.limits.max_cells }
        ensures first { result ≡ length self.now.cells }
        ensures fits { result + cells ≤ largest_limit }
    {
        let most = rows.limits().max_cells() as usize;
        let first = self.cells();
        prove!(first <= most);
        first as u32
    }
}
