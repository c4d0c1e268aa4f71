//! What the lock of a loader guards of each cell.

ghost use Rattle.std.specs.Prelude.{◌≡◌, ◌<◌, IfSome, MatchBool, None, Option, Some, option_copied, option_map};
ghost use Rattle.dl_cells.specs.Cells.{cell_of, row_len};
ghost use Rattle.dl_desk.specs.declared.event.Ending.{Ending};
ghost use Rattle.dl_history.specs.declared.cell_state.Mark.TheVariants.{Waiting, Ended, Refused};
ghost use Rattle.dl_history.specs.LoaderState.{ShowsEnd};

use crate::entry::Read;
use crate::name::LoaderName;
use dl_cells::{CellRow, Reader};
use dl_desk::{Ending, Outcome};

/// Whether a cell took its outcome.
#[derive(Drop)]
pub enum Mark {
    /// It has got none.
    Waiting,
    /// It took it.
    Ended,
    /// It refused this end.
    Refused(Ending),
}

/// A cell: a reader of it, and whether it took its outcome.
#[derive(Drop)]
pub struct CellState {
    pub(crate) reader: Reader<Ending>,
    pub(crate) mark: Mark,
}

impl CellState {
    /// A cell that waits for its outcome.
    pub(crate) fn new(reader: Reader<Ending>) -> CellState
        ensures reader { result.reader ≡ reader }
        ensures mark { result.mark ≡ Waiting }
    {
        CellState {
            reader,
            mark: Mark::Waiting,
        }
    }

    /// Gives the cell its outcome, and answers whether the cell took it. If it did, the reader knows it from then on.
    pub(crate) fn end(&mut self, row: &CellRow<Ending>, cell: u32, ending: Ending) -> bool
        requires in_row { cell < row_len row.now }
        requires of_cell { self.old.reader.cell ≡ cell_of row.now cell }
        requires unknown { self.old.reader.known ≡ None }
        ensures cell { self.new.reader.cell ≡ self.old.reader.cell }
        ensures ended { MatchBool result ((self.new.mark ≡ Ended) × (self.new.reader.known ≡ Some ending)) (self.new.mark ≡ Refused ending) }
    {
        match row.show(cell, &mut self.reader, ending) {
            Ok(()) => {
                self.mark = Mark::Ended;
                true
            }
            Err(kept) => {
                self.mark = Mark::Refused(kept);
                false
            }
        }
    }

    /// The outcome that the cell got, shown or refused, if it got one.
    pub(crate) fn outcome<'a>(&'a self, row: &'a CellRow<Ending>, cell: u32) -> Option<&'a Outcome>
        requires in_row { cell < row_len row.now }
        requires of_cell { self.now.reader.cell ≡ cell_of row.now cell }
        ensures { (end : Option Ending) → ShowsEnd end self.now.mark self.now.reader.known → option_copied result ≡ option_map (λ e. e.outcome) end }
    {
        match &self.mark {
            Mark::Waiting => None,
            Mark::Ended => match row.look(cell, &mut self.reader.again()) {
                Some(ending) => Some(&ending.outcome),
                None => None,
            },
            Mark::Refused(kept) => Some(&kept.outcome),
        }
    }

    /// What this reader knows of the cell is what the entry saw there, whichever threads have looked. It is for proofs.
    pub(crate) fn agree<L: LoaderName>(&self, seen: &Read<L>)
        requires { self.now.reader.cell ≡ cell_of L.cells.outcomes seen.now.cell }
        ensures { IfSome self.now.reader.known (λ ending. ending ≡ seen.now.ending) }
    {
        seen.agree(&self.reader);
    }
}
