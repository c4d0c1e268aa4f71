//! The cells of a history.

ghost use Rattle.std.specs.Prelude.{◌≡◌, ◌≤◌, Option, length, option_copied, option_map, slice_get};
ghost use Rattle.dl_cells.specs.Cells.{row_len};
ghost use Rattle.dl_desk.specs.declared.event.Ending.{Ending};
ghost use Rattle.dl_history.specs.Journal.{AreOwn, cells_by};
ghost use Rattle.dl_history.specs.LoaderState.{ShownAs};

use crate::cell_state::CellState;
use dl_cells::CellRow;
use dl_desk::{Ending, Outcome};
use std::marker::Model;

/// The cells of a closed loader, in order, each with what became of it.
#[derive(Drop)]
pub(crate) struct Cells {
    outcomes: CellRow<Ending>,
    states: Vec<CellState>,
}

impl Model for Cells {
    ghost use Rattle.std.specs.Prelude.{◌≤◌, List, length};
    ghost use Rattle.std.specs.Coded.{codes};
    ghost use Rattle.dl_cells.specs.Cells.{row_len};
    ghost use Rattle.dl_desk.specs.contracts.event.Ending as ending;
    ghost use Rattle.dl_history.specs.Journal.{AreOwn, Cell, cells_by};

    ghost Value = { List Cell };

    ghost coded = { Prim.hlevel (codes, ending.the_row.coded) };

    ghost view = { λ c. cells_by c.states.items };

    ghost invariant = { λ c. AreOwn c.outcomes c.states.items × (length c.states.items ≤ row_len c.outcomes) };
}

impl Cells {
    /// The cells of a row, in these states.
    pub(crate) fn new(outcomes: CellRow<Ending>, states: Vec<CellState>) -> Cells
        requires own { AreOwn outcomes states.items }
        requires in_row { length states.items ≤ row_len outcomes }
        ensures { result ≡ cells_by states.items }
    {
        Cells { outcomes, states }
    }

    /// The outcome of a cell, if there is such a cell and it got one.
    pub(crate) fn outcome(&self, cell: u32) -> Option<&Outcome>
        ensures { (end : Option Ending) → ShownAs (slice_get self.now cell) end → option_copied result ≡ option_map (λ e. e.outcome) end }
    {
        match self.states.get(cell as usize) {
            Some(state) => state.outcome(&self.outcomes, cell),
            None => None,
        }
    }
}
