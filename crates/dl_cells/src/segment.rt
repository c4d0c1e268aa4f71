//! Thirty-two cells that a row makes together.
ghost use Rattle.std.specs.Prelude.{◌≡◌, ◌<◌, IfErr, IfOk, slice_index, ⊤};

use boxcar::slot::{OnceSlot, SlotRule, Written};
use boxcar::tag::Tag;
use std::alloc::{AllocError, Global};
use std::marker::Model;

/// How many cells a segment has. The definitions of specs/ write the number.
pub(crate) const SEGMENT: u32 = 32;

/// The rule that every value keeps.
pub(crate) struct AnyValue;

impl<T> SlotRule<T> for AnyValue {
    ghost holds = { λ _ _. ⊤ };
}

/// A cell, which holds its value in place.
pub(crate) type Cell<T> = OnceSlot<T, AnyValue>;

/// Thirty-two cells, in clauses the list of their names.
pub(crate) struct Segment<T> {
    cells: Vec<Cell<T>>,
}

impl<T: Drop> Drop for Segment<T> {
    fn drop(self) {
        let Segment { cells } = self;
        drop(cells);
    }
}

impl<T> Model for Segment<T> {
    ghost use Rattle.std.specs.Prelude.{◌≡◌, List, ℕ, map, length};

    ghost Value = { List ℕ };

    ghost view = { λ s. map (λ cell. cell.id) s.cells.items };

    ghost invariant = { λ s. length s.cells.items ≡ 32 };
}

impl<T: Drop> Segment<T> {
    /// A segment of empty cells. Fails if memory runs out.
    pub(crate) fn new(alloc: Global) -> Result<Segment<T>, AllocError> {
        let mut cells = Vec::new(alloc);
        cells.resize_with(SEGMENT as usize, || OnceSlot::new(&Tag::empty()))?;
        Ok(Segment { cells })
    }
}

impl<T> Segment<T> {
    /// The cell at a place.
    pub(crate) fn cell(&self, place: u32) -> &Cell<T>
        requires { place < SEGMENT }
        ensures { result.now.id ≡ slice_index self.now place }
    {
        &self.cells[place as usize]
    }

    /// Sets the cell at a place. You get `value` back if the cell has one already, or if another thread is just setting it.
    // Not inlined by force: so the compiler first takes the slot's write into it, which it leaves out of line in a long caller.
    pub(crate) fn set(&self, place: u32, value: T) -> Result<Written<T>, T>
        requires { place < SEGMENT }
        ensures ok { IfOk result (λ written. (written.of ≡ slice_index self.now place) × (written.value ≡ value)) }
        ensures back { IfErr result (λ back. back ≡ value) }
    {
        self.cell(place).set_written(value)
    }
}
