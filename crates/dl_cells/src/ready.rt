//! A cell that is ready to be set.
#![tactic(auto, unfolding(crate::specs::Cells::cell_of, crate::specs::Cells::row_len))]

ghost use Rattle.std.specs.Prelude.{◌≡◌, IfErr, IfOk};
ghost use Rattle.std.specs.declared.option.Option.TheVariants.{Some};

use crate::learned::Learned;
use crate::reader::Reader;
use crate::segment::Segment;
use std::marker::Model;

/// A cell of a [`CellRow`](crate::CellRow) whose segment is there, for who sets it. In clauses it is the cell's name.
#[derive(Drop)]
pub struct ReadyCell<'a, T> {
    pub(crate) segment: &'a Segment<T>,
    pub(crate) learned: Learned<Segment<T>>,
    pub(crate) place: u8,
}

impl<'a, T> Model for ReadyCell<'a, T> {
    ghost use Rattle.std.specs.Prelude.{◌≡◌, ◌<◌};
    ghost use Rattle.std.specs.declared.option.Option.TheVariants.{Some};
    ghost use Rattle.dl_cells.specs.Cells.{CellName};

    ghost Value = { CellName };

    ghost view = { λ c. record { segment = c.learned.cell; place = c.place } };

    ghost invariant = { λ c. (c.learned.known ≡ Some c.segment.now) × (c.place < 32) };
}

impl<T> ReadyCell<'_, T> {
    /// Sets the cell, and gives you a reader that knows its value.
    ///
    /// # Errors
    /// You get `value` back if the cell has one already, or if another thread is just setting it.
    #[inline(always)]
    pub fn show(self, value: T) -> Result<Reader<T>, T>
        ensures cell { IfOk result (λ reader. reader.cell ≡ self.entry) }
        ensures known { IfOk result (λ reader. reader.known ≡ Some value) }
        ensures back { IfErr result (λ back. back ≡ value) }
    {
        let ReadyCell {
            segment,
            learned,
            place,
        } = self;
        match segment.set(u32::from(place), value) {
            Ok(written) => Ok(Reader {
                segment: learned,
                place,
                value: Some(written),
            }),
            Err(value) => Err(value),
        }
    }
}
