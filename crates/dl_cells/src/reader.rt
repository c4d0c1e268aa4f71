//! What one holder knows of one cell.
#![tactic(auto, unfolding(crate::specs::Cells::cell_of, crate::specs::Cells::row_len))]

ghost use Rattle.std.specs.Prelude.{◌≡◌, IfSome};
ghost use Rattle.dl_cells.specs.Cells.{Agrees};

use crate::learned::Learned;
use crate::segment::Segment;
use boxcar::slot::Written;
use std::marker::Model;

/// What one holder knows of one cell of a [`CellRow`](crate::CellRow): nothing yet, or the cell's value for good.
///
/// A reader borrows nothing: you can put it in a struct or send it to another thread. It takes two bytes. In clauses it
/// is a `Reader`: `cell` says which cell it is of, and `known` is the value once it has seen that.
pub struct Reader<T> {
    pub(crate) segment: Learned<Segment<T>>,
    // The place in the segment, which has 32 cells.
    pub(crate) place: u8,
    // What shows that the cell holds its value, once the holder has seen that.
    pub(crate) value: Option<Written<T>>,
}

impl<T> Drop for Reader<T> {
    fn drop(self) {
        let Reader {
            segment,
            place: _,
            value,
        } = self;
        drop(segment);
        drop(value);
    }
}

impl<T> Model for Reader<T> {
    ghost use Rattle.std.specs.Prelude.{◌≡◌, IfSome, IsSomeAnd, option_map, slice_index};
    ghost use Rattle.dl_cells.specs.Cells.{Reader};

    ghost Value = { Reader T };

    ghost view = { λ r. record { cell = record { segment = r.segment.cell; place = r.place }; known = option_map (λ w. w.value) r.value } };

    ghost invariant = { λ r. IsSomeAnd r.segment.known (λ names. IfSome r.value (λ w. w.of ≡ slice_index names r.place)) };
}

impl<T> Reader<T> {
    /// A second reader of the same cell that knows the same, for another thread.
    pub fn again(&self) -> Reader<T>
        ensures { result ≡ self.now }
    {
        Reader {
            segment: self.segment.again(),
            place: self.place,
            value: self.value.as_ref().map(|written| written.again()),
        }
    }

    /// Two readers of one cell that know its value know the same value, whichever threads made them.
    pub fn agree(&self, other: &Reader<T>)
        requires { other.now.cell ≡ self.now.cell }
        ensures { IfSome other.now.known (Agrees self.now.known) }
    {
        self.segment.agrees(&other.segment);
        if let (Some(own), Some(others)) = (&self.value, &other.value) {
            own.agrees(others);
        }
    }
}
