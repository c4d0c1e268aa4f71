//! A row of cells, and its calls.
#![tactic(auto, unfolding(crate::specs::Cells::cell_of, crate::specs::Cells::row_len))]

ghost use Rattle.std.specs.Prelude.{◌≡◌, ◌<◌, ◌/◌, ◌%◌, IfErr, IfNone, IfOk, IfSome, OnOk};
ghost use Rattle.std.specs.declared.option.Option.TheVariants.{None, Some};
ghost use Rattle.once_cell.specs.Once.{cell_name};
ghost use Rattle.dl_cells.specs.Cells.{row_len, cell_of, Agrees};

use crate::learned::Learned;
use crate::reader::Reader;
use crate::ready::ReadyCell;
use crate::segment::{SEGMENT, Segment};
use once_cell::race::OnceBox;
use std::alloc::{AllocError, Global};
use std::marker::Model;

/// A row of cells, each of which takes a value at most once. Any thread may set or read a cell through a `&`, and no
/// call waits.
///
/// The cells are in segments of 32. The first reader of a cell in a segment makes it, so a row that you hardly use
/// takes little memory: a pointer for each segment. In clauses a row is its name: `row_len` is how many cells it has,
/// and `cell_of` the name of one.
///
/// # Examples
/// Shows a copy of a value in a cell, and asks whether the cell took it, from `crates/dl_tests`:
///
/// ```rust
/// let mut reader = row.reader(place).expect(rt, "no memory");
/// let copy = value.clone().expect(rt, "no memory");
/// row.show(place, &mut reader, copy).is_ok()
/// ```
///
/// Looks at a cell, from the same crate:
///
/// ```rust
/// let mut reader = cell.reader.again();
/// cell.row.look(cell.place, &mut reader).copied()
/// ```
pub struct CellRow<T> {
    segments: Vec<OnceBox<Segment<T>>>,
    len: u32,
}

impl<T: Drop> Drop for CellRow<T> {
    fn drop(self) {
        let CellRow { segments, len: _ } = self;
        drop(segments);
    }
}

impl<T> Model for CellRow<T> {
    ghost use Rattle.std.specs.Prelude.{◌*◌, ◌≤◌, map, vec_len};
    ghost use Rattle.once_cell.specs.Once.{cell_name};
    ghost use Rattle.dl_cells.specs.Cells.{RowName};

    ghost Value = { RowName };

    ghost view = { λ r. record { segments = map cell_name r.segments.items; cells = r.len } };

    ghost invariant = { λ r. r.len ≤ 32 * vec_len r.segments };
}

impl<T: Drop> CellRow<T> {
    /// A row of `len` empty cells.
    ///
    /// # Errors
    /// `AllocError` if memory runs out.
    pub fn new(alloc: Global, len: u32) -> Result<CellRow<T>, AllocError>
        ensures { IfOk result (λ row. row_len row ≡ len) }
    {
        let mut segments = Vec::new(alloc);
        segments.resize_with(len.div_ceil(SEGMENT) as usize, || OnceBox::new(alloc))?;
        Ok(CellRow { segments, len })
    }

    /// A reader of cell `i` that knows nothing yet. If the cell's segment isn't there, the call makes it.
    ///
    /// # Errors
    /// `AllocError` if memory runs out for that.
    #[inline(always)]
    pub fn reader(&self, i: u32) -> Result<Reader<T>, AllocError>
        requires { i < row_len self.now }
        ensures cell { IfOk result (λ reader. reader.cell ≡ cell_of self.now i) }
        ensures known { IfOk result (λ reader. reader.known ≡ None) }
    {
        let ReadyCell {
            segment: _,
            learned,
            place,
        } = self.ready(i)?;
        Ok(Reader {
            segment: learned,
            place,
            value: None,
        })
    }

    /// Makes cell `i` ready to be set, so that this takes no memory any more: if the cell's segment isn't there, the call
    /// makes it.
    ///
    /// # Errors
    /// `AllocError` if memory runs out for that.
    // Inlined, since each event asks for a cell, and mostly for one whose segment is there.
    #[inline(always)]
    pub fn ready(&self, i: u32) -> Result<ReadyCell<'_, T>, AllocError>
        requires { i < row_len self.now }
        ensures { IfOk result (λ ready. ready ≡ cell_of self.now i) }
    {
        let alloc = *self.segments.allocator();
        let home = self.home(i);
        let mut note = home.note();
        let segment = match home.get_as(&mut note) {
            Some(segment) => segment,
            None => {
                let make = move || -> Result<Box<Segment<T>>, AllocError> {
                    Ok(Box::new(alloc, Segment::new(alloc)?)?)
                };
                home.get_or_try_init_as(make, &mut note)?
            }
        };
        Ok(ReadyCell {
            segment,
            learned: Learned::of(&mut note),
            place: (i % SEGMENT) as u8,
        })
    }

    /// Sets cell `i` to `value`. The reader knew nothing of the cell before, and knows that value now.
    ///
    /// # Errors
    /// You get `value` back if the cell has one already, or if another thread is just setting it. The reader then knows
    /// what it knew before.
    pub fn show(&self, i: u32, reader: &mut Reader<T>, value: T) -> Result<(), T>
        requires in_row { i < row_len self.now }
        requires of_cell { reader.old.cell ≡ cell_of self.now i }
        ensures cell { reader.new.cell ≡ reader.old.cell }
        ensures ok { OnOk result ((reader.new.known ≡ Some value) × (reader.old.known ≡ None)) }
        ensures err { IfErr result (λ back. (back ≡ value) × (reader.new.known ≡ reader.old.known)) }
    {
        let segment = reader.segment.get(self.home(i));
        let cell = segment.cell(i % SEGMENT);
        let shown = match &reader.value {
            Some(written) => cell.set_seen(value, written),
            None => cell.set_written(value),
        };
        reader.value = Some(shown?);
        Ok(())
    }
}

impl<T> CellRow<T> {
    /// The value of cell `i`, if it has one. From then on the reader knows it, gives you the same value each time, and
    /// never `None`.
    pub fn look<'a>(&'a self, i: u32, reader: &mut Reader<T>) -> Option<&'a T>
        requires in_row { i < row_len self.now }
        requires of_cell { reader.old.cell ≡ cell_of self.now i }
        ensures cell { reader.new.cell ≡ reader.old.cell }
        ensures shown { IfSome result (λ x. (reader.new.known ≡ Some x.now) × Agrees reader.old.known x.now) }
        ensures empty { IfNone result ((reader.old.known ≡ None) × (reader.new.known ≡ None)) }
    {
        let segment = reader.segment.get(self.home(i));
        let cell = segment.cell(i % SEGMENT);
        if reader.value.is_none() {
            reader.value = cell.witness();
        }
        match &reader.value {
            Some(written) => Some(cell.value(written)),
            None => None,
        }
    }

    /// The cell that keeps the segment of cell `i`.
    fn home(&self, i: u32) -> &OnceBox<Segment<T>>
        requires { i < row_len self.now }
        ensures { cell_name result.now ≡ (cell_of self.now i).segment }
    {
        &self.segments[(i / SEGMENT) as usize]
    }
}
