//! What someone has learned of one `OnceBox`, in a form that you can read through a shared reference.
ghost use Rattle.std.specs.Prelude.{◌≡◌, ℕ, IfSome, IsSome};
ghost use Rattle.std.specs.declared.option.Option.{Option};
ghost use Rattle.std.specs.declared.option.Option.TheVariants.{Some};
ghost use Rattle.std.specs.Coded.{coded_option};
ghost use denote.Sharing.{said};
ghost use Rattle.once_cell.specs.Once.{noted, cell_name};
ghost use Rattle.dl_cells.specs.Cells.{Agrees};

use once_cell::race::{Note, OnceBox};
use std::marker::{Model, PhantomData};

/// What someone has learned of one `OnceBox`. It takes no bytes.
///
/// A `Note` says what it knows only behind a `&mut`. All that a note knows stays true for good, so here a `&` is enough
/// to compare and to copy it.
pub(crate) struct Learned<T> {
    marker: PhantomData<T>,
    pub(crate) ghost cell: { ℕ },
    pub(crate) ghost known: { Option T } by { coded_option T.code },
}

impl<T> Model for Learned<T> {
    ghost also_owns = { λ s. noted T.row s.cell s.known };

    ghost also_shares = { λ s _ κ. said (noted T.row s.cell s.known) κ };
}

impl<T> Learned<T> {
    /// What a note knows.
    pub(crate) fn of(note: &mut Note<T>) -> Learned<T>
        ensures note { note.new ≡ note.old }
        ensures cell { result.cell ≡ note.old.cell }
        ensures known { result.known ≡ note.old.known }
    {
        Learned {
            marker: PhantomData,
        }
    }

    /// The same once more, for another thread.
    pub(crate) fn again(&self) -> Learned<T>
        ensures cell { result.cell ≡ self.now.cell }
        ensures known { result.known ≡ self.now.known }
    {
        Learned {
            marker: PhantomData,
        }
    }

    /// Two that know the value of one cell know the same value.
    pub(crate) fn agrees(&self, other: &Learned<T>)
        requires { other.now.cell ≡ self.now.cell }
        ensures { IfSome other.now.known (Agrees self.now.known) }
    {}

    /// Makes a note of the same cell know what this knows.
    fn teach(&self, note: &mut Note<T>)
        requires { note.old.cell ≡ self.now.cell }
        ensures cell { note.new.cell ≡ note.old.cell }
        ensures known { note.new.known ≡ self.now.known }
    {}

    /// A note of the cell that knows what this knows.
    fn note(&self, cell: &OnceBox<T>) -> Note<T>
        requires { self.now.cell ≡ cell_name cell.now }
        ensures cell { result.cell ≡ self.now.cell }
        ensures known { result.known ≡ self.now.known }
    {
        let mut note = cell.note();
        self.teach(&mut note);
        note
    }

    /// The value of a cell, of which this knows that it has one.
    pub(crate) fn get<'a>(&self, cell: &'a OnceBox<T>) -> &'a T
        requires of_cell { self.now.cell ≡ cell_name cell.now }
        requires known { IsSome self.now.known }
        ensures { self.now.known ≡ Some result.now }
    {
        match cell.get_as(&mut self.note(cell)) {
            Some(value) => value,
            None => unreachable!(),
        }
    }
}

impl<T> Drop for Learned<T> {
    fn drop(self) {
        let Learned { marker: _ } = self;
    }
}

unsafe impl<T> Send for Learned<T> {}

unsafe impl<T> Sync for Learned<T> {}
