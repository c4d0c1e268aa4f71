//! Tickets: what a caller has of a load.

ghost use Rattle.std.specs.Prelude.{◌≡◌, ◌<◌, IfNone, IfSome, IsSome, None, Some};
ghost use Rattle.dl_cells.specs.Cells.{Agrees, cell_of, row_len};
ghost use Rattle.dl_history.specs.Entries.{cell_of_load, ending_known, read};
ghost use Rattle.dl_history.specs.Pass.{Shows, ticket};

use crate::entry::Read;
use crate::name::LoaderName;
use dl_cells::{CellRow, Reader};
use dl_desk::{Ending, LoadReply, Outcome};
use std::marker::{Model, PhantomData};

/// A load's claim to an outcome. You get one from `Loader::load` of `dl_loader`, and [`look`](Ticket::look) shows you
/// the outcome once the cell of the load has ended. Contracts see its number among the tickets of its pass, the reply
/// to the load, and what it knows of the cell.
///
/// # Examples
/// You load a key, have its batch fetched, wait, and look, as `crates/example_loaders/src/one_caller.rt` does:
///
/// ```rust
/// let mut ticket = loader.load(rt, alloc, pass, &key)?;
/// let jobs = loader.dispatch(rt, alloc, pass)?;
/// end_jobs(rt, alloc, loader, source, pass, jobs)?;
/// loader.wait(rt, pass, &mut ticket)?;
/// match ticket.look() {
///     Some(Outcome::Value(name)) => println!(rt; "{}", name.to_text(alloc)?)?,
///     _ => bail!("no user"),
/// }
/// ```
pub struct Ticket<'a, L: LoaderName> {
    row: &'a CellRow<Ending>,
    number: usize,
    reply: LoadReply,
    reader: Reader<Ending>,
    of: PhantomData<L>,
}

impl<L: LoaderName> Drop for Ticket<'_, L> {
    fn drop(self) {
        let Ticket {
            row: _,
            number: _,
            reply: _,
            reader,
            of: _,
        } = self;
        drop(reader);
    }
}

impl<'a, L: LoaderName> Model for Ticket<'a, L> {
    ghost use Rattle.std.specs.Prelude.{◌≡◌, ◌<◌};
    ghost use Rattle.dl_cells.specs.Cells.{cell_of, row_len};
    ghost use Rattle.dl_history.specs.Entries.{cell_of_load};
    ghost use Rattle.dl_history.specs.Pass.{Ticket, ticket};
    ghost use Rattle.dl_history.specs.Inside.PassCodes.{ticket_code};

    ghost Value = { Ticket };

    ghost coded = { ticket_code };

    ghost view = { λ t. ticket t.number t.reply t.reader.known };

    ghost invariant = { λ t. (t.row.now ≡ L.cells.outcomes) × (cell_of_load t.reply < row_len L.cells.outcomes)
        × (t.reader.cell ≡ cell_of L.cells.outcomes (cell_of_load t.reply)) };
}

/// The cell that this reply to a load names.
pub fn load_cell(reply: LoadReply) -> u32
    ensures { result ≡ cell_of_load reply }
{
    match reply {
        LoadReply::Hit(cell) => cell,
        LoadReply::Fresh { cell, .. } => cell,
    }
}

impl<'a, L: LoaderName> Ticket<'a, L> {
    /// A ticket of this number for a load with this reply. A loader's book makes the tickets of its loader: nobody else
    /// has the row of its outcomes, or readers of its cells.
    pub fn new(
        row: &'a CellRow<Ending>,
        number: usize,
        reply: LoadReply,
        reader: Reader<Ending>,
    ) -> Ticket<'a, L>
        requires row { row.now ≡ L.cells.outcomes }
        requires in_row { cell_of_load reply < row_len L.cells.outcomes }
        requires of_cell { reader.cell ≡ cell_of L.cells.outcomes (cell_of_load reply) }
        ensures { result ≡ ticket number reply reader.known }
    {
        Ticket {
            row,
            number,
            reply,
            reader,
            of: PhantomData,
        }
    }

    /// The cell that will show the outcome.
    pub fn cell(&self) -> u32
        ensures { result ≡ cell_of_load self.now.reply }
    {
        load_cell(self.reply)
    }

    /// The reply to the load.
    pub fn reply(&self) -> LoadReply
        ensures { result ≡ self.now.reply }
    {
        self.reply
    }

    /// The outcome, if the cell has ended and shows it. Once you get it, you get it each time. It never waits.
    pub fn look(&mut self) -> Option<&'a Outcome>
        ensures number { self.new.number ≡ self.old.number }
        ensures reply { self.new.reply ≡ self.old.reply }
        ensures kept { IfSome self.old.known (λ ending. self.new.known ≡ Some ending) }
        ensures shown { IfSome result (λ outcome. Shows self.new outcome.now) }
        ensures none { IfNone result ((self.old.known ≡ None) × (self.new.known ≡ None)) }
    {
        let ending = self.look_ending()?;
        Some(&ending.outcome)
    }

    /// Two tickets of one cell that know its outcome know the same one, whichever threads looked. It is for proofs.
    pub(crate) fn agree(&self, other: &Ticket<'_, L>)
        requires { cell_of_load other.now.reply ≡ cell_of_load self.now.reply }
        ensures { IfSome other.now.known (Agrees self.now.known) }
    {
        self.reader.agree(&other.reader);
    }

    /// The number of the ticket among those of its pass.
    pub(crate) fn number(&self) -> usize
        ensures { result ≡ self.now.number }
    {
        self.number
    }

    /// What the ticket knows of its cell, for an entry.
    pub(crate) fn seen(&mut self) -> Read<L>
        requires { IsSome self.old.known }
        ensures same { self.new ≡ self.old }
        ensures seen { result ≡ read (cell_of_load self.old.reply) (ending_known self.old.known) }
    {
        let at = match self.look_ending() {
            Some(ending) => ending.at,
            None => unreachable!(),
        };
        Read::of(self.cell(), at, self.reader.again())
    }

    /// The place and the outcome, if the cell has ended and shows them.
    fn look_ending(&mut self) -> Option<&'a Ending>
        ensures number { self.new.number ≡ self.old.number }
        ensures reply { self.new.reply ≡ self.old.reply }
        ensures kept { IfSome self.old.known (λ ending. self.new.known ≡ Some ending) }
        ensures shown { IfSome result (λ ending. self.new.known ≡ Some ending.now) }
        ensures none { IfNone result ((self.old.known ≡ None) × (self.new.known ≡ None)) }
    {
        let row = self.row;
        let cell = self.cell();
        row.look(cell, &mut self.reader)
    }
}
