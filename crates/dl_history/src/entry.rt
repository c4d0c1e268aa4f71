//! The entries of a pass: its calls, and the outcomes that its caller has seen.

ghost use Rattle.std.specs.Prelude.{◌≡◌, ◌<◌, IfErr, IfOk, IfSome, IsSomeAnd};
ghost use Rattle.dl_cells.specs.Cells.{cell_of, row_len};
ghost use Rattle.dl_history.specs.Agreement.{Meets};
ghost use Rattle.dl_history.specs.Entries.{event_at, read, event_known, ending_known, kind_of, Called, Saw};
ghost use Rattle.dl_history.specs.Journal.{IsKnown};

use crate::journal::{AppendFault, Journal};
use crate::name::LoaderName;
use dl_cells::{CellRow, Reader, ReadyCell};
use dl_desk::{Ending, Event};
use std::fmt;
use std::marker::{Model, PhantomData};

/// What an entry of a pass is, by places of the history and numbers of cells.
#[derive(Clone, Copy, Debug, PartialEq, Eq)]
pub enum EntryKind {
    /// The caller's event at this place of the history.
    Call { at: u32 },
    /// The outcome of a cell that the caller has seen, and the place of the event that gave it.
    Saw { cell: u32, at: u32 },
}

/// Such as `event 3`, or `cell 0 of event 5`.
impl fmt::Display for EntryKind {
    fn fmt<W: fmt::Write>(&self, f: &mut fmt::Formatter<W>) -> fmt::Result {
        match self {
            EntryKind::Call { at } => write!(f, "event {at}"),
            EntryKind::Saw { cell, at } => write!(f, "cell {cell} of event {at}"),
        }
    }
}

/// An event in the log, and its place there. Contracts see both.
#[derive(Drop)]
pub struct PlacedEvent<L: LoaderName> {
    at: u16,
    reader: Reader<Event>,
    of: PhantomData<L>,
}

impl<L: LoaderName> Model for PlacedEvent<L> {
    ghost use Rattle.std.specs.Prelude.{◌≡◌, ◌<◌, Some};
    ghost use Rattle.dl_cells.specs.Cells.{cell_of, row_len};
    ghost use Rattle.dl_history.specs.Entries.{PlacedEvent, event_at, event_known};
    ghost use Rattle.dl_history.specs.Inside.Codes.{placed_event_code};

    ghost Value = { PlacedEvent };

    ghost coded = { placed_event_code };

    ghost view = { λ e. event_at e.at (event_known e.reader.known) };

    ghost invariant = { λ e. (e.at < row_len L.cells.log) × (e.reader.cell ≡ cell_of L.cells.log e.at) × (e.reader.known ≡ Some (event_known e.reader.known)) };
}

impl<L: LoaderName> PlacedEvent<L> {
    /// Puts an event into its cell of the log. Fails if the log has another event there.
    // Inlined, so that an event is made where it will lie, and not moved there.
    #[inline(always)]
    pub(crate) fn store(
        at: u16,
        cell: ReadyCell<'_, Event>,
        event: Event,
    ) -> Result<PlacedEvent<L>, AppendFault>
        requires in_row { at < row_len L.cells.log }
        requires of_cell { cell ≡ cell_of L.cells.log at }
        ensures { IfOk result (λ stored. stored ≡ event_at at event) }
    {
        match cell.show(event) {
            Ok(reader) => Ok(PlacedEvent {
                at,
                reader,
                of: PhantomData,
            }),
            Err(_) => Err(AppendFault::LogRefused),
        }
    }

    /// The place in the log.
    pub(crate) fn at(&self) -> u16
        ensures { result ≡ self.now.at }
    {
        self.at
    }

    /// A reader of the event's cell, which knows the event.
    pub(crate) fn reader(&self) -> Reader<Event>
        ensures known { IsKnown L.cells.log self.now.at result }
        ensures event { event_known result.known ≡ self.now.event }
    {
        let _at = self.at;
        self.reader.again()
    }

    /// A reader of the event's cell that knows an event knows this one, whichever threads have the two.
    pub(crate) fn agree(&self, reader: &Reader<Event>)
        requires { reader.now.cell ≡ cell_of L.cells.log self.now.at }
        ensures { IfSome reader.now.known (λ event. event ≡ self.now.event) }
    {
        self.reader.agree(reader);
    }
}

/// An outcome that a caller has seen. Contracts see the cell, the outcome, and the place of the event that gave it.
#[derive(Drop)]
pub struct Read<L: LoaderName> {
    cell: u32,
    ended_at: u16,
    reader: Reader<Ending>,
    of: PhantomData<L>,
}

impl<L: LoaderName> Model for Read<L> {
    ghost use Rattle.std.specs.Prelude.{◌≡◌, ◌<◌, Some};
    ghost use Rattle.dl_cells.specs.Cells.{cell_of, row_len};
    ghost use Rattle.dl_history.specs.Entries.{Read, read, ending_known};
    ghost use Rattle.dl_history.specs.Inside.Codes.{read_code};

    ghost Value = { Read };

    ghost coded = { read_code };

    ghost view = { λ s. read s.cell (ending_known s.reader.known) };

    ghost invariant = { λ s. (s.cell < row_len L.cells.outcomes) × (s.ended_at ≡ (ending_known s.reader.known).at) × (s.reader.cell ≡ cell_of L.cells.outcomes s.cell)
        × (s.reader.known ≡ Some (ending_known s.reader.known)) };
}

impl<L: LoaderName> Read<L> {
    /// The outcome that a reader of a cell knows, which the event at `at` gave it.
    pub(crate) fn of(cell: u32, at: u16, reader: Reader<Ending>) -> Read<L>
        requires in_row { cell < row_len L.cells.outcomes }
        requires of_cell { reader.cell ≡ cell_of L.cells.outcomes cell }
        requires known { IsSomeAnd reader.known (λ ending. ending.at ≡ at) }
        ensures { result ≡ read cell (ending_known reader.known) }
    {
        Read {
            cell,
            ended_at: at,
            reader,
            of: PhantomData,
        }
    }

    /// The cell.
    pub fn cell(&self) -> u32
        ensures { result ≡ self.now.cell }
    {
        self.cell
    }

    /// The place of the event that gave the outcome.
    pub(crate) fn ended_at(&self) -> u16
        ensures { result ≡ self.now.ending.at }
    {
        self.ended_at
    }

    /// A reader of the cell that knows an outcome knows this one, whichever threads have the two.
    pub(crate) fn agree(&self, reader: &Reader<Ending>)
        requires { reader.now.cell ≡ cell_of L.cells.outcomes self.now.cell }
        ensures { IfSome reader.now.known (λ ending. ending ≡ self.now.ending) }
    {
        self.reader.agree(reader);
    }
}

/// An entry of a pass: a call of its caller, or an outcome that its caller has seen. [`kind`](Entry::kind) says which.
#[derive(Drop)]
pub struct Entry<L: LoaderName> {
    kind: Kind<L>,
}

/// What an entry is.
#[derive(Drop)]
enum Kind<L: LoaderName> {
    // A call that was made.
    Call(PlacedEvent<L>),
    // An outcome that was read.
    Saw(Read<L>),
}

impl<L: LoaderName> Model for Entry<L> {
    ghost use Rattle.dl_history.specs.Entries.{Entry};
    ghost use Rattle.dl_history.specs.Inside.Codes.{entry_code};

    ghost Value = { Entry };

    ghost coded = { entry_code };

    ghost use Rattle.dl_history.specs.Inside.Entries.{entry_of};

    ghost view = { λ e. entry_of e.kind };
}

impl<L: LoaderName> fmt::Display for Entry<L> {
    fn fmt<W: fmt::Write>(&self, f: &mut fmt::Formatter<W>) -> fmt::Result {
        let kind = self.kind();
        write!(f, "{kind}")
    }
}

impl<L: LoaderName> Entry<L> {
    /// The entry of a call.
    pub(crate) fn call(stored: PlacedEvent<L>) -> Entry<L>
        ensures { result ≡ Called stored }
    {
        Entry {
            kind: Kind::Call(stored),
        }
    }

    /// The entry of an outcome that the caller has seen.
    pub(crate) fn saw(seen: Read<L>) -> Entry<L>
        ensures { result ≡ Saw seen }
    {
        Entry {
            kind: Kind::Saw(seen),
        }
    }

    /// What the entry is.
    pub fn kind(&self) -> EntryKind
        ensures { result ≡ kind_of self.now }
    {
        match &self.kind {
            Kind::Call(stored) => EntryKind::Call {
                at: u32::from(stored.at),
            },
            Kind::Saw(seen) => EntryKind::Saw {
                cell: seen.cell,
                at: u32::from(seen.ended_at),
            },
        }
    }

    /// What the journal has at the entry's place, or of its cell, is what the entry says. It is for proofs.
    pub(crate) fn agree(&self, journal: &Journal<L>)
        ensures { Meets journal.now.history journal.now.cells self.now }
    {
        match &self.kind {
            Kind::Call(stored) => journal.agree_call(stored),
            Kind::Saw(seen) => journal.agree_read(seen),
        }
    }
}
