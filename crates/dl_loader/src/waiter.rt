//! Where callers wait for outcomes, and for their turn.

ghost use Rattle.std.specs.Prelude.{◌<◌, ◌≤◌};
ghost use Rattle.dl_cells.specs.Cells.{row_len};

use crate::book::Book;
use dl_cells::CellRow;
use dl_desk::Ending;
use dl_gather::Gathering;
use dl_history::LoaderName;
use std::sync::atomic::{AtomicBool, AtomicU32, Ordering};
use std::sync::{Condvar, MutexGuard, Wait};

/// Where one caller waits for the outcome of a cell. So the end of a batch wakes only those callers that wait for its
/// cells. No contract says who wakes: see `Loader::wake`.
#[derive(Drop)]
pub(crate) struct Waiter {
    // Its caller sets it while it has the book, so whoever has had the book since then sees it.
    awaited: Awaited,
    woken: Condvar,
    /// Where the caller sleeps until it is its turn.
    pub(crate) turn: Sleeper,
}

impl Waiter {
    /// Of a caller that waits for nothing.
    pub(crate) fn new() -> Waiter {
        Waiter {
            awaited: Awaited::none(),
            woken: Condvar::new(),
            turn: Sleeper::new(),
        }
    }

    /// Gives the book back, waits until someone wakes the caller, and takes the book again.
    pub(crate) fn wait<'b, L: LoaderName>(
        &self,
        rt: &impl Wait,
        cell: u32,
        book: MutexGuard<'b, Book<L>>,
    ) -> MutexGuard<'b, Book<L>> {
        self.awaited.set(cell);
        let book = self.woken.wait(rt, book);
        self.awaited.clear();
        book
    }

    /// Wakes the caller, whatever it waits for.
    pub(crate) fn wake(&self) {
        self.woken.notify_all();
    }

    /// Wakes the caller if its cell shows an outcome.
    pub(crate) fn wake_if_shown(&self, outcomes: &CellRow<Ending>, cells: u32)
        requires { cells ≤ row_len outcomes.now }
    {
        if self.awaited.shows(outcomes, cells) {
            self.wake();
        }
    }
}

/// Where one caller sleeps until it is its turn. It is woken only if it sleeps.
#[derive(Drop)]
pub(crate) struct Sleeper {
    // Its caller sets these while it has the rule, so whoever has had the rule since then sees them.
    sleeps: AtomicBool,
    awaited: Awaited,
    woken: Condvar,
}

impl Sleeper {
    /// Of a caller that doesn't sleep.
    fn new() -> Sleeper {
        Sleeper {
            sleeps: AtomicBool::new(false),
            awaited: Awaited::none(),
            woken: Condvar::new(),
        }
    }

    /// Gives the rule back, sleeps until someone wakes the caller, and takes the rule again.
    pub(crate) fn sleep<'r>(
        &self,
        rt: &impl Wait,
        rule: MutexGuard<'r, Gathering>,
    ) -> MutexGuard<'r, Gathering> {
        self.sleeps.store(true, Ordering::SeqCst);
        let rule = self.woken.wait(rt, rule);
        self.sleeps.store(false, Ordering::SeqCst);
        rule
    }

    /// The same, while the caller waits for a cell.
    pub(crate) fn sleep_for<'r>(
        &self,
        rt: &impl Wait,
        cell: u32,
        rule: MutexGuard<'r, Gathering>,
    ) -> MutexGuard<'r, Gathering> {
        self.awaited.set(cell);
        let rule = self.sleep(rt, rule);
        self.awaited.clear();
        rule
    }

    /// Wakes the caller if it sleeps.
    pub(crate) fn wake(&self) {
        if self.sleeps.load(Ordering::SeqCst) {
            self.woken.notify_all();
        }
    }

    /// Whether the caller sleeps while it waits for a cell, and the cell shows an outcome.
    pub(crate) fn awaits_shown(&self, outcomes: &CellRow<Ending>, cells: u32) -> bool
        requires { cells ≤ row_len outcomes.now }
    {
        self.awaited.shows(outcomes, cells)
    }
}

/// The cell for which a caller waits, if it waits for one.
#[derive(Drop)]
struct Awaited {
    // The number of the cell plus 1, and 0 if there is none.
    number: AtomicU32,
}

impl Awaited {
    fn none() -> Awaited {
        Awaited {
            number: AtomicU32::new(0),
        }
    }

    fn set(&self, cell: u32) {
        self.number.store(cell.saturating_add(1), Ordering::SeqCst);
    }

    fn clear(&self) {
        self.number.store(0, Ordering::SeqCst);
    }

    /// Whether there is one, and it shows an outcome.
    fn shows(&self, outcomes: &CellRow<Ending>, cells: u32) -> bool
        requires { cells ≤ row_len outcomes.now }
    {
        match self.number.load(Ordering::SeqCst).checked_sub(1) {
            Some(cell) => cell < cells && shows(outcomes, cell),
            None => false,
        }
    }
}

/// Whether the cell shows an outcome; it may show one if there is no memory to look.
fn shows(outcomes: &CellRow<Ending>, cell: u32) -> bool
    requires { cell < row_len outcomes.now }
{
    match outcomes.reader(cell) {
        Ok(mut reader) => outcomes.look(cell, &mut reader).is_some(),
        Err(_) => true,
    }
}
