//! The book of a loader, which lies behind its lock.

ghost use Rattle.std.specs.Prelude.{◌≡◌, ◌<◌, ◌≤◌, [], false, true, IfErr, IfNone, IfSome, List, None, OnOk, Some, length};
ghost use Rattle.dl_desk.specs.BatchBook.{StandsFor, batch_view};
ghost use Rattle.dl_desk.specs.History.{Atom, begun};
ghost use Rattle.dl_values.specs.Limits.{rules_by};
ghost use Rattle.dl_loader.specs.Book.{Keeps, book};
ghost use Rattle.dl_history.specs.Entries.{cell_of_load, front_of};
ghost use Rattle.dl_history.specs.Flags.{known_flags};
ghost use Rattle.dl_loader.specs.Refusals.{unready};

mod close;
mod record;

use dl_desk::{BatchView, Desk, Limits, LoadReply, TableLimits};
use dl_history::{CallFault, CellRows, Journal, KnownFlags, LoaderName, Pass, Ticket, load_cell};
use std::alloc::Global;
use std::hash::RandomState;
use std::marker::Model;
use std::sync::{Wait, ledger};

/// What lies behind the lock of a loader: its desk, its history and cells, and what it knows of its flags.
///
/// Whenever the lock is free, the memo and the batches of the desk are those of the history, the history is legal, and
/// each cell that has an end shows it, or refused it, and then the book keeps it.
#[derive(Drop)]
pub struct Book<L: LoaderName> {
    desk: Desk,
    journal: Journal<L>,
    flags: KnownFlags<L>,
}

impl<L: LoaderName> Model for Book<L> {
    ghost use Rattle.std.specs.Coded.{codes};
    ghost use Rattle.dl_desk.specs.contracts.event.Event as event;
    ghost use Rattle.dl_desk.specs.contracts.event.Ending as ending;
    ghost use Rattle.dl_loader.specs.Book.{Book, book, Keeps};

    ghost Value = { Book };

    ghost coded = { Prim.hlevel (codes, event.the_row.coded, ending.the_row.coded) };

    ghost view = { λ b. book b.journal.history b.desk.book b.journal.cells b.flags };

    ghost invariant = { λ b. Keeps L.service (book b.journal.history b.desk.book b.journal.cells b.flags) };
}

impl<L: LoaderName> Book<L> {
    /// The book of a loader that has had no call.
    pub(crate) fn new(
        alloc: Global,
        hashing: RandomState,
        limits: Limits,
        tables: Option<TableLimits>,
        calls: ledger::Book<L>,
    ) -> Book<L>
        requires rules { rules_by limits tables ≡ L.service.rules }
        requires none_counted { calls.total ≡ 0 }
        ensures history { result.history ≡ [] }
        ensures flags { result.flags ≡ known_flags false false }
    {
        let desk = match tables {
            Some(tables) => Desk::by_table(alloc, hashing, limits, tables),
            None => Desk::new(alloc, hashing, limits),
        };
        Book {
            desk,
            journal: Journal::new(alloc, calls),
            flags: KnownFlags::none(),
        }
    }

    /// Whether a pass may make an event now, while the loader runs. Fails by the first of these causes that applies: `Behind`,
    /// `LogFull`.
    fn admit(&self, rows: &CellRows<L>, pass: &Pass<L>) -> Result<(), CallFault>
        requires running { self.now.flags.stopped ≡ false }
        ensures ok { OnOk result (unready L.service self.now pass.now.trace ≡ None) }
        ensures fault { IfErr result (λ fault. unready L.service self.now pass.now.trace ≡ Some fault) }
        ensures after { OnOk result (front_of pass.now.trace.entries ≤ length self.now.history) }
        ensures room { OnOk result (length self.now.history < L.service.rules.limits.max_calls) }
    {
        let front = pass.front();
        let len = self.journal.len();
        if len < front as usize {
            return Err(CallFault::Behind {
                front,
                len: len as u32,
            });
        }
        let limit = rows.limits().max_calls();
        if limit as usize <= len {
            return Err(CallFault::LogFull { limit });
        }
        Ok(())
    }

    /// A ticket of this number for a load with this reply.
    pub(crate) fn ticket<'a>(
        &self,
        rows: &'a CellRows<L>,
        number: usize,
        reply: LoadReply,
    ) -> Ticket<'a, L>
        requires { cell_of_load reply < length self.now.cells }
        ensures number { result.number ≡ number }
        ensures reply { result.reply ≡ reply }
    {
        let reader = self.journal.reader(load_cell(reply));
        Ticket::new(rows.outcomes(), number, reply, reader)
    }

    /// The batch of this number, or `None` if there isn't one yet.
    pub(crate) fn batch(&self, batch: u32) -> Option<BatchView<'_>>
        ensures none { IfNone result ((history : List Atom) → StandsFor self.now.desk history → begun history ≤ batch) }
        ensures some { IfSome result (λ view. (history : List Atom) → StandsFor self.now.desk history
            → (batch < begun history) × (view ≡ batch_view history batch)) }
    {
        self.desk.batch(batch)
    }

    /// Stops the loader: no pass makes an event from then on.
    pub(crate) fn stop(&mut self, rt: &impl Wait, rows: &CellRows<L>)
        ensures { self.new ≡ book self.old.history self.old.desk self.old.cells (known_flags true self.old.flags.refused) }
    {
        self.flags.stop(rt, rows);
    }

    /// Notes that a cell refused its outcome, and lets a pass know.
    pub(crate) fn refuse(&mut self, rt: &impl Wait, rows: &CellRows<L>, pass: &mut Pass<L>)
        ensures book { self.new ≡ book self.old.history self.old.desk self.old.cells (known_flags self.old.flags.stopped true) }
        ensures trace { pass.new.trace ≡ pass.old.trace }
        ensures flags { pass.new.flags ≡ known_flags pass.old.flags.stopped true }
    {
        self.flags.refuse(rt, rows);
        pass.learn_refusal(&self.flags);
    }

    /// What the book knows of the loader's flags.
    pub(crate) fn flags(&self) -> &KnownFlags<L>
        ensures { result.now ≡ self.now.flags }
    {
        &self.flags
    }

    /// What every book keeps: its history is legal, and all else is that of the history. The call does nothing when it
    /// runs; its clause is for your proof.
    pub fn keeps(&self)
        ensures { Keeps L.service self.now }
    {
        let _ = &self.desk;
    }
}
