//! A loader whose holder makes the calls of all its callers, one at a time.

ghost use Rattle.std.specs.Prelude.{◌≡◌, ◌+◌, ◌<◌, ◌≤◌, [], true, false, IfErr, IfNone, IfOk, IfSome, List, MatchBool, OnErr, OnOk, length, slice_get};
ghost use Rattle.dl_desk.specs.BatchBook.{StandsFor, batch_view};
ghost use Rattle.dl_desk.specs.History.{Atom, begun};
ghost use Rattle.dl_history.specs.declared.fault.StartFault.TheVariants.{OutOfMemory};
ghost use Rattle.dl_history.specs.Flags.{known_flags};
ghost use Rattle.dl_history.specs.Journal.{refusals};
ghost use Rattle.dl_history.specs.Pass.{new_traces};
ghost use Rattle.dl_loader.specs.Book.{Keeps};
ghost use Rattle.dl_loader.specs.EventEffect.{Makes};
ghost use Rattle.dl_loader.specs.Inside.Preparation.{ended_count};
ghost use Rattle.dl_loader.specs.Opening.{Names};
ghost use Rattle.dl_loader.specs.Refusals.{IsRefusal};
ghost use Rattle.dl_loader.specs.SerialLoader.{AreNumbered, HasSeen, IsMade, IsRefused, book_if, serial};

mod calls;
mod close;

use crate::book::Book;
use crate::event_call::EventCall;
use crate::loader::deal;
use crate::opening::Opening;
use crate::reply::Settled;
use dl_desk::{BatchView, LoadReply};
use dl_history::{CallFault, CellRows, LoaderName, Pass, StartFault, Ticket};
use dl_source::Source;
use std::alloc::{AllocError, Global};
use std::marker::Model;

/// A loader with the passes of all its callers. Whoever has it makes the calls of each of them, one at a time and by the
/// caller's number, and so it needs no lock. Its close gives what [`Loader`](crate::Loader)'s does.
///
/// Contracts see its book, with the history, and what each caller has called and seen. A call that is rejected leaves all
/// of that as it was. It says why by a [`CallFault`]: its first variant that applies, or `OutOfMemory`. `Behind`,
/// `LogRefused` and `WrongKeys` of a job that it sent never come in a run: treat them as a bug.
pub struct SerialLoader<L: LoaderName> {
    callers: u32,
    rows: CellRows<L>,
    book: Book<L>,
    // By the number of the caller.
    passes: Vec<Pass<L>>,
    stopped: bool,
}

impl<L: LoaderName> Drop for SerialLoader<L> {
    fn drop(self) {
        let SerialLoader {
            callers: _,
            rows,
            book,
            passes,
            stopped: _,
        } = self;
        drop(book);
        drop(rows);
        drop(passes);
    }
}

impl<L: LoaderName> Model for SerialLoader<L> {
    ghost use Rattle.std.specs.Prelude.{map};
    ghost use Rattle.std.specs.Coded.{codes};
    ghost use Rattle.dl_desk.specs.contracts.event.Event as event;
    ghost use Rattle.dl_desk.specs.contracts.event.Ending as ending;
    ghost use Rattle.dl_history.specs.Inside.PassCodes.{trace_code};
    ghost use Rattle.dl_loader.specs.SerialLoader.{IsSerial, Serial, book_if, serial};

    ghost Value = { Serial };

    ghost coded = { Prim.hlevel (codes, event.the_row.coded, ending.the_row.coded, trace_code) };

    ghost view = { λ s. serial (book_if s.stopped s.book) (map (λ p. p.trace) s.passes.items) };

    ghost invariant = { λ s. IsSerial s.callers L.parts L.service (serial s.book (map (λ p. p.trace) s.passes.items)) };
}

impl<L: LoaderName> SerialLoader<L> {
    /// Starts the loader of an opening, with an empty history. `L` must name this opening: see [`Opening`].
    ///
    /// # Errors
    /// `OutOfMemory`.
    pub fn start<S: Source>(
        alloc: Global,
        opening: Opening<'_, S>,
    ) -> Result<SerialLoader<L>, StartFault>
        requires names { Names S.answer opening L.service L.parts L.cells L.name }
        ensures history { IfOk result (λ s. s.book.history ≡ []) }
        ensures flags { IfOk result (λ s. s.book.flags ≡ known_flags false false) }
        ensures traces { IfOk result (λ s. s.traces ≡ new_traces 0 L.service.callers) }
        ensures fault { IfErr result (λ fault. fault ≡ OutOfMemory) }
    {
        let Opening {
            hashing,
            limits,
            tables,
            callers,
            log,
            outcomes,
            flags,
            blank,
            ..
        } = opening;
        let (calls, all) = blank.open::<L>();
        let passes = deal(alloc, callers, all)?;
        let book = Book::new(alloc, hashing, limits, tables, calls);
        let loader = SerialLoader {
            callers,
            rows: CellRows::new(limits, log, outcomes, flags),
            book,
            passes,
            stopped: false,
        };
        Ok(loader)
    }

    /// The number of callers. A caller is a number below it.
    pub fn callers(&self) -> u32
        ensures callers { result ≡ length self.now.traces }
        ensures own { result ≡ L.service.callers }
        ensures numbered { AreNumbered self.now.traces }
    {
        self.callers
    }

    /// The number of tickets that a caller has. Its next load gets the ticket of this number.
    pub fn tickets(&self, caller: u32) -> usize
        requires { caller < length self.now.traces }
        ensures { IfSome (slice_get self.now.traces caller) (λ p. result ≡ length p.tickets) }
    {
        self.passes[caller as usize].tickets()
    }

    /// What every serial loader keeps: its history is legal, and all else of its book is that of the history. The call
    /// does nothing when it runs; its clause is for your proof.
    pub fn keeps(&self)
        ensures { Keeps L.service self.now.book }
    {
        self.book.keeps();
    }

    /// The batch of this number, or `None` if there isn't one yet.
    pub fn batch(&self, batch: u32) -> Option<BatchView<'_>>
        ensures none { IfNone result ((history : List Atom) → StandsFor self.now.book.desk history → begun history ≤ batch) }
        ensures some { IfSome result (λ view. (history : List Atom) → StandsFor self.now.book.desk history
            → (batch < begun history) × (view ≡ batch_view history batch)) }
    {
        self.book.batch(batch)
    }

    /// Stops the loader: from then on it rejects every call.
    pub fn stop(&mut self)
        ensures { self.new ≡ serial (book_if true self.old.book) self.old.traces }
    {
        self.stopped = true;
    }

    /// Adds the outcome of a caller's ticket to what the caller has seen, unless it is there already. Answers whether there
    /// is one: if the ticket's cell has no outcome yet, nothing changes.
    ///
    /// # Errors
    /// `AllocError` if memory runs out. Nothing changes then.
    pub fn saw(&mut self, caller: u32, number: usize) -> Result<bool, AllocError>
        requires caller { caller < length self.old.traces }
        requires number { IfSome (slice_get self.old.traces caller) (λ p. number < length p.tickets) }
        ensures seen { IfOk result (λ seen. MatchBool seen (HasSeen caller number self.old self.new) (self.new ≡ self.old)) }
        ensures unchanged { OnErr result (self.new ≡ self.old) }
    {
        let cell = self.passes[caller as usize].ticket_cell(number);
        if cell >= self.rows.limits().max_cells() {
            return Ok(false);
        }
        let row = self.rows.outcomes();
        let mut ticket = Ticket::<L>::new(row, number, LoadReply::Hit(cell), row.reader(cell)?);
        if ticket.look().is_none() {
            return Ok(false);
        }
        self.passes[caller as usize].saw(&mut ticket);
        Ok(true)
    }

    /// Makes a call of a caller, which gets a ticket for each load that the call answers.
    #[inline(always)]
    fn call<C: EventCall>(
        &mut self,
        alloc: Global,
        caller: u32,
        call: &C,
    ) -> Result<(C::Reply, Settled), CallFault>
        requires caller { caller < length self.old.traces }
        requires answers { C.brings call.now L.service.answer }
        ensures made { IfOk result (λ r. IsMade caller (C.call call.now) (C.told r.0) self.old self.new) }
        ensures refused { IfOk result (λ r. refusals self.new.book.cells ≡ refusals self.old.book.cells + r.1.refused) }
        ensures each { IfOk result (λ r. r.1.shown + r.1.refused ≡ ended_count (C.job call.now) (C.told r.0)) }
        ensures fault { IfErr result (IsRefused L.service caller (C.call call.now) (C.job call.now) self.old) }
        ensures unchanged { OnErr result (self.new ≡ self.old) }
    {
        let pass = &mut self.passes[caller as usize];
        let (reply, ended) = make(alloc, self.stopped, &self.rows, &mut self.book, pass, call)?;
        Ok((reply, ended))
    }
}

/// Makes a call as an event of a pass, unless the loader is stopped.
#[inline(always)]
fn make<L: LoaderName, C: EventCall>(
    alloc: Global,
    stopped: bool,
    rows: &CellRows<L>,
    book: &mut Book<L>,
    pass: &mut Pass<L>,
    call: &C,
) -> Result<(C::Reply, Settled), CallFault>
    requires unstopped { book.old.flags.stopped ≡ false }
    requires answers { C.brings call.now L.service.answer }
    ensures made { IfOk result (λ r. Makes book.old pass.old.trace (C.call call.now) (C.told r.0) book.new pass.new.trace) }
    ensures refused { IfOk result (λ r. refusals book.new.cells ≡ refusals book.old.cells + r.1.refused) }
    ensures each { IfOk result (λ r. r.1.shown + r.1.refused ≡ ended_count (C.job call.now) (C.told r.0)) }
    ensures running { OnOk result (stopped ≡ false) }
    ensures fault { IfErr result (IsRefusal L.service (book_if stopped book.old) pass.old.trace (C.call call.now) (C.job call.now)) }
    ensures unchanged { OnErr result ((book.new ≡ book.old) × (pass.new.trace ≡ pass.old.trace)) }
{
    if stopped {
        return Err(CallFault::Stopped);
    }
    book.record(alloc, rows, pass, call)
}
