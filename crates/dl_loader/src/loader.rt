//! The shared loader.

ghost use Rattle.std.specs.Prelude.{◌≡◌, Bool, true, IfErr, IfOk, IfSome, IsSome, None, OnErr, OnOk, Some, map};
ghost use Rattle.dl_history.specs.declared.fault.StartFault.TheVariants.{OutOfMemory};
ghost use Rattle.dl_history.specs.Entries.{cell_of_load, ending_known};
ghost use Rattle.dl_loader.specs.Opening.{Names};
ghost use Rattle.dl_history.specs.Pass.{GaveTicket, new_traces, with_saw};

pub(crate) mod close;
mod part;
mod unshown;

use crate::book::Book;
use crate::opening::Opening;
use crate::turns::Turns;
use crate::waiter::Waiter;
use dl_history::{CellRows, LoaderName, Pass, StartFault, Stopped, Ticket};
use dl_source::Source;
use std::alloc::{AllocError, Global};
use std::marker::Model;
use std::sync::ledger::Share;
use std::sync::{Mutex, MutexGuard, Wait};

/// A loader that threads share by reference. Each of its callers makes its calls with a [`Pass`] of its own.
///
/// A rejected call leaves the calls, reads and tickets of its pass as they were. It says why by a
/// [`CallFault`](crate::CallFault): its first variant that applies, or `OutOfMemory`. `Behind` and `LogRefused` never
/// come in a run: treat them as a bug.
///
/// # Examples
/// Loads a user, sends the batch, ends its job, and prints the outcome, from `crates/example_loaders/src/one_caller.rt`:
///
/// ```rust
/// let key = FetchKey::new(alloc, "user", "u1")?;
/// let mut ticket = loader.load(rt, alloc, pass, &key)?;
/// let jobs = loader.dispatch(rt, alloc, pass)?;
/// end_jobs(rt, alloc, loader, source, pass, jobs)?;
/// loader.wait(rt, pass, &mut ticket)?;
/// match ticket.look() {
///     Some(Outcome::Value(name)) => println!(rt; "{}", name.to_text(alloc)?)?,
///     _ => bail!("no user"),
/// }
/// ```
pub struct Loader<L: LoaderName> {
    callers: u32,
    pub(crate) rows: CellRows<L>,
    pub(crate) book: Mutex<Book<L>>,
    // By the number of the caller.
    pub(crate) waiters: Vec<Waiter>,
    pub(crate) turns: Turns,
}

impl<L: LoaderName> Drop for Loader<L> {
    fn drop(self) {
        let Loader {
            callers: _,
            rows,
            book,
            waiters,
            turns,
        } = self;
        drop(rows);
        drop(book);
        drop(waiters);
        drop(turns);
    }
}

impl<L: LoaderName> Model for Loader<L> {
    ghost use Rattle.dl_values.specs.Limits.{Limits};
    ghost use Rattle.std.specs.Prelude.{vec_len};
    ghost use Rattle.dl_loader.specs.Opening.{IsLoader};

    ghost Value = { Limits };

    ghost view = { λ l. l.rows };

    ghost invariant = { λ l. IsLoader l.callers (vec_len l.waiters) L.parts L.service };
}

impl<L: LoaderName> Loader<L> {
    /// Starts the loader of an opening. You get the loader, with an empty history, and an empty pass for each caller,
    /// in order. `L` must name this opening: see [`Opening`].
    ///
    /// # Errors
    /// `OutOfMemory`.
    pub fn start<S: Source>(
        alloc: Global,
        opening: Opening<'_, S>,
    ) -> Result<(Loader<L>, Vec<Pass<L>>), StartFault>
        requires names { Names S.answer opening L.service L.parts L.cells L.name }
        ensures passes { IfOk result (λ r. map (λ p. p.trace) r.1.items ≡ new_traces 0 L.service.callers) }
        ensures fault { IfErr result (λ fault. fault ≡ OutOfMemory) }
    {
        let Opening {
            hashing,
            limits,
            tables,
            callers,
            policy,
            log,
            outcomes,
            flags,
            blank,
            ..
        } = opening;
        let (calls, all) = blank.open::<L>();
        let passes = deal(alloc, callers, all)?;
        let mut waiters = Vec::new(alloc);
        waiters.resize_with(callers as usize, Waiter::new)?;
        let turns = Turns::new(alloc, policy, callers)?;
        let book = Book::new(alloc, hashing, limits, tables, calls);
        let loader = Loader {
            callers,
            rows: CellRows::new(limits, log, outcomes, flags),
            book: Mutex::new(book),
            waiters,
            turns,
        };
        Ok((loader, passes))
    }

    /// Lends you the book, which lies behind the loader's lock. While you have it, nobody else's calls go on, and a
    /// call of your own waits for ever.
    ///
    /// The book is there for the law of one event: [`laws::event`](crate::laws::event) makes an event on it, and wakes
    /// those that wait if the event ended a batch. Apart from that, you learn from it what every book keeps
    /// ([`Book::keeps`]). You can't stop it, show one of its cells, or put another book in its place.
    pub fn lock(&self, rt: &impl Wait) -> MutexGuard<'_, Book<L>> {
        self.book.lock(rt)
    }

    /// Stops the loader: from then on it rejects every call, and every wait for a cell that has not ended.
    pub fn stop(&self, rt: &impl Wait) {
        self.book.lock(rt).stop(rt, &self.rows);
        for waiter in &self.waiters {
            waiter.wake();
        }
        self.end_turns(rt);
    }

    /// Wakes those that wait for a cell which shows its outcome: a batch has ended. If someone has the book, they go on
    /// once it is back. It asks no rule, so those that take part and sleep until their turn sleep on: see `note_end`.
    pub(crate) fn wake(&self) {
        let cells = self.rows.limits().max_cells();
        for waiter in &self.waiters {
            waiter.wake_if_shown(self.rows.outcomes(), cells);
        }
    }

    /// Waits until the ticket shows its outcome, and adds that to the entries of the pass, unless it is there already.
    /// The ticket must be one that this pass got. If it shows its outcome at once, and nobody sends, the call takes no
    /// lock. A caller that takes part waits also until nobody sends. If nobody ends its batch and nobody stops the
    /// loader, the call waits for ever.
    ///
    /// # Errors
    /// `Stopped` if the loader is stopped and the ticket shows nothing yet. The pass then knows that the loader is
    /// stopped; its calls, reads and tickets are as they were.
    pub fn wait(
        &self,
        rt: &impl Wait,
        pass: &mut Pass<L>,
        ticket: &mut Ticket<'_, L>,
    ) -> Result<(), Stopped>
        requires gave { (seen : Bool) × GaveTicket pass.old.trace ticket.old seen }
        ensures number { ticket.new.number ≡ ticket.old.number }
        ensures reply { ticket.new.reply ≡ ticket.old.reply }
        ensures kept { IfSome ticket.old.known (λ ending. ticket.new.known ≡ Some ending) }
        ensures shown { OnOk result (IsSome ticket.new.known) }
        ensures saw { OnOk result
            ((seen : Bool) × GaveTicket pass.old.trace ticket.old seen
            × (pass.new.trace ≡ with_saw pass.old.trace ticket.old.number (cell_of_load ticket.old.reply) (ending_known ticket.new.known) seen)) }
        ensures unchanged { OnErr result (pass.new.trace ≡ pass.old.trace) }
        ensures none { OnErr result (ticket.new.known ≡ None) }
        ensures stopped { OnErr result (pass.new.flags.stopped ≡ true) }
    {
        if ticket.look().is_none() || self.turns.has_senders() {
            self.wait_in_turn(rt, pass, ticket)?;
        }
        pass.saw(ticket);
        Ok(())
    }

    /// Waits until the ticket shows its outcome and, if the caller takes part, it is its turn.
    fn wait_in_turn(
        &self,
        rt: &impl Wait,
        pass: &mut Pass<L>,
        ticket: &mut Ticket<'_, L>,
    ) -> Result<(), Stopped>
        ensures number { ticket.new.number ≡ ticket.old.number }
        ensures reply { ticket.new.reply ≡ ticket.old.reply }
        ensures kept { IfSome ticket.old.known (λ ending. ticket.new.known ≡ Some ending) }
        ensures shown { OnOk result (IsSome ticket.new.known) }
        ensures none { OnErr result (ticket.new.known ≡ None) }
        ensures trace { pass.new.trace ≡ pass.old.trace }
        ensures stopped { OnErr result (pass.new.flags.stopped ≡ true) }
    {
        let was_let_out = self.take_turn(rt, pass, ticket);
        if ticket.look().is_none() {
            self.wait_for(rt, pass, ticket)?;
        }
        if was_let_out {
            self.enter(rt, pass);
        }
        Ok(())
    }

    /// Waits under the lock until the ticket shows its outcome.
    fn wait_for(
        &self,
        rt: &impl Wait,
        pass: &mut Pass<L>,
        ticket: &mut Ticket<'_, L>,
    ) -> Result<(), Stopped>
        requires { ticket.old.known ≡ None }
        ensures number { ticket.new.number ≡ ticket.old.number }
        ensures reply { ticket.new.reply ≡ ticket.old.reply }
        ensures shown { OnOk result (IsSome ticket.new.known) }
        ensures none { OnErr result (ticket.new.known ≡ None) }
        ensures trace { pass.new.trace ≡ pass.old.trace }
        ensures stopped { OnErr result (pass.new.flags.stopped ≡ true) }
    {
        let waiter = &self.waiters[pass.caller() as usize];
        let mut book = self.book.lock(rt);
        for _ in rt.forever() {
            if ticket.look().is_some() {
                return Ok(());
            }
            if book.flags().is_stopped() {
                pass.learn_stop(book.flags());
                return Err(Stopped);
            }
            book = waiter.wait(rt, ticket.cell(), book);
        }
        unreachable!()
    }
}

/// A pass for each caller, each with one part of the ledger.
pub(crate) fn deal<L: LoaderName>(
    alloc: Global,
    callers: u32,
    mut all: Share<L>,
) -> Result<Vec<Pass<L>>, AllocError>
    requires callers { callers ≡ L.service.callers }
    requires parts { all.parts ≡ callers }
    requires amount { all.amount ≡ 0 }
    ensures { IfOk result (λ passes. map (λ p. p.trace) passes.items ≡ new_traces 0 L.service.callers) }
{
    let mut passes = Vec::with_capacity(alloc, callers as usize)?;
    for caller in 0..callers {
        passes.push_reserved(Pass::fresh(alloc, caller, all.split_off(1, 0)));
    }
    Ok(passes)
}
