//! Passes: what a caller knows of the history.

ghost use Rattle.std.specs.Prelude.{◌≡◌, ◌+◌, ◌<◌, ◌≤◌, Bool, true, false, IfOk, IfSome, IsSome, OnErr, OnOk, Some, [], length, slice_get};
ghost use Rattle.dl_history.specs.Accounts.{account_of};
ghost use Rattle.dl_history.specs.Agreement.{IsAccount, places_of};
ghost use Rattle.dl_history.specs.ClosedHistory.{outline_of};
ghost use Rattle.dl_history.specs.Entries.{calls_of, cell_of_load, cells_of, ending_known, front_of};
ghost use Rattle.dl_history.specs.Flags.{known_flags};
ghost use Rattle.dl_history.specs.Lists.{Among, Every};
ghost use Rattle.dl_history.specs.Pass.{GaveTicket, given, trace, with_saw, with_ticket, with_tickets};

mod audit;
mod events;

use crate::entry::{Entry, Read};
use crate::flags::KnownFlags;
use crate::journal::Journal;
use crate::name::LoaderName;
use crate::outline::Outline;
use crate::ticket::{Ticket, load_cell};
use dl_desk::LoadReply;
use std::alloc::{AllocError, Global};
use std::marker::Model;
use std::sync::ledger::Share;

/// A ticket that a pass has given.
#[derive(Clone, Copy)]
pub(crate) struct GivenTicket {
    // The cell of its load.
    cell: u32,
    // Whether the cell's outcome is among the entries.
    seen: bool,
}

/// What one caller has done with a loader and seen of it: its calls, the outcomes that it has seen, its tickets, and
/// whether it knows that the loader is stopped. You get one for each caller when you start a loader, and its caller
/// hands it to each call. To close the loader, you give them all back. Contracts see all of this, and the room for
/// more.
///
/// # Examples
/// You start a loader, give each pass to its caller, and close the loader with all of them, as
/// `crates/example_loaders/src/one_caller.rt` does:
///
/// ```rust
/// let (loader, mut passes) = Loader::<L>::start(alloc, opening)?;
/// for pass in &mut passes {
///     load_and_print(rt, alloc, source, &loader, pass)?;
/// }
/// match loader.close(alloc, passes) {
///     Ok(history) => print!(rt; "{history}")?,
///     Err((fault, _, _)) => return Err(fault.into()),
/// }
/// ```
pub struct Pass<L: LoaderName> {
    caller: u32,
    entries: Vec<Entry<L>>,
    // How many of the entries are calls.
    calls: usize,
    // One more than the greatest place among the entries, and 0 without any.
    front: u32,
    tickets: Vec<GivenTicket>,
    // How many of the tickets have no entry of their outcome.
    unseen: usize,
    // For how many more entries and tickets there is room, beside an entry for each ticket that has none of its outcome.
    spare: usize,
    share: Share<L>,
    flags: KnownFlags<L>,
}

impl<L: LoaderName> Drop for Pass<L> {
    fn drop(self) {
        let Pass {
            caller: _,
            entries,
            calls: _,
            front: _,
            tickets,
            unseen: _,
            spare: _,
            share,
            flags,
        } = self;
        drop(entries);
        drop(tickets);
        drop(share);
        drop(flags);
    }
}

impl<L: LoaderName> Model for Pass<L> {
    ghost use Rattle.dl_history.specs.Pass.{Pass, IsPass, pass_view};
    ghost use Rattle.dl_history.specs.Inside.PassCodes.{pass_code};

    ghost Value = { Pass };

    ghost coded = { pass_code };

    ghost use Rattle.dl_history.specs.Inside.PassFields.{fields_of};

    ghost view = { λ p. pass_view (fields_of p) };

    ghost invariant = { λ p. IsPass L.service.callers (fields_of p) };
}

impl<L: LoaderName> Pass<L> {
    /// The pass of a caller that has made no call, with its part of the ledger that counts the loader's events.
    /// `Loader::start` of `dl_loader` makes one for each caller; nobody else has parts of its ledger.
    pub fn fresh(alloc: Global, caller: u32, share: Share<L>) -> Pass<L>
        requires caller { caller < L.service.callers }
        requires part { share.parts ≡ 1 }
        requires amount { share.amount ≡ 0 }
        ensures trace { result.trace ≡ trace caller [] [] }
        ensures flags { result.flags ≡ known_flags false false }
    {
        Pass {
            caller,
            entries: Vec::new(alloc),
            calls: 0,
            front: 0,
            tickets: Vec::new(alloc),
            unseen: 0,
            spare: 0,
            share,
            flags: KnownFlags::none(),
        }
    }

    /// The caller, counted from 0.
    pub fn caller(&self) -> u32
        ensures caller { result ≡ self.now.trace.caller }
        ensures below { self.now.trace.caller < L.service.callers }
    {
        self.caller
    }

    /// The outline of the pass: its caller, and what its entries are. Fails if memory runs out.
    pub fn outline(&self, alloc: Global) -> Result<Outline, AllocError>
        ensures { IfOk result (λ made. made ≡ outline_of (account_of self.now.trace)) }
    {
        let Pass {
            caller,
            entries,
            ..
        } = self;
        Outline::of(alloc, *caller, entries.as_slice())
    }

    /// The calls of this caller, and the outcomes that it has seen, in order. Each call has a place above those of all
    /// entries before it. Each outcome is of a cell that a call before it got in reply.
    pub fn entries(&self) -> &[Entry<L>]
        ensures entries { result.now ≡ self.now.trace.entries }
        ensures account { IsAccount L.service.callers (account_of self.now.trace) }
    {
        self.entries.as_slice()
    }

    /// The number of this caller's calls.
    pub fn calls(&self) -> usize
        ensures { result ≡ length (calls_of self.now.trace.entries) }
    {
        self.calls
    }

    /// The history has at least this many events: one more than the greatest place among the entries, or 0 if there are
    /// none.
    pub fn front(&self) -> u32
        ensures { result ≡ front_of self.now.trace.entries }
    {
        self.front
    }

    /// The number of tickets that the pass has given.
    pub fn tickets(&self) -> usize
        ensures { result ≡ length self.now.trace.tickets }
    {
        self.tickets.len()
    }

    /// The cell of the load that got the ticket of this number.
    pub fn ticket_cell(&self, number: usize) -> u32
        requires { number < length self.now.trace.tickets }
        ensures { IfSome (slice_get self.now.trace.tickets number) (λ ticket. result ≡ ticket.cell) }
    {
        self.tickets[number].cell
    }

    /// Makes room for one call and `tickets` tickets more. The pass keeps all its entries and tickets. Fails if there
    /// is less room and memory runs out.
    pub fn reserve(&mut self, tickets: usize) -> Result<(), AllocError>
        ensures trace { self.new.trace ≡ self.old.trace }
        ensures room { OnOk result (tickets + 1 ≤ self.new.spare) }
        ensures full { OnErr result (self.old.spare < tickets + 1) }
        ensures kept { self.old.spare ≤ self.new.spare }
    {
        if self.spare <= tickets {
            self.grow(tickets)?;
        }
        Ok(())
    }

    /// Makes room for one call and `tickets` tickets more, since there is less. Fails if memory runs out.
    #[cold]
    fn grow(&mut self, tickets: usize) -> Result<(), AllocError>
        requires { self.old.spare ≤ tickets }
        ensures trace { self.new.trace ≡ self.old.trace }
        ensures room { OnOk result (tickets + 1 ≤ self.new.spare) }
        ensures kept { self.old.spare ≤ self.new.spare }
    {
        let unseen = self.unseen;
        let more = tickets.checked_add(1).ok_or(AllocError)?;
        let entries = unseen.checked_add(more).ok_or(AllocError)?;
        self.entries.reserve(entries)?;
        self.tickets.reserve(more)?;
        let entries = self.entries.capacity() - self.entries.len() - unseen;
        let tickets = self.tickets.capacity() - self.tickets.len();
        self.spare = entries.min(tickets);
        Ok(())
    }

    /// Gives the pass a ticket for each of these replies to loads, in order. It doesn't use the journal: it takes it so
    /// that only a loader gives tickets, since nobody else has its journal.
    pub fn add_tickets(&mut self, _journal: &Journal<L>, replies: &[LoadReply])
        requires room { length replies.now ≤ self.old.spare }
        requires answered { Every (λ r. Among (cell_of_load r) (cells_of self.old.trace.entries)) replies.now }
        ensures trace { self.new.trace ≡ with_tickets self.old.trace replies.now }
        ensures room { self.old.spare ≤ self.new.spare + length replies.now }
    {
        for reply in replies {
            self.add_ticket(load_cell(*reply));
        }
    }

    /// Adds a ticket for a cell.
    fn add_ticket(&mut self, cell: u32)
        requires room { 0 < self.old.spare }
        requires answered { Among cell (cells_of self.old.trace.entries) }
        ensures trace { self.new.trace ≡ with_ticket self.old.trace cell }
        ensures room { self.old.spare ≤ self.new.spare + 1 }
    {
        self.unseen += 1;
        self.spare -= 1;
        self.tickets
            .push_reserved(GivenTicket { cell, seen: false });
    }

    /// What the caller knows of the loader's flags.
    pub fn flags(&self) -> &KnownFlags<L>
        ensures { result.now ≡ self.now.flags }
    {
        &self.flags
    }

    /// Learns from another holder that the loader is stopped.
    pub fn learn_stop(&mut self, flags: &KnownFlags<L>)
        requires { flags.now.stopped ≡ true }
        ensures trace { self.new.trace ≡ self.old.trace }
        ensures flags { self.new.flags ≡ known_flags true self.old.flags.refused }
    {
        self.flags.learn_stop(flags);
    }

    /// Learns from another holder that a cell refused its outcome.
    pub fn learn_refusal(&mut self, flags: &KnownFlags<L>)
        requires { flags.now.refused ≡ true }
        ensures trace { self.new.trace ≡ self.old.trace }
        ensures flags { self.new.flags ≡ known_flags self.old.flags.stopped true }
    {
        self.flags.learn_refusal(flags);
    }

    /// Adds the outcome that a ticket of this pass shows, once: if it is among the entries already, nothing changes. It
    /// never waits.
    pub fn saw(&mut self, ticket: &mut Ticket<'_, L>)
        requires gave { (seen : Bool) × GaveTicket self.old.trace ticket.old seen }
        requires shown { IsSome ticket.old.known }
        ensures ticket { ticket.new ≡ ticket.old }
        ensures saw { (seen : Bool) × GaveTicket self.old.trace ticket.old seen × (self.new.trace ≡ with_saw self.old.trace ticket.old.number
            (cell_of_load ticket.old.reply) (ending_known ticket.old.known) seen) }
    {
        if !self.has_seen(ticket.number()) {
            self.add_saw(ticket.number(), ticket.seen());
        }
    }

    /// Whether the outcome of this ticket is among the entries.
    fn has_seen(&self, number: usize) -> bool
        requires { number < length self.now.trace.tickets }
        ensures { IfSome (slice_get self.now.trace.tickets number) (λ ticket. result ≡ ticket.seen) }
    {
        self.tickets[number].seen
    }

    /// Adds the outcome of this ticket.
    fn add_saw(&mut self, number: usize, seen: Read<L>)
        requires { slice_get self.old.trace.tickets number ≡ Some (given seen.cell false) }
        ensures { self.new.trace ≡ with_saw self.old.trace number seen.cell seen.ending false }
    {
        self.front = self.front.max(u32::from(seen.ended_at()) + 1);
        self.unseen -= 1;
        self.tickets[number].seen = true;
        self.entries.push_reserved(Entry::saw(seen));
    }
}
