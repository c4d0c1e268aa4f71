//! The loads of keys.

ghost use Rattle.std.specs.Prelude.{◌≡◌, false, IfErr, IfOk, None, OnErr, length, map};
ghost use Rattle.dl_desk.specs.declared.event.Call.TheVariants as call;
ghost use Rattle.dl_desk.specs.declared.event.Reply.TheVariants as reply;
ghost use Rattle.dl_loader.specs.EventEffect.{KnowsStop, WasMade, WasRefused};
ghost use Rattle.dl_history.specs.Pass.{GaveTicket, GaveTickets};

use crate::book::Book;
use crate::event_call::{Load, LoadMany};
use crate::loader::Loader;
use dl_desk::FetchKey;
use dl_history::{CallFault, CellRows, LoaderName, Pass, Ticket};
use std::alloc::Global;
use std::sync::Wait;

impl<L: LoaderName> Loader<L> {
    /// Loads a key. You get a ticket, which shows the outcome once there is one (DataLoader: `load`). If the loader
    /// holds the key, the ticket is for the cell that it has. Else the key gets a new cell and joins a batch, which
    /// [`dispatch`](Loader::dispatch) sends.
    ///
    /// # Errors
    /// `Stopped`, `Behind`, `LogFull`, `CellsFull`, `OutOfMemory`, `LogRefused`.
    pub fn load<'a>(
        &'a self,
        rt: &impl Wait,
        alloc: Global,
        pass: &mut Pass<L>,
        key: &FetchKey,
    ) -> Result<Ticket<'a, L>, CallFault>
        ensures made { IfOk result (λ ticket. WasMade L.service pass.old.trace (call.Load key.now) (reply.Loaded ticket.reply) pass.new.trace) }
        ensures number { IfOk result (λ ticket. ticket.number ≡ length pass.old.trace.tickets) }
        ensures gave { IfOk result (λ ticket. GaveTicket pass.new.trace ticket false) }
        ensures fault { IfErr result (WasRefused L.service pass.old.trace (call.Load key.now) None) }
        ensures knows { IfErr result (KnowsStop pass.new.flags) }
        ensures unchanged { OnErr result (pass.new.trace ≡ pass.old.trace) }
    {
        let mut book = self.book.lock(rt);
        let number = pass.tickets();
        let (reply, _) = book.make(alloc, &self.rows, pass, &Load { key })?;
        Ok(book.ticket(&self.rows, number, reply))
    }

    /// Loads keys in order, as one call, and gives you a ticket for each (DataLoader: `loadMany`).
    ///
    /// # Errors
    /// `Stopped`, `Behind`, `LogFull`, `CellsFull`, `OutOfMemory`, `LogRefused`.
    pub fn load_many<'a>(
        &'a self,
        rt: &impl Wait,
        alloc: Global,
        pass: &mut Pass<L>,
        keys: &[FetchKey],
    ) -> Result<Vec<Ticket<'a, L>>, CallFault>
        ensures made { IfOk result (λ tickets.
            WasMade L.service pass.old.trace (call.LoadMany keys.now) (reply.Many (map (λ t. t.reply) tickets.items)) pass.new.trace) }
        ensures each { IfOk result (λ tickets. length tickets.items ≡ length keys.now) }
        ensures gave { IfOk result (λ tickets. GaveTickets pass.new.trace (length pass.old.trace.tickets) tickets.items) }
        ensures fault { IfErr result (WasRefused L.service pass.old.trace (call.LoadMany keys.now) None) }
        ensures knows { IfErr result (KnowsStop pass.new.flags) }
        ensures unchanged { OnErr result (pass.new.trace ≡ pass.old.trace) }
    {
        self.book.lock(rt).load_many(alloc, &self.rows, pass, keys)
    }
}

impl<L: LoaderName> Book<L> {
    /// Makes the loads of keys as one event, with a ticket for each. It fails as
    /// [`Loader::load_many`](crate::Loader::load_many) does.
    #[inline(always)]
    fn load_many<'a>(
        &mut self,
        alloc: Global,
        rows: &'a CellRows<L>,
        pass: &mut Pass<L>,
        keys: &[FetchKey],
    ) -> Result<Vec<Ticket<'a, L>>, CallFault>
        ensures made { IfOk result (λ tickets.
            WasMade L.service pass.old.trace (call.LoadMany keys.now) (reply.Many (map (λ t. t.reply) tickets.items)) pass.new.trace) }
        ensures each { IfOk result (λ tickets. length tickets.items ≡ length keys.now) }
        ensures gave { IfOk result (λ tickets. GaveTickets pass.new.trace (length pass.old.trace.tickets) tickets.items) }
        ensures fault { IfErr result (WasRefused L.service pass.old.trace (call.LoadMany keys.now) None) }
        ensures knows { IfErr result (KnowsStop pass.new.flags) }
        ensures unchanged { OnErr result (pass.new.trace ≡ pass.old.trace) }
    {
        self.keeps();
        let mut tickets = Vec::with_capacity(alloc, keys.len())?;
        let (replies, _) = self.make(alloc, rows, pass, &LoadMany { keys })?;
        self.make_tickets(rows, pass, replies.as_slice(), &mut tickets);
        Ok(tickets)
    }
}
