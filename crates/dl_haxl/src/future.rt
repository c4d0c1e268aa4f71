//! The outcome of a load as a future.

ghost use Rattle.std.specs.Prelude.{◌≡◌, IfErr, IfOk, IfSome, None, Some, ⊤, Err};
ghost use Rattle.futures.specs.Poll.{IfReady, OnPending};
ghost use Rattle.futures.specs.Task.{Covers, Keeps};
ghost use Rattle.futures.specs.declared.task.Poll.TheVariants as poll;
ghost use Rattle.dl_haxl.specs.Future.{MayGive, end_after};
ghost use Rattle.dl_loader.specs.Pass.{Shows};

use crate::fault::PollFault;
use dl_desk::Outcome;
use dl_loader::{LoaderName, Ticket};
use futures::future::Future;
use futures::task::{Context, Poll};
use std::alloc::AllocError;

/// The outcome of a load, as a future. A poll looks at the load's ticket, and never waits.
#[derive(Drop)]
pub struct LoadFuture<'a, L: LoaderName> {
    ticket: Ticket<'a, L>,
    // What each poll answers from now on, once one gave the outcome or memory ran out.
    ended: Option<PollFault>,
}

impl<'a, L: LoaderName> LoadFuture<'a, L> {
    /// The future of the outcome that this ticket will show.
    pub fn new(ticket: Ticket<'a, L>) -> LoadFuture<'a, L>
        ensures ticket { result.ticket ≡ ticket.entry }
        ensures ended { result.ended ≡ None }
    {
        LoadFuture {
            ticket,
            ended: None,
        }
    }
}

impl<L: LoaderName> Future for LoadFuture<'_, L> {
    type Output = Result<Outcome, PollFault>;

    ghost gives = { λ f r. MayGive f.ended f.ticket.known r };

    /// The outcome that the ticket shows, once. The poll is pending while the ticket shows none.
    ///
    /// # Errors
    /// `Finished` after a poll gave the outcome. `OutOfMemory` if the poll can't copy the outcome, and from then on.
    fn poll(&mut self, cx: &mut Context<'_>) -> Poll<Result<Outcome, PollFault>>
        ensures value { IfReady result (MayGive self.old.ended self.old.ticket.known) }
        ensures again { OnPending result ⊤ }
        ensures same { OnPending result ((r : _) → MayGive self.new.ended self.new.ticket.known r → MayGive self.old.ended self.old.ticket.known r) }
        ensures registered { OnPending result (Covers cx.new (λ _. ⊥)) }
        ensures kept { Keeps cx.old cx.new }
        ensures shown { IfReady result (λ r. IfOk r (Shows self.new.ticket)) }
        ensures waits { OnPending result ((self.new.ended ≡ None) × (self.new.ticket.known ≡ None)) }
        ensures ended { IfSome self.old.ended (λ fault. result ≡ poll.Ready (Err fault)) }
        ensures after { IfReady result (λ r. self.new.ended ≡ Some (end_after r)) }
        ensures ticket { (self.new.ticket.number ≡ self.old.ticket.number) × (self.new.ticket.reply ≡ self.old.ticket.reply) }
    {
        if let Some(fault) = self.ended {
            return Poll::Ready(Err(fault));
        }
        match self.ticket.look() {
            None => cx.yield_now(),
            Some(outcome) => match outcome.try_copy() {
                Ok(outcome) => {
                    self.ended = Some(PollFault::Finished);
                    Poll::Ready(Ok(outcome))
                }
                Err(AllocError) => {
                    self.ended = Some(PollFault::OutOfMemory);
                    Poll::Ready(Err(PollFault::OutOfMemory))
                }
            },
        }
    }
}
