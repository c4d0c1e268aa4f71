//! Callers that take part: nobody sends while one of them runs.

ghost use Rattle.std.specs.Prelude.{◌≡◌, IfSome, Some};

use crate::loader::Loader;
use crate::turns::is_to_sleep;
use dl_gather::Gathering;
use dl_history::{LoaderName, Pass, Ticket};
use std::sync::{MutexGuard, Wait};

impl<L: LoaderName> Loader<L> {
    /// The caller takes part from now on: while it runs, nobody's keys are sent by [`gather`](Loader::gather). It
    /// doesn't run while it waits for a ticket, or for the others in `gather`. If others send at this moment, the call
    /// waits until they have. If the loader is stopped, nobody takes part.
    ///
    /// A caller holds the others up for as long as it runs. So it goes on to load and wait, or it
    /// [leaves](Loader::leave).
    pub fn enter(&self, rt: &impl Wait, pass: &Pass<L>) {
        let mut rule = self.turns.lock(rt);
        if self.is_stopped(rt) {
            return;
        }
        let lets_go = rule.enter(pass.caller());
        self.turns.note(&rule, &self.waiters, lets_go);
        drop(self.sleep(rt, pass, rule));
    }

    /// The caller takes part no more, and holds nobody up. If it takes no part, nothing changes.
    pub fn leave(&self, rt: &impl Wait, pass: &Pass<L>) {
        let mut rule = self.turns.lock(rt);
        let lets_go = rule.leave(pass.caller());
        self.turns.note(&rule, &self.waiters, lets_go);
    }

    /// The caller has arrived. Waits until it may dispatch, and gives you the locked rule.
    pub(crate) fn arrive(&self, rt: &impl Wait, pass: &Pass<L>) -> MutexGuard<'_, Gathering> {
        let mut rule = self.turns.lock(rt);
        let lets_go = rule.arrive(pass.caller());
        self.turns.note(&rule, &self.waiters, lets_go);
        self.sleep(rt, pass, rule)
    }

    /// Notes on the locked rule how many batches a caller has sent. The rule was locked before they went out, so no end
    /// of theirs was noted before.
    pub(crate) fn note_sent(
        &self,
        mut rule: MutexGuard<'_, Gathering>,
        caller: u32,
        batches: usize,
    ) {
        let batches = u32::try_from(batches).unwrap_or(u32::MAX);
        let lets_go = rule.sent(caller, batches);
        self.turns.note(&rule, &self.waiters, lets_go);
    }

    /// Wakes those that wait for a cell which shows its outcome, and those whose turn it is: a batch has ended. The rule
    /// was locked before its cells showed. Else a caller might see its cell, go on and send, while others that waited
    /// for the same batch count as asleep.
    pub(crate) fn note_end(&self, mut rule: MutexGuard<'_, Gathering>) {
        self.wake();
        let ends_let_go = self.note_shown(&mut rule);
        let lets_go = rule.batch_ended() || ends_let_go;
        self.turns.note(&rule, &self.waiters, lets_go);
    }

    /// Nobody takes part any more, and nobody sleeps: the loader is stopped.
    pub(crate) fn end_turns(&self, rt: &impl Wait) {
        let mut rule = self.turns.lock(rt);
        rule.stop();
        self.turns.note(&rule, &self.waiters, true);
    }

    /// A caller that takes part waits until its ticket shows its outcome and nobody sends. If nobody has sent the
    /// ticket's key, or the loader is stopped, it goes on too, takes part no more, and the answer is true. A caller that
    /// takes no part waits for nothing.
    pub(crate) fn take_turn(
        &self,
        rt: &impl Wait,
        pass: &Pass<L>,
        ticket: &mut Ticket<'_, L>,
    ) -> bool
        ensures number { ticket.new.number ≡ ticket.old.number }
        ensures reply { ticket.new.reply ≡ ticket.old.reply }
        ensures kept { IfSome ticket.old.known (λ ending. ticket.new.known ≡ Some ending) }
    {
        let caller = pass.caller();
        let waiter = &self.waiters[caller as usize];
        let mut rule = self.turns.lock(rt);
        if !rule.is_inside(caller) {
            return false;
        }
        for _ in rt.forever() {
            let is_shown = ticket.look().is_some();
            if self.has_turn(&mut rule, caller, is_shown) {
                return !rule.is_inside(caller);
            }
            rule = waiter.turn.sleep_for(rt, ticket.cell(), rule);
        }
        unreachable!()
    }

    /// Whether it is the turn of a caller that waits for a cell. If it is, but the cell shows nothing, the caller first
    /// waits for that.
    fn has_turn(&self, rule: &mut Gathering, caller: u32, is_shown: bool) -> bool {
        if !is_shown && !is_to_sleep(rule, caller) {
            let lets_go = rule.wait_for(caller);
            self.turns.note(rule, &self.waiters, lets_go);
        }
        !is_to_sleep(rule, caller)
    }

    /// Sleeps until the caller may go on.
    fn sleep<'l>(
        &'l self,
        rt: &impl Wait,
        pass: &Pass<L>,
        mut rule: MutexGuard<'l, Gathering>,
    ) -> MutexGuard<'l, Gathering> {
        let caller = pass.caller();
        let waiter = &self.waiters[caller as usize];
        for _ in rt.forever() {
            if !is_to_sleep(&rule, caller) {
                return rule;
            }
            rule = waiter.turn.sleep(rt, rule);
        }
        unreachable!()
    }

    /// Notes on the locked rule which callers sleep for a cell that shows its outcome. Answers whether others go on.
    fn note_shown(&self, rule: &mut Gathering) -> bool {
        let cells = self.rows.limits().max_cells();
        let mut lets_go = false;
        for (caller, waiter) in (0..u32::MAX).zip(&self.waiters) {
            if waiter.turn.awaits_shown(self.rows.outcomes(), cells) && rule.ended(caller) {
                lets_go = true;
            }
        }
        lets_go
    }

    /// Whether the loader is stopped.
    fn is_stopped(&self, rt: &impl Wait) -> bool {
        let book = self.book.lock(rt);
        book.flags().is_stopped()
    }
}
