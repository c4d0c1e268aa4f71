//! The answer of a term as a future.

ghost use Rattle.std.specs.Prelude.{◌≡◌};
ghost use Rattle.dl_terms.specs.Asked.{pairs_of, wanted_of};
ghost use Rattle.dl_terms.specs.Node.{node_view};
ghost use Rattle.dl_haxl.specs.Run.{Supplied, Waiting, run_at};
ghost use Rattle.dl_haxl.specs.declared.stage.Stage.TheVariants.{Learning, Wanting};

use crate::fault::PollFault;
use crate::stage::Stage;
use crate::ticket_outcomes::{all_shown, learn};
use dl_desk::FetchKey;
use dl_loader::{LoaderName, Ticket};
use dl_terms::{Answer, Asked, Node, Room, Term, explore, unexplored};
use futures::future::Future;
use futures::task::{Context, Poll};
use std::alloc::{AllocError, Global};
use std::hash::RandomState;

/// The answer of a term, as a future. You poll it and load its keys in turns: after a pending poll, load the keys of
/// [`wanted`](TermRun::wanted) and hand their tickets to [`supply`](TermRun::supply). A run wants each key once, and
/// its first outcome serves the whole term.
///
/// # Examples
/// A test of `crates/dl_tests` polls a run, loads the two users that it wants, and supplies their tickets:
///
/// ```rust
/// self.poll(task, run, "pending")?;
/// self.stage.assert_ids(run.wanted(), "u1 u2");
/// let tickets = self.loader.load_many(rt, alloc, pass, run.wanted());
/// run.supply(tickets.expect(rt, "no tickets"));
/// ```
///
/// # Stack
/// A poll takes a stack as deep as the term's lists lie inside one another: see [`Term`].
#[derive(Drop)]
pub struct TermRun<'l, L: LoaderName> {
    alloc: Global,
    // What is left of the term.
    root: Node,
    // The keys that the run asked for. The first of them have outcomes; the others are wanted, or have tickets.
    asked: Asked<'l>,
    // The tickets of the last supply.
    tickets: Vec<Ticket<'l, L>>,
    stage: Stage,
    ghost supplied: { stage ≡ Learning → Supplied (run_at stage (node_view root) (pairs_of asked) (wanted_of asked) tickets.items) },
    ghost waiting: { stage ≡ Wanting → Waiting (run_at stage (node_view root) (pairs_of asked) (wanted_of asked) tickets.items) },
}

impl<'l, L: LoaderName> TermRun<'l, L> {
    ghost use Rattle.std.specs.Prelude.{◌≢◌, IfErr, IfNone, IfOk, IfSome, None, OnErr, OnSome, Some, [], length, Err};
    ghost use Rattle.futures.specs.Poll.{IfReady, OnPending};
    ghost use Rattle.futures.specs.declared.task.Poll.TheVariants as poll;
    ghost use Rattle.dl_terms.specs.Tree.{Tree};
    ghost use Rattle.dl_terms.specs.View.{term_view};
    ghost use Rattle.dl_haxl.specs.Future.{end_after};
    ghost use Rattle.dl_haxl.specs.Pairs.{AllLater};
    ghost use Rattle.dl_haxl.specs.Run.{Finishes, IsRunOf, Pends, asked_by, ended_by, wanted_by};
    ghost use Rattle.dl_haxl.specs.RunView.{seen};
    ghost use Rattle.dl_haxl.specs.declared.fault.PollFault.TheVariants.{Finished, OutOfMemory};
    ghost use Rattle.dl_haxl.specs.declared.stage.Stage.TheVariants.{Ended};

    /// A run of a term that you haven't polled yet. `hashing` hashes keys, and nothing that you see depends on it.
    ///
    /// # Errors
    /// `AllocError` if memory runs out.
    pub fn new(
        alloc: Global,
        hashing: RandomState,
        term: Term,
    ) -> Result<TermRun<'l, L>, AllocError>
        ensures run { IfOk result (λ run. IsRunOf (term_view term) (seen run)) }
        ensures learned { IfOk result (λ run. (seen run).learned ≡ []) }
        ensures tickets { IfOk result (λ run. (seen run).tickets ≡ []) }
        ensures wanted { IfOk result (λ run. wanted_by (seen run) ≡ []) }
        ensures asked { IfOk result (λ run. asked_by (seen run) ≡ []) }
        ensures open { IfOk result (λ run. ended_by (seen run) ≡ None) }
    {
        TermRun::in_room(alloc, hashing, term, None)
    }

    /// The same in a room, if there is one. If it is used up, a poll answers as if memory ran out.
    pub(crate) fn in_room(
        alloc: Global,
        hashing: RandomState,
        term: Term,
        room: Option<&'l Room>,
    ) -> Result<TermRun<'l, L>, AllocError>
        ensures run { IfOk result (λ run. IsRunOf (term_view term) (seen run)) }
        ensures learned { IfOk result (λ run. (seen run).learned ≡ []) }
        ensures tickets { IfOk result (λ run. (seen run).tickets ≡ []) }
        ensures wanted { IfOk result (λ run. wanted_by (seen run) ≡ []) }
        ensures asked { IfOk result (λ run. asked_by (seen run) ≡ []) }
        ensures open { IfOk result (λ run. ended_by (seen run) ≡ None) }
    {
        Ok(TermRun {
            alloc,
            root: unexplored(alloc, term)?,
            asked: Asked::in_room(alloc, hashing, room),
            tickets: Vec::new(alloc),
            stage: Stage::Learning,
        })
    }

    /// The keys to load: all that the term waits for, left to right, each once. There are none before the first poll,
    /// none from a supply of tickets to the poll that finds an outcome in each, and none after an answer or
    /// `OutOfMemory`.
    pub fn wanted(&self) -> &[FetchKey]
        ensures { result.now ≡ wanted_by (seen self.now) }
    {
        match self.stage {
            Stage::Wanting => self.asked.wanted(),
            Stage::Learning | Stage::Ended(_) => &[],
        }
    }

    /// Hands in a ticket for each wanted key, in order. Get them all by one call of
    /// [`load_many`](dl_loader::Loader::load_many). If the run wants nothing, this changes nothing.
    pub fn supply(&mut self, tickets: Vec<Ticket<'l, L>>)
        requires each { length tickets.items ≡ length (wanted_by (seen self.old)) }
        ensures run { (t : Tree) → IsRunOf t (seen self.old) → IsRunOf t (seen self.new) }
        ensures learned { (seen self.new).learned ≡ (seen self.old).learned }
        ensures wanted { wanted_by (seen self.new) ≡ [] }
        ensures asked { wanted_by (seen self.old) ≢ [] → asked_by (seen self.new) ≡ wanted_by (seen self.old) }
        ensures tickets { wanted_by (seen self.old) ≢ [] → (seen self.new).tickets ≡ tickets.entry.items }
        ensures none { wanted_by (seen self.old) ≡ [] → seen self.new ≡ seen self.old }
    {
        if let Stage::Wanting = self.stage {
            self.tickets = tickets;
            self.stage = Stage::Learning;
        }
    }

    /// What a poll answers. It never waits.
    pub(crate) fn advance(&mut self) -> Poll<Result<Answer, PollFault>>
        ensures ended { IfSome (ended_by (seen self.old)) (λ fault. result ≡ poll.Ready (Err fault)) }
        ensures after { IfReady result (λ r. ended_by (seen self.new) ≡ Some (end_after r)) }
        ensures fault { ended_by (seen self.old) ≡ None → IfReady result (λ r. IfErr r (λ fault. fault ≡ OutOfMemory)) }
        ensures tickets { AllLater (seen self.old).tickets (seen self.new).tickets }
        ensures answer { IfReady result (λ r. IfOk r (Finishes (seen self.old) (seen self.new))) }
        ensures waits { OnPending result (Pends (seen self.old) (seen self.new)) }
    {
        match self.stage {
            Stage::Ended(fault) => Poll::Ready(Err(fault)),
            Stage::Wanting => Poll::Pending,
            Stage::Learning => match self.explore() {
                Ok(Some(answer)) => Poll::Ready(Ok(answer)),
                Ok(None) => Poll::Pending,
                Err(AllocError) => Poll::Ready(Err(PollFault::OutOfMemory)),
            },
        }
    }

    /// Explores what is left of the term, once all tickets show their outcomes. If memory or the room runs out on the
    /// way, the run has ended for good.
    fn explore(&mut self) -> Result<Option<Answer>, AllocError>
        requires learning { self.old.stage ≡ Learning }
        ensures tickets { AllLater (seen self.old).tickets (seen self.new).tickets }
        ensures answer { IfOk result (λ r. IfSome r (Finishes (seen self.old) (seen self.new))) }
        ensures finished { IfOk result (λ r. OnSome r (self.new.stage ≡ Ended Finished)) }
        ensures waits { IfOk result (λ r. IfNone r (Pends (seen self.old) (seen self.new))) }
        ensures failed { OnErr result (self.new.stage ≡ Ended OutOfMemory) }
    {
        if !all_shown(self.tickets.as_mut_slice()) {
            return Ok(None);
        }
        self.stage = Stage::Ended(PollFault::OutOfMemory);
        learn(&mut self.asked, self.tickets.as_mut_slice())?;
        explore(self.alloc, &mut self.root, &mut self.asked)?;
        let answer = self.root.take_answer();
        self.asked.spend(answer.as_ref())?;
        self.stage = match answer {
            Some(_) => Stage::Ended(PollFault::Finished),
            None => Stage::Wanting,
        };
        Ok(answer)
    }
}

impl<L: LoaderName> Future for TermRun<'_, L> {
    ghost use Rattle.std.specs.Prelude.{IfErr, IfOk, IfSome, None, Some, ⊤, Err};
    ghost use Rattle.futures.specs.Poll.{IfReady, OnPending};
    ghost use Rattle.futures.specs.Task.{Covers, Keeps};
    ghost use Rattle.futures.specs.declared.task.Poll.TheVariants as poll;
    ghost use Rattle.dl_haxl.specs.Future.{end_after};
    ghost use Rattle.dl_haxl.specs.Pairs.{AllLater};
    ghost use Rattle.dl_haxl.specs.Run.{Finishes, MayAnswer, Pends, ended_by};
    ghost use Rattle.dl_haxl.specs.RunView.{seen};
    ghost use Rattle.dl_haxl.specs.declared.fault.PollFault.TheVariants.{OutOfMemory};

    type Output = Result<Answer, PollFault>;

    ghost gives = { λ run r. MayAnswer (seen run) r };

    /// The answer of the term, once the run knows the outcomes of all that the term waits for. While a supplied ticket
    /// shows no outcome, the poll is pending and the run wants nothing. Once all of them do, the poll learns what they
    /// show and goes on.
    ///
    /// # Errors
    /// `Finished` after a poll gave the answer. `OutOfMemory` if memory runs out, and from then on.
    fn poll(&mut self, cx: &mut Context<'_>) -> Poll<Result<Answer, PollFault>>
        ensures value { IfReady result (MayAnswer (seen self.old)) }
        ensures again { OnPending result ⊤ }
        ensures same { OnPending result ((r : _) → MayAnswer (seen self.new) r → MayAnswer (seen self.old) r) }
        ensures registered { OnPending result (Covers cx.new (λ _. ⊥)) }
        ensures kept { Keeps cx.old cx.new }
        ensures ended { IfSome (ended_by (seen self.old)) (λ fault. result ≡ poll.Ready (Err fault)) }
        ensures after { IfReady result (λ r. ended_by (seen self.new) ≡ Some (end_after r)) }
        ensures fault { ended_by (seen self.old) ≡ None → IfReady result (λ r. IfErr r (λ fault. fault ≡ OutOfMemory)) }
        ensures tickets { AllLater (seen self.old).tickets (seen self.new).tickets }
        ensures answer { IfReady result (λ r. IfOk r (Finishes (seen self.old) (seen self.new))) }
        ensures waits { OnPending result (Pends (seen self.old) (seen self.new)) }
    {
        match self.advance() {
            Poll::Ready(answer) => Poll::Ready(answer),
            Poll::Pending => cx.yield_now(),
        }
    }
}
