//! Takes the steps of a plan.

ghost use Rattle.std.specs.Prelude.{◌≡◌, ◌+◌, ◌^◌, ◌<◌, ◌∷◌, ◌++◌, [], ℕ, IfErr, IfOk, OnErr, OnOk};
ghost use Rattle.dl_desk.specs.declared.event.Call.TheVariants.{Prime};
ghost use Rattle.dl_desk.specs.declared.event.Reply.{Reply};
ghost use Rattle.dl_loader.specs.Additions.{Adds, Grows, KeepsTickets, call_entry};
ghost use Rattle.dl_workers.specs.Seats.{IsSenderOf, sent_jobs};
ghost use Rattle.dl_haxl.specs.PlanEntries.{FollowsAndSends, IsStep, stretch};
ghost use Rattle.dl_haxl.specs.Inside.StepsSoFar.{answers_of, rounds_of};
ghost use Rattle.dl_haxl.specs.Rounds.{AddsAndSends, SentMore};
ghost use Rattle.dl_haxl.specs.RunFaults.{IsRunFault};

use crate::evaluator::Evaluator;
use crate::fault::RunFault;
use crate::step_answers::{StepAnswer, StepAnswers};
use dl_desk::{FetchKey, Outcome};
use dl_loader::{Loader, LoaderName, Pass, PrimeReply};
use dl_terms::{Answer, Room, Step};
use dl_workers::{JobQueue, Sender};
use std::alloc::{AllocError, Global};
use std::hash::RandomState;
use std::sync::Wait;

/// Adds the answer and the rounds of the step of a number, if it has a term. Fails if memory runs out.
fn add(
    given: &mut StepAnswers,
    number: usize,
    step: Option<(Answer, u32)>,
) -> Result<(), AllocError>
    requires { given.old.rounds + rounds_of step < 2 ^ 64 }
    ensures answers { OnOk result (given.new.answers.items ≡ given.old.answers.items ++ answers_of number step) }
    ensures rounds { OnOk result (given.new.rounds ≡ given.old.rounds + rounds_of step) }
{
    if let Some((answer, rounds)) = step {
        given.answers.push(StepAnswer {
            step: number,
            answer,
        })?;
        given.rounds += u64::from(rounds);
    }
    Ok(())
}

/// Takes the steps of a plan, in order: a prime, a clear and a clearAll are calls of the pass, and
/// [`run_term`](crate::run_term) says how a term goes. You get the answers of the terms, and how many rounds of loads
/// they took. With `max_answer` the terms share a [`Room`] of so many bytes, and take the text of each answer from it.
///
/// # Errors
/// That of the first step that meets one: those of `run_term`, `OutOfMemory` also if the room is used up, and `Stopped`
/// if a primed cell refuses its outcome. What the pass gained until then stays. If others may wait for what this caller
/// would have done, stop the loader then.
///
/// # Examples
/// The thread of a plan takes its steps. If one fails, it stops the loader, and else it takes part no more, in
/// `crates/dl_scope`:
///
/// ```rust
/// let given = take_steps(
///     rt,
///     alloc,
///     hashing,
///     loader,
///     &mut pass,
///     queue,
///     &mut sender,
///     steps,
///     max_answer,
/// );
/// if given.is_err() {
///     loader.stop(rt);
/// } else {
///     loader.leave(rt, &pass);
/// }
/// ```
pub fn take_steps<L: LoaderName, R: Wait>(
    rt: &R,
    alloc: Global,
    hashing: RandomState,
    loader: &Loader<L>,
    pass: &mut Pass<L>,
    queue: &JobQueue,
    sender: &mut Sender,
    steps: Vec<Step>,
    max_answer: Option<u64>,
) -> Result<StepAnswers, RunFault>
    requires seat { IsSenderOf queue.now sender.old }
    ensures seat { IsSenderOf queue.now sender.new }
    ensures follows { IfOk result (λ given. AddsAndSends pass.old.trace pass.new.trace (sent_jobs sender.old) (sent_jobs sender.new)
        (λ lines sent. FollowsAndSends pass.old.trace.caller steps.items lines given.answers.items given.rounds sent)) }
    ensures sent { OnErr result (SentMore (sent_jobs sender.old) (sent_jobs sender.new)) }
    ensures older { KeepsTickets pass.old.trace pass.new.trace }
    ensures fault { IfErr result (IsRunFault L.service pass.old.trace.caller pass.new.flags) }
    ensures grows { OnErr result (Grows pass.old.trace pass.new.trace) }
{
    let room = max_answer.map(Room::new);
    let evaluator = Evaluator {
        alloc,
        hashing,
        loader,
        outlet: queue,
        room: &room,
    };
    let mut given = StepAnswers {
        answers: Vec::new(alloc),
        rounds: 0,
    };
    let mut number: usize = 0;
    for step in steps {
        let taken = evaluator.take_step(rt, sender, pass, step)?;
        // By its clause, the calls fit a `usize`, and there are no more rounds than calls.
        let _calls = pass.calls();
        add(&mut given, number, taken)?;
        number += 1;
    }
    Ok(given)
}

impl<L: LoaderName> Evaluator<'_, L, JobQueue> {
    /// Takes a step. If it has a term, you get its answer, and how many rounds of loads it took.
    fn take_step<R: Wait>(
        &self,
        rt: &R,
        sender: &mut Sender,
        pass: &mut Pass<L>,
        step: Step,
    ) -> Result<Option<(Answer, u32)>, RunFault>
        requires seat { IsSenderOf self.now.outlet.now sender.old }
        ensures seat { IsSenderOf self.now.outlet.now sender.new }
        ensures step { IfOk result (λ given. (number : ℕ) → AddsAndSends pass.old.trace pass.new.trace (sent_jobs sender.old) (sent_jobs sender.new)
            (λ lines sent. IsStep pass.old.trace.caller number step (stretch lines (answers_of number given) (rounds_of given) sent))) }
        ensures sent { OnErr result (SentMore (sent_jobs sender.old) (sent_jobs sender.new)) }
        ensures older { KeepsTickets pass.old.trace pass.new.trace }
        ensures fault { IfErr result (IsRunFault L.service pass.old.trace.caller pass.new.flags) }
        ensures grows { OnErr result (Grows pass.old.trace pass.new.trace) }
    {
        match step {
            Step::Prime(key, outcome) => self.prime(rt, pass, &key, outcome)?,
            Step::Clear(key) => self.loader.clear(rt, self.alloc, pass, &key)?,
            Step::ClearAll => self.loader.clear_all(rt, self.alloc, pass)?,
            Step::Eval(term) => {
                let given = self.evaluate(rt, sender, pass, term)?;
                return Ok(Some(given));
            }
        }
        Ok(None)
    }

    /// Primes a key. Fails also if the cell refuses its outcome.
    fn prime(
        &self,
        rt: &impl Wait,
        pass: &mut Pass<L>,
        key: &FetchKey,
        outcome: Outcome,
    ) -> Result<(), RunFault>
        ensures primed { OnOk result (Adds pass.old.trace pass.new.trace
            (λ lines. (at : ℕ) × (reply : Reply) × (lines ≡ call_entry pass.old.trace.caller at (Prime key.now outcome) reply ∷ []))) }
        ensures tickets { pass.new.trace.tickets ≡ pass.old.trace.tickets }
        ensures fault { IfErr result (IsRunFault L.service pass.old.trace.caller pass.new.flags) }
        ensures grows { OnErr result (Grows pass.old.trace pass.new.trace) }
    {
        match self.loader.prime(rt, self.alloc, pass, key, outcome)? {
            PrimeReply::Primed { shown: false, .. } => Err(RunFault::Stopped),
            PrimeReply::Primed { .. } | PrimeReply::Kept => Ok(()),
        }
    }
}
