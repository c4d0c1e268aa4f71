//! The event calls: what each prepares in the desk and then shows there.

ghost use Rattle.std.specs.Prelude.{◌≡◌, Option, None, IfErr, IfOk, OnOk};
ghost use Rattle.dl_values.specs.Answering.{Answering};
ghost use Rattle.dl_values.specs.declared.job.Job.{Job};
ghost use Rattle.dl_desk.specs.BatchBook as book;
ghost use Rattle.dl_desk.specs.declared.event.Call.{Call};
ghost use Rattle.dl_desk.specs.declared.event.Reply.{Reply};
ghost use Rattle.dl_desk.specs.Legal.{call_of};
ghost use Rattle.dl_loader.specs.Inside.DueLists.{due_list};
ghost use Rattle.dl_loader.specs.Inside.Preparation.{IsPrepared, Refuses, Steps};
ghost use Rattle.dl_loader.specs.EventEffect.{loads_of};

mod ends;
mod keys;
mod loads;

use crate::dues::Due;
use dl_desk::{Desk, LoadReply};
use dl_history::{Call, CallFault, Reply};
pub(crate) use ends::EndBatch;
pub(crate) use keys::{Clear, Dispatch, Prime};
pub(crate) use loads::{Load, LoadMany};
use std::alloc::Global;

/// What a call has prepared: the call and the reply of its event, the ends that it gives to cells, if it gives any, and
/// what the desk replies.
#[derive(Drop)]
pub(crate) struct Prepared<R> {
    pub(crate) call: Call,
    pub(crate) reply: Reply,
    pub(crate) dues: Option<Vec<Due>>,
    pub(crate) answer: R,
}

/// An event call, with its arguments.
pub(crate) trait EventCall {
    /// What the desk replies.
    type Reply: Drop;

    // The call that the history has.
    ghost call: { Self → Call };

    // The job that it ends, if it ends one.
    ghost job: { Self → Option Job } = { λ _. None };

    // The reply that the history has.
    ghost told: { Self.Reply → Reply };

    // The answer that it brings, if it brings one, is allowed.
    ghost brings: { Self → Answering → Type 0 } = { λ _ _. Unit {0} };

    // The desk is ready to show it.
    ghost ready: { Self → book.Desk → Type 0 };

    /// Makes its allocations, for an event at this place, and changes nothing that you can see of the desk.
    ///
    /// # Errors
    /// The cause by which the desk rejects it, or `WrongKeys`; else `OutOfMemory`.
    fn prepare(
        &self,
        alloc: Global,
        at: u16,
        desk: &mut Desk,
    ) -> Result<Prepared<Self::Reply>, CallFault>
        ensures same { desk.new.book ≡ desk.old.book }
        ensures call { IfOk result (λ p. p.call ≡ call self.now) }
        ensures reply { IfOk result (λ p. p.reply ≡ told p.answer) }
        ensures prepared { IfOk result (λ p.
            IsPrepared desk.old.book (record { call = call self.now; job = job self.now; brings = brings self.now })
            (record { at = at; reply = p.reply; dues = due_list p.dues })) }
        ensures ready { OnOk result (ready self.now desk.new) }
        ensures fault { IfErr result (Refuses desk.old.book (call self.now) (job self.now)) };

    /// Shows it in the desk.
    fn show(&self, desk: &mut Desk)
        requires { ready self.now desk.old }
        ensures { Steps desk.old.book desk.new.book (call_of (call self.now)) };

    /// The loads that this reply answers. For each of them the caller gets a ticket.
    fn loads(reply: &Self::Reply) -> &[LoadReply]
        ensures { loads_of (told reply.now) ≡ result.now };

    /// The desk's reply as the history has it.
    fn tell(reply: Self::Reply) -> Reply
        ensures { result ≡ told reply };
}
