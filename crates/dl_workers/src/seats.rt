//! The seats of a queue: who may send and who may take, and what each has sent or taken.

ghost use Rattle.std.specs.Prelude.{◌≡◌, [], length};
ghost use Rattle.crossbeam_channel.specs.Claims.{view};
ghost use Rattle.dl_workers.specs.LosslessRule.{has_end, traffic, jobs};

use crate::rule::{Item, Traffic};
use crossbeam_channel::Pass;

/// A sender's seat at one queue, by which you send jobs there. It knows, in proofs, the jobs that it sent, in order.
pub struct Sender {
    pub(crate) pass: Pass<Item, Traffic>,
    pub(crate) sent: u32,
    ghost one_seat: { (view pass).seats ≡ 1 },
    ghost counted: { sent ≡ length (jobs (view pass).sent) },
    ghost none_taken: { (view pass).taken ≡ [] },
}

/// A taker's seat at one queue, by which you take jobs there. It knows, in proofs, the jobs that it took, in order.
pub struct Taker {
    pub(crate) pass: Pass<Item, Traffic>,
    pub(crate) taken: u32,
    pub(crate) ended: bool,
    ghost one_seat: { (view pass).seats ≡ 1 },
    ghost counted: { taken ≡ length (jobs (view pass).taken) },
    ghost marked: { ended ≡ has_end (view pass).taken },
    ghost none_sent: { (view pass).sent ≡ [] },
}

impl Drop for Sender {
    fn drop(self) {
        let Sender { pass, sent: _ } = self;
        drop(pass);
    }
}

impl Drop for Taker {
    fn drop(self) {
        let Taker {
            pass,
            taken: _,
            ended: _,
        } = self;
        drop(pass);
    }
}

impl Sender {
    /// The seat of a pass that has sent and taken nothing.
    pub(crate) fn new(pass: Pass<Item, Traffic>) -> Sender
        requires { view pass ≡ traffic 1 (view pass).all [] [] }
        ensures { result.pass ≡ pass }
    {
        Sender { pass, sent: 0 }
    }

    /// What the seat knows.
    pub(crate) fn into_pass(self) -> Pass<Item, Traffic>
        ensures { result ≡ self.pass }
    {
        let Sender { pass, sent: _ } = self;
        pass
    }
}

impl Taker {
    /// The seat of a pass that has sent and taken nothing.
    pub(crate) fn new(pass: Pass<Item, Traffic>) -> Taker
        requires { view pass ≡ traffic 1 (view pass).all [] [] }
        ensures { result.pass ≡ pass }
    {
        Taker {
            pass,
            taken: 0,
            ended: false,
        }
    }

    /// What the seat knows.
    pub(crate) fn into_pass(self) -> Pass<Item, Traffic>
        ensures { result ≡ self.pass }
    {
        let Taker {
            pass,
            taken: _,
            ended: _,
        } = self;
        pass
    }
}
