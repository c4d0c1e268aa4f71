//! The rule that the queue's channel keeps under every schedule: what senders sent is what takers took and what the
//! channel still holds, each item as often.

use crossbeam_channel::protocol::{Join, Lesson, Outcome, Protocol, Split};
use dl_values::Job;
use std::collections::LinkedList;

/// What the channel carries.
#[derive(Drop)]
pub(crate) enum Item {
    /// A job to be done.
    Work(Job),
    /// An end mark: the taker that gets it gets no job after it.
    End,
}

/// What a pass of the channel knows, its view. It exists in proofs alone: nobody makes a value of it.
pub(crate) struct Traffic {
    /// How many seats the pass is for.
    pub(crate) seats: u64,
    /// How many seats there are in all, if the pass is for any.
    pub(crate) all: u64,
    /// What these seats sent, in order.
    pub(crate) sent: LinkedList<Item>,
    /// What these seats took, in order.
    pub(crate) taken: LinkedList<Item>,
}

/// The rule, over what the channel holds and what all passes know.
pub(crate) struct Lossless;

impl Protocol<Item, Traffic> for Lossless {
    ghost use Rattle.std.specs.Prelude.{[]};
    ghost use Rattle.dl_workers.specs.LosslessRule.{traffic, IsLossless};

    ghost holds = { IsLossless };

    ghost first = { traffic 1 1 [] [] };
}

/// A split that makes room for one seat more: the pass of all seats becomes that of one seat more. The new pass is for
/// none, and goes away.
pub(crate) struct Widen;

impl Split<Traffic> for Widen {
    ghost use Rattle.std.specs.Prelude.{◌+◌, []};
    ghost use Rattle.dl_workers.specs.LosslessRule.{traffic};

    ghost left = { λ v. traffic (v.seats + 1) (v.all + 1) v.sent v.taken };

    ghost right = { λ v. traffic 0 0 [] [] };
}

/// A split that deals one seat to a new pass, which has sent and taken nothing.
pub(crate) struct Deal;

impl Split<Traffic> for Deal {
    ghost use Rattle.std.specs.Prelude.{◌-◌, []};
    ghost use Rattle.dl_workers.specs.LosslessRule.{traffic};

    ghost left = { λ v. traffic (v.seats - 1) v.all v.sent v.taken };

    ghost right = { λ v. traffic 1 v.all [] [] };
}

/// A join: the seats of one pass go over to another, with what they sent and took.
pub(crate) struct Gather;

impl Join<Traffic> for Gather {
    ghost use Rattle.std.specs.Prelude.{◌+◌, ◌++◌, []};
    ghost use Rattle.dl_workers.specs.LosslessRule.{traffic};

    ghost both = { λ v w. traffic (v.seats + w.seats) v.all (v.sent ++ w.sent) (v.taken ++ w.taken) };

    ghost spent = { traffic 0 0 [] [] };
}

/// What a send does: the item joins those that its seat sent.
pub(crate) struct Sends;

impl Outcome<Item, Traffic> for Sends {
    ghost use Rattle.std.specs.Prelude.{◌≡◌, ◌++◌, ◌∷◌, []};
    ghost use Rattle.dl_workers.specs.LosslessRule.{traffic};

    ghost then = { λ v item w. w ≡ traffic v.seats v.all (v.sent ++ item ∷ []) v.taken };
}

impl Lesson<Item, Traffic> for Sends {
    ghost use Rattle.std.specs.Prelude.{⊤};

    ghost fact = { λ v items. ⊤ };
}

/// What a receive does: the item joins those that its seat took.
pub(crate) struct Takes;

impl Outcome<Item, Traffic> for Takes {
    ghost use Rattle.std.specs.Prelude.{◌≡◌, ◌++◌, ◌∷◌, []};
    ghost use Rattle.dl_workers.specs.LosslessRule.{traffic};

    ghost then = { λ v item w. w ≡ traffic v.seats v.all v.sent (v.taken ++ item ∷ []) };
}

impl Lesson<Item, Traffic> for Takes {
    ghost use Rattle.std.specs.Prelude.{⊤};

    ghost fact = { λ v items. ⊤ };
}

/// What the pass of all seats learns: what they sent is what they took and what the channel holds.
pub(crate) struct Whole;

impl Lesson<Item, Traffic> for Whole {
    ghost use Rattle.dl_workers.specs.LosslessRule.{WholeIsLossless};

    ghost fact = { WholeIsLossless };
}
