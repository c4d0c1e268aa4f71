//! The batches of a history.

ghost use Rattle.std.specs.Prelude.{◌≡◌, ◌<◌, ◌≤◌, IfNone, IfSome, MatchBool, Some};
ghost use Rattle.dl_desk.specs.Events.{atoms};
ghost use Rattle.dl_desk.specs.History.{begun, end_of};
ghost use Rattle.dl_desk.specs.declared.reply.End.TheVariants.{Settled, Failed};
ghost use Rattle.dl_desk.specs.Legal.{keys_of};
ghost use Rattle.dl_history.specs.History.{past};

use crate::history::History;
use dl_desk::{End, FetchKey};
use std::marker::Model;

/// A batch of a history. Contracts see the keys of its members, and how it ended.
#[derive(Drop)]
pub struct EndedBatch<'a> {
    keys: &'a [FetchKey],
    end: End,
}

impl<'a> Model for EndedBatch<'a> {
    ghost use Rattle.dl_history.specs.ClosedHistory.{EndedBatch};

    ghost Value = { EndedBatch };

    ghost view = { λ b. record { keys = b.keys.now; end = b.end } };
}

impl<'a> EndedBatch<'a> {
    /// A batch with these keys and this end.
    pub(crate) fn new(keys: &'a [FetchKey], end: End) -> EndedBatch<'a>
        ensures keys { result.keys ≡ keys.now }
        ensures end { result.end ≡ end }
    {
        EndedBatch { keys, end }
    }

    /// The keys of its members, in order.
    pub fn keys(&self) -> &'a [FetchKey]
        ensures { result.now ≡ self.now.keys }
    {
        self.keys
    }

    /// Whether it was settled. If not, it failed.
    pub fn is_settled(&self) -> bool
        ensures { MatchBool result (self.now.end ≡ Settled) (self.now.end ≡ Failed) }
    {
        match self.end {
            End::Settled => true,
            End::Failed => false,
        }
    }
}

/// The batches of a history. Each of them has ended. Contracts see the history.
#[derive(Drop)]
pub struct Batches<'a> {
    history: &'a History,
}

impl<'a> Model for Batches<'a> {
    ghost use Rattle.std.specs.Prelude.{List};
    ghost use Rattle.std.specs.Coded.{coded_list};
    ghost use Rattle.dl_desk.specs.declared.event.Event.{Event};
    ghost use Rattle.dl_desk.specs.contracts.event.Event as event;

    ghost Value = { List Event };

    ghost coded = { coded_list event.the_row.coded };

    ghost view = { λ b. b.history.now.events };
}

impl<'a> Batches<'a> {
    /// The batches of a history.
    pub(crate) fn new(history: &'a History) -> Batches<'a>
        ensures { result ≡ history.now.events }
    {
        Batches { history }
    }

    /// The batch of this number, counted from 0, or `None` if there isn't one.
    pub fn get(&self, batch: u32) -> Option<EndedBatch<'a>>
        ensures begun { IfSome result (λ b. batch < begun (atoms (past self.now))) }
        ensures keys { IfSome result (λ b. b.keys ≡ keys_of (atoms (past self.now)) batch) }
        ensures end { IfSome result (λ b. end_of (atoms (past self.now)) batch ≡ Some b.end) }
        ensures none { IfNone result (begun (atoms (past self.now)) ≤ batch) }
    {
        self.history.batch(batch)
    }
}
