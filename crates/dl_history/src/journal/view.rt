//! What you can see of a journal: its events and the outcomes of its cells. And how it compares with the entries of
//! passes.

ghost use Rattle.std.specs.Prelude.{◌≡◌, IfSome, length, slice_get};
ghost use Rattle.dl_history.specs.Agreement.{Meets};
ghost use Rattle.dl_history.specs.Journal.{cell_refused};
ghost use Rattle.dl_history.specs.Lists.{Every};

use crate::cell_state::Mark;
use crate::entry::{Entry, PlacedEvent, Read};
use crate::journal::Journal;
use crate::name::LoaderName;
use std::sync::ledger::Share;

impl<L: LoaderName> Journal<L> {
    /// The event at the place of a call, if there is one, is the call's. It is for proofs.
    pub(crate) fn agree_call(&self, stored: &PlacedEvent<L>)
        ensures { IfSome (slice_get self.now.history stored.now.at) (λ event. event ≡ stored.now.event) }
    {
        if let Some(own) = self.log.get(stored.at() as usize) {
            stored.agree(own);
        }
    }

    /// The outcome of a cell, if the journal knows it, is the one that the entry saw. It is for proofs.
    pub(crate) fn agree_read(&self, seen: &Read<L>)
        ensures { IfSome (slice_get self.now.cells seen.now.cell) (λ cell. IfSome cell.shows (λ ending. ending ≡ seen.now.ending)) }
    {
        if let Some(state) = self.states.get(seen.cell() as usize) {
            state.agree(seen);
        }
    }

    /// What the journal has at the entries' places, or of their cells, is what the entries say. It is for proofs.
    pub(crate) fn agree(&self, entries: &[Entry<L>])
        ensures { Every (Meets self.now.history self.now.cells) entries.now }
    {
        for entry in entries {
            entry.agree(self);
        }
    }

    /// Whether a cell refused its outcome.
    pub fn has_refused(&self, cell: u32) -> bool
        ensures { result ≡ cell_refused (slice_get self.now.cells cell) }
    {
        match self.states.get(cell as usize) {
            Some(state) => matches!(state.mark, Mark::Refused(_)),
            None => false,
        }
    }

    /// Compares a share of the ledger with the events: if it has all parts, it has counted as many calls as there are
    /// events. It changes nothing.
    pub(crate) fn audit(&mut self, share: &mut Share<L>)
        ensures same { self.new ≡ self.old }
        ensures parts { share.new.parts ≡ share.old.parts }
        ensures amount { share.new.amount ≡ share.old.amount }
        ensures whole { share.old.parts ≡ L.parts → share.old.amount ≡ length self.old.history }
    {
        self.calls.audit(share);
    }
}
