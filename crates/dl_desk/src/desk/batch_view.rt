//! What you can see of a desk's memo and batches.

ghost use Rattle.std.specs.Prelude.{◌≡◌, ◌<◌, ◌≤◌, List, length, map, IfSome, IfNone};
ghost use Rattle.std.specs.List.{zip};
ghost use Rattle.std.specs.Iterator.Adapters.{zip_first, zip_second};
ghost use Rattle.std.specs.Slice.Iter.{iter_rest};
ghost use Rattle.dl_desk.specs.History.{Atom, held, begun};
ghost use Rattle.dl_desk.specs.BatchBook.{StandsFor, batch_view};

use crate::desk::Desk;
use crate::reply::{BatchState, End};
use dl_values::FetchKey;
use std::iter::Zip;
use std::marker::Model;
use std::slice::Iter;

/// A look at a batch of a desk: its members and how far it has come.
#[derive(Drop)]
pub struct BatchView<'a> {
    keys: &'a [FetchKey],
    cells: &'a [u32],
    state: BatchState,
}

impl<'a> Model for BatchView<'a> {
    ghost use Rattle.std.specs.Prelude.{◌≡◌, length};
    ghost use Rattle.std.specs.List.{zip};
    ghost use Rattle.dl_desk.specs.BatchBook.{BatchView};

    ghost Value = { BatchView };

    ghost view = { λ b. record { members = zip b.keys.now b.cells.now; state = b.state } };

    ghost invariant = { λ b. length b.keys.now ≡ length b.cells.now };
}

impl<'a> BatchView<'a> {
    /// The key and the cell of each member, in order.
    pub fn members(&self) -> Zip<Iter<'a, FetchKey>, Iter<'a, u32>>
        ensures { zip (iter_rest (zip_first result)) (iter_rest (zip_second result)) ≡ self.now.members }
    {
        self.keys.iter().zip(self.cells)
    }

    /// The keys of the members, in order.
    pub fn keys(&self) -> &'a [FetchKey]
        ensures { result.now ≡ map (λ m. m.0) self.now.members }
    {
        self.keys
    }

    /// The cells of the members, in order.
    pub fn cells(&self) -> &'a [u32]
        ensures { result.now ≡ map (λ m. m.1) self.now.members }
    {
        self.cells
    }

    /// How far the batch has come.
    pub fn state(&self) -> BatchState
        ensures { result ≡ self.now.state }
    {
        self.state
    }
}

impl Desk {
    /// The cell that the desk holds for the key, or `None` if it holds none.
    pub fn held(&self, key: &FetchKey) -> Option<u32>
        ensures { (history : List Atom) → StandsFor self.now.book history → result ≡ held history key.now }
    {
        let (index, _, cell) = self.memo.get_full(key)?;
        if index < self.shown_memo {
            Some(*cell)
        } else {
            None
        }
    }

    /// The batch of this number, or `None` if there isn't one yet.
    pub fn batch(&self, number: u32) -> Option<BatchView<'_>>
        ensures none { IfNone result ((history : List Atom) → StandsFor self.now.book history → begun history ≤ number) }
        ensures some { IfSome result (λ view. (history : List Atom) → StandsFor self.now.book history
            → (number < begun history) × (view ≡ batch_view history number)) }
    {
        if number >= self.shown.begun {
            return None;
        }
        Some(self.view(number))
    }

    /// The batch of this number, which there is.
    pub(super) fn view(&self, number: u32) -> BatchView<'_>
        requires { number < length self.now.book.batches }
        ensures { (history : List Atom) → StandsFor self.now.book history → result ≡ batch_view history number }
    {
        let batch = &self.batches[number as usize];
        let (keys, cells) = batch.shown();
        let state = match batch.ended() {
            Some(End::Settled) => BatchState::Settled,
            Some(End::Failed) => BatchState::Failed,
            None if number < self.shown.sent => BatchState::Sent,
            None => BatchState::Collecting,
        };
        BatchView { keys, cells, state }
    }
}
