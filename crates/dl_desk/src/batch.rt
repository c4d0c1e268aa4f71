//! Batches as a desk stores them. Their last members may be prepared and not shown yet.

ghost use Rattle.std.specs.Prelude.{◌≡◌, Some, false, ◌<◌, slice_get, [], ◌∷◌, ◌++◌, length, take, map, OnOk, OnErr, IfOk};
ghost use Rattle.std.specs.List.{zip};
ghost use Rattle.dl_desk.specs.History.{has_member, is_of_table};
ghost use Rattle.dl_desk.specs.Inside.StoredBatch.{StoredBatch, blank, is_first_of, AreApart};
ghost use Rattle.dl_desk.specs.Inside.Preparation.{prepared_batch, shown_batch};

use crate::reply::End;
use dl_values::{FetchKey, Keys};
use indexmap::IndexSet;
use std::alloc::{AllocError, Global};
use std::hash::RandomState;
use std::marker::Model;

/// A batch of at most this many members looks at each to find a key. A larger one has an index for that.
const SCANNED: usize = 8;

/// A new batch has room for this many members.
const ROOM: usize = 8;

/// A batch: the keys of its members, each once and in order, with the cell of each, and how it ended. It shows its
/// first `seen` members; the others are prepared.
#[derive(Drop)]
pub(crate) struct StoredBatch {
    keys: Vec<FetchKey>,
    cells: Vec<u32>,
    // The first of the keys once more: all that there were when the batch was asked last, if they were many.
    index: IndexSet<FetchKey, RandomState>,
    seen: usize,
    end: Option<End>,
}

impl Model for StoredBatch {
    ghost use Rattle.std.specs.List.{zip};
    ghost use Rattle.dl_desk.specs.Inside.StoredBatch.{StoredBatch, AreMembers};

    ghost Value = { StoredBatch };

    ghost view = { λ b. record { members = zip b.keys.items b.cells.items; seen = b.seen; end = b.end } };

    ghost invariant = { λ b. AreMembers b.keys.items b.cells.items b.seen b.index.keys };
}

impl StoredBatch {
    /// A batch with no members. Fails if memory runs out.
    pub(crate) fn new(alloc: Global, hashing: RandomState) -> Result<StoredBatch, AllocError>
        ensures { IfOk result (λ batch. batch ≡ blank) }
    {
        let keys = Vec::with_capacity(alloc, ROOM)?;
        let cells = Vec::with_capacity(alloc, ROOM)?;
        Ok(StoredBatch {
            keys,
            cells,
            index: IndexSet::with_hasher(alloc, hashing),
            seen: 0,
            end: None,
        })
    }

    /// The number of members, shown and prepared.
    pub(crate) fn len(&self) -> usize
        ensures { result ≡ length self.now.members }
    {
        self.cells.len()
    }

    /// The keys of the members, shown and prepared, in order.
    pub(crate) fn keys(&self) -> &[FetchKey]
        ensures { result.now ≡ map (λ m. m.0) self.now.members }
    {
        self.keys.as_slice()
    }

    /// The key and the cell of a member, shown or prepared.
    pub(crate) fn member(&self, place: usize) -> (&FetchKey, u32)
        requires { place < length self.now.members }
        ensures { slice_get self.now.members place ≡ Some (result.0.now, result.1) }
    {
        (&self.keys[place], self.cells[place])
    }

    /// Whether the first member is of the table.
    pub(crate) fn is_of(&self, table: &str) -> bool
        ensures { result ≡ is_of_table table.now self.now.members }
    {
        is_first_of(self.keys.as_slice(), table)
    }

    /// Whether the first member that is shown is of the table.
    pub(crate) fn is_shown_of(&self, table: &str) -> bool
        ensures { result ≡ is_of_table table.now (shown_batch self.now).members }
    {
        is_first_of(self.shown().0, table)
    }

    /// How the batch ended, if it did.
    pub(crate) fn ended(&self) -> Option<End>
        ensures { result ≡ self.now.end }
    {
        self.end
    }

    /// Whether a member has the key, shown or prepared. Fails if memory runs out.
    // Out of line, so that a load whose batch isn't asked costs nothing of it.
    #[cold]
    #[inline(never)]
    pub(crate) fn has(&mut self, key: &FetchKey) -> Result<bool, AllocError>
        ensures has { IfOk result (λ has. has ≡ has_member self.old.members key.now) }
        ensures kept { self.new ≡ self.old }
    {
        if self.keys.len() <= SCANNED {
            return Ok(self.keys.contains(key));
        }
        index_keys(&mut self.index, self.keys.as_slice())?;
        Ok(self.index.contains(key))
    }

    /// Prepares one more member, of a key that none has. If memory runs out, the call fails and leaves the batch as it
    /// was.
    pub(crate) fn push(&mut self, key: &FetchKey, cell: u32) -> Result<(), AllocError>
        requires { has_member self.old.members key.now ≡ false }
        ensures shown { shown_batch self.new ≡ shown_batch self.old }
        ensures added { OnOk result (prepared_batch self.new ≡ record { members = self.old.members ++ (key.now, cell) ∷ []; end = self.old.end }) }
        ensures err { OnErr result (self.new ≡ self.old) }
    {
        self.keys.reserve(1)?;
        self.cells.reserve(1)?;
        self.keys.push_reserved(key.try_copy()?);
        self.cells.push_reserved(cell);
        Ok(())
    }

    /// Takes back what is prepared.
    pub(crate) fn cut(&mut self)
        ensures prepared { prepared_batch self.new ≡ shown_batch self.old }
        ensures shown { shown_batch self.new ≡ shown_batch self.old }
    {
        self.index.truncate(self.seen);
        self.keys.truncate(self.seen);
        self.cells.truncate(self.seen);
    }

    /// Shows what is prepared.
    pub(crate) fn show(&mut self)
        ensures prepared { prepared_batch self.new ≡ prepared_batch self.old }
        ensures shown { shown_batch self.new ≡ prepared_batch self.old }
    {
        self.seen = self.cells.len();
    }

    /// Ends the batch.
    pub(crate) fn finish(&mut self, end: End)
        ensures prepared { prepared_batch self.new ≡ record { members = self.old.members; end = Some end } }
        ensures shown { shown_batch self.new ≡ record { members = take self.old.seen self.old.members; end = Some end } }
    {
        self.end = Some(end);
    }

    /// The members that the batch shows: their keys and their cells, in order.
    pub(crate) fn shown(&self) -> (&[FetchKey], &[u32])
        ensures members { zip result.0.now result.1.now ≡ (shown_batch self.now).members }
        ensures as_many { length result.0.now ≡ length result.1.now }
    {
        (&self.keys[..self.seen], &self.cells[..self.seen])
    }
}

/// Puts all of the keys into an index that has the first of them. If memory runs out, the call fails, and the index
/// still has the first of them.
fn index_keys(
    index: &mut IndexSet<FetchKey, RandomState>,
    keys: &[FetchKey],
) -> Result<(), AllocError>
    requires once { AreApart keys.now }
    requires first { index.old.keys ≡ take (length index.old.keys) keys.now }
    ensures ok { OnOk result (index.new.keys ≡ keys.now) }
    ensures first { index.new.keys ≡ take (length index.new.keys) keys.now }
{
    for place in index.len()..keys.len() {
        index.insert(keys[place].try_copy()?)?;
    }
    Ok(())
}

/// Whether the first key is of the table.
#[inline(always)]
fn is_first_of(keys: &[FetchKey], table: &str) -> bool
    ensures { result ≡ is_first_of table.now keys.now }
{
    match keys.first() {
        Some(key) => table == key.table(),
        None => false,
    }
}
