//! Steps on the parts of a desk: its memo and its stored batches.

ghost use Rattle.std.specs.Prelude.{◌≡◌, ◌≤◌, None, if◌then◌else◌, [], ◌∷◌, ◌++◌, map, vec_len, slice_get, IsSome, OnErr, IfOk};
ghost use Rattle.std.specs.Map.{lookup};
ghost use Rattle.dl_values.specs.Key.{Key, key_eq};
ghost use Rattle.dl_desk.specs.History.{has_member};
ghost use Rattle.dl_desk.specs.Inside.MemoPlaces.{IsAt};
ghost use Rattle.dl_desk.specs.Inside.Preparation.{prepared_batch, shown_batch, Same, members_of, NoneFrom, without};
ghost use Rattle.dl_desk.specs.Inside.Marks.{IsAdded, MakesRoom};

use crate::batch::StoredBatch;
use dl_values::FetchKey;
use indexmap::IndexMap;
use indexmap::map::Entry;
use std::alloc::{AllocError, Global};
use std::hash::RandomState;

/// Takes back what is prepared in a range of batches.
pub(crate) fn cut(batches: &mut Vec<StoredBatch>, from: usize, to: usize)
    requires within { to ≤ vec_len batches.old }
    requires same { Same from to batches.old.items }
    ensures prepared { map prepared_batch batches.new.items ≡ map shown_batch batches.old.items }
    ensures shown { map shown_batch batches.new.items ≡ map shown_batch batches.old.items }
{
    for number in from..to {
        batches[number].cut();
    }
}

/// Shows what is prepared in a range of batches.
pub(crate) fn show(batches: &mut Vec<StoredBatch>, from: usize, to: usize)
    requires within { to ≤ vec_len batches.old }
    requires same { Same from to batches.old.items }
    ensures prepared { map prepared_batch batches.new.items ≡ map prepared_batch batches.old.items }
    ensures shown { map shown_batch batches.new.items ≡ map prepared_batch batches.old.items }
{
    for number in from..to {
        batches[number].show();
    }
}

/// The cell that the memo holds for the key. If it holds none, it holds the new cell from now on. Answers with it the
/// place at which the memo holds the key. If memory runs out, the call fails and leaves the memo as it was.
#[inline(always)]
pub(crate) fn hold(
    memo: &mut IndexMap<FetchKey, u32, RandomState>,
    key: FetchKey,
    cell: u32,
) -> Result<(Option<u32>, usize), AllocError>
    ensures held { IfOk result (λ r. r.0 ≡ lookup (key_eq key) memo.old.entries) }
    ensures kept { IfOk result (λ r. IsSome r.0 → memo.new.entries ≡ memo.old.entries) }
    ensures noted { IfOk result (λ r. r.0 ≡ None → memo.new.entries ≡ memo.old.entries ++ (key, cell) ∷ []) }
    ensures place { IfOk result (λ r. IsAt memo.new.entries r.1 key) }
    ensures err { OnErr result (memo.new.entries ≡ memo.old.entries) }
{
    match memo.entry(key)? {
        Entry::Occupied(entry) => Ok((Some(*entry.get()), entry.index())),
        Entry::Vacant(entry) => {
            let place = entry.index();
            entry.insert(cell);
            Ok((None, place))
        }
    }
}

/// The batches that one more member may join: the newest one, and the next one. No batch from `forgotten` on has a
/// member of its key.
#[derive(Clone, Copy)]
pub(crate) struct BatchChoice {
    pub(crate) newest: u32,
    pub(crate) next: u32,
    pub(crate) forgotten: u32,
}

/// The newest batch or, if a member of it has the key, the next one. Fails if memory runs out.
fn choose(
    batches: &mut Vec<StoredBatch>,
    choice: BatchChoice,
    key: &FetchKey,
) -> Result<u32, AllocError>
    requires newest { choice.newest ≤ choice.next }
    requires next { choice.next ≤ vec_len batches.old }
    requires none { NoneFrom choice.forgotten (map prepared_batch batches.old.items) key.now }
    requires next_is_empty { members_of (slice_get (map prepared_batch batches.old.items) choice.next) ≡ [] }
    ensures number { IfOk result (λ number. number
        ≡ (if has_member (members_of (slice_get (map prepared_batch batches.old.items) choice.newest)) key.now then choice.next else choice.newest)) }
    ensures kept { batches.new.items ≡ batches.old.items }
{
    let BatchChoice {
        newest,
        next,
        forgotten,
    } = choice;
    // Below `next` too, since that one may not be there yet.
    if newest < forgotten && newest < next && batches[newest as usize].has(key)? {
        return Ok(next);
    }
    Ok(newest)
}

/// Prepares a member of the key in the newest batch or, if a member of that has the key, in the next one, and answers
/// which. If memory runs out, the call fails, and there may be a new, empty batch.
// Inlined into the step of batches of one table.
#[inline(always)]
pub(crate) fn join(
    batches: &mut Vec<StoredBatch>,
    alloc: Global,
    hashing: RandomState,
    choice: BatchChoice,
    key: &FetchKey,
    cell: u32,
) -> Result<u32, AllocError>
    requires newest { choice.newest ≤ choice.next }
    requires next { choice.next ≤ vec_len batches.old }
    requires none { NoneFrom choice.forgotten (map prepared_batch batches.old.items) key.now }
    requires next_is_empty { members_of (slice_get (map prepared_batch batches.old.items) choice.next) ≡ [] }
    ensures number { IfOk result (λ number. number
        ≡ (if has_member (members_of (slice_get (map prepared_batch batches.old.items) choice.newest)) key.now then choice.next else choice.newest)) }
    ensures added { IfOk result (λ number. IsAdded batches.old.items number (key.now, cell) batches.new.items) }
    ensures err { OnErr result (MakesRoom batches.old.items batches.new.items) }
{
    let number = choose(batches, choice, key)?;
    if number as usize == batches.len() {
        batches.push(StoredBatch::new(alloc, hashing)?)?;
    }
    batches[number as usize].push(key, cell)?;
    Ok(number)
}

/// The same, if batches may mix tables.
// Out of line, so that loads that find their key cost nothing of it.
#[inline(never)]
pub(crate) fn join_mixed(
    batches: &mut Vec<StoredBatch>,
    alloc: Global,
    hashing: RandomState,
    choice: BatchChoice,
    key: &FetchKey,
    cell: u32,
) -> Result<u32, AllocError>
    requires newest { choice.newest ≤ choice.next }
    requires next { choice.next ≤ vec_len batches.old }
    requires none { NoneFrom choice.forgotten (map prepared_batch batches.old.items) key.now }
    requires next_is_empty { members_of (slice_get (map prepared_batch batches.old.items) choice.next) ≡ [] }
    ensures number { IfOk result (λ number. number
        ≡ (if has_member (members_of (slice_get (map prepared_batch batches.old.items) choice.newest)) key.now then choice.next else choice.newest)) }
    ensures added { IfOk result (λ number. IsAdded batches.old.items number (key.now, cell) batches.new.items) }
    ensures err { OnErr result (MakesRoom batches.old.items batches.new.items) }
{
    join(batches, alloc, hashing, choice, key, cell)
}

/// Forgets each member's key for which the memo holds the member's own cell.
pub(crate) fn forget(memo: &mut IndexMap<FetchKey, u32, RandomState>, batch: &StoredBatch)
    ensures { (k : Key) → lookup (key_eq k) memo.new.entries ≡ without batch.now.members k (lookup (key_eq k) memo.old.entries) }
{
    for place in 0..batch.len() {
        let (key, cell) = batch.member(place);
        if memo.get(key).copied() == Some(cell) {
            let _ = memo.swap_remove(key);
        }
    }
}
