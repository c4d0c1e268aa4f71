//! How often a database is asked while plans are served.

ghost use Rattle.std.specs.Prelude.{◌≡◌, ◌+◌, ◌∷◌, ◌++◌, [], ℕ, List, IfOk, count_by, option_copied, option_map, slice_get, string_bytes, take};
ghost use Rattle.dl_desk.specs.Events.{atoms};
ghost use Rattle.dl_desk.specs.declared.event.Event.{Event};
ghost use Rattle.dl_history.specs.History.{past};
ghost use Rattle.dl_plans.specs.Statistics.{AreAsked, asked_counts, asked_loads, database_text, is_asked, loaded_keys, numbers_text, statistics_text};

use crate::settings::Options;
use crate::table_names::Names;
use dl_desk::FetchKey;
use dl_history::{Batches, Call, Event, Events, History};
use std::alloc::{AllocError, Global};
use std::slice;

/// The line of the statistics, if the options ask for it and have a database. It goes by the names of the plan file's
/// tables. Fails if memory runs out, or if no number holds a count.
pub(crate) fn statistics_line(
    alloc: Global,
    history: &History,
    names: &Names,
    options: &Options,
) -> Result<Option<String>, AllocError>
    ensures { IfOk result (λ line. option_map string_bytes line ≡ statistics_text options.now names.now history.now.events) }
{
    if options.database.is_none() || !options.statistics {
        return Ok(None);
    }
    let line = database_line(alloc, history, names)?;
    Ok(Some(line))
}

/// The line of the statistics. It counts the keys for which the database is asked: those whose table has none of these
/// names. Fails as [`statistics_line`] does.
fn database_line(alloc: Global, history: &History, names: &Names) -> Result<String, AllocError>
    ensures { IfOk result (λ line. string_bytes line ≡ database_text (is_asked names.now) history.now.events) }
{
    let asked = asked_batches(&history.batches(), names)?;
    let loads = asked_loads(history.events(), names)?;
    numbers_line(alloc, asked.batches, asked.keys, loads)
}

/// The line of these numbers. Fails if memory runs out.
fn numbers_line(alloc: Global, batches: u64, keys: u64, loads: u64) -> Result<String, AllocError>
    ensures { IfOk result (λ line. string_bytes line ≡ numbers_text batches keys loads) }
{
    format!(in alloc;
        "database: no statement, as it is read once; one for each batch would be {batches}, for {keys} keys, and one for each load {loads}"
    )
}

/// How many batches have a key for which the database is asked, and how many such keys they have together.
#[derive(Clone, Copy)]
struct AskedBatches {
    batches: u64,
    keys: u64,
}

/// The batches of a history that ask the database. Fails if no number holds a count.
fn asked_batches(batches: &Batches<'_>, names: &Names) -> Result<AskedBatches, AllocError>
    ensures { IfOk result (AreAsked (asked_counts (is_asked names.now) (atoms (past batches.now)))) }
{
    let mut asked = AskedBatches {
        batches: 0,
        keys: 0,
    };
    for number in 0..u32::MAX {
        match batches.get(number) {
            Some(batch) => asked = asked.with(asked_keys(batch.keys(), names))?,
            None => return Ok(asked),
        }
    }
    Err(AllocError)
}

impl AskedBatches {
    /// The same with one batch more, which asks for this many keys.
    fn with(self, count: usize) -> Result<AskedBatches, AllocError>
        ensures { IfOk result (λ more. (counts : List ℕ) → AreAsked counts self → AreAsked (counts ++ count ∷ []) more) }
    {
        if count == 0 {
            return Ok(self);
        }
        Ok(AskedBatches {
            batches: sum(self.batches, 1)?,
            keys: sum(self.keys, count)?,
        })
    }
}

/// How many loads of keys for which the database is asked these events make. Fails if no number holds the count.
fn asked_loads(events: &Events, names: &Names) -> Result<u64, AllocError>
    ensures { IfOk result (λ loads. loads ≡ asked_loads (is_asked names.now) events.now) }
{
    let mut loads = 0;
    for at in 0..events.len() {
        loads = with_event(loads, events.get(at), names)?;
    }
    Ok(loads)
}

/// The loads with those of one event more, if there is one.
fn with_event(loads: u64, event: Option<&Event>, names: &Names) -> Result<u64, AllocError>
    ensures { IfOk result (λ more. (events : List Event) (at : ℕ) → option_copied event.entry ≡ slice_get events at
        → loads ≡ asked_loads (is_asked names.now) (take at events) → more ≡ asked_loads (is_asked names.now) (take (at + 1) events)) }
{
    match event {
        Some(event) => sum(loads, asked_keys(loaded_keys(&event.call), names)),
        None => Ok(loads),
    }
}

/// The keys that a call loads, in order.
fn loaded_keys(call: &Call) -> &[FetchKey]
    ensures { result.now ≡ loaded_keys call.now }
{
    match call {
        Call::Load(key) => slice::from_ref(key),
        Call::LoadMany(keys) => keys.as_slice(),
        Call::Prime(_, _)
        | Call::Clear(_)
        | Call::ClearAll
        | Call::Dispatch
        | Call::Settle { .. }
        | Call::Fail { .. } => &[],
    }
}

/// For how many of these keys the database is asked.
fn asked_keys(keys: &[FetchKey], names: &Names) -> usize
    ensures { result ≡ count_by (is_asked names.now) keys.now }
{
    let mut count = 0;
    for key in keys {
        if is_asked(names, key) {
            count += 1;
        }
    }
    count
}

/// Whether the database is asked for a key, by the names of the plan file's tables.
fn is_asked(names: &Names, key: &FetchKey) -> bool
    ensures { result ≡ is_asked names.now key.now }
{
    !names.contains(key.table())
}

/// The sum of two counts. Fails if no number holds it.
fn sum(count: u64, more: usize) -> Result<u64, AllocError>
    ensures { IfOk result (λ sum. sum ≡ count + more) }
{
    match count.checked_add(more as u64) {
        Some(sum) => Ok(sum),
        None => Err(AllocError),
    }
}
