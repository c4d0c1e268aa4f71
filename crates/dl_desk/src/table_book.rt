//! What a desk keeps of its tables, if each batch has one table.

ghost use Rattle.std.specs.Prelude.{◌≡◌, ℕ, ◌<◌, ◌≤◌, ◌+◌, List, [], length, map, take, max, vec_len, option_map, Some, None, IsSome, IfOk, IfSome, OnOk};
ghost use Rattle.std.specs.Prelude.{OnErr};
ghost use Rattle.dl_values.specs.Limits.{limit_by};
ghost use Rattle.dl_desk.specs.Inside.Preparation.{prepared_batch, shown_batch, book_room, Same, NoneFrom};
ghost use Rattle.dl_desk.specs.Inside.Marks.{IsStored, IsAdded, MakesRoom};
ghost use Rattle.dl_desk.specs.BatchBook.{BatchBook};
ghost use Rattle.dl_desk.specs.Inside.TableMap.{told_in};
ghost use Rattle.dl_desk.specs.Inside.TableBook.{told, newest_at, open_at, open_for, untouched, both, renewed, AreTables, TellsTheSame, AreTouched, TouchedBy};
ghost use Rattle.dl_desk.specs.Inside.TableBook.{Renews, IsNewest, IsOf};

use crate::batch::StoredBatch;
use crate::desk::Extent;
use crate::memo_and_batches::{self, BatchChoice};
use crate::table_map::TableMap;
use crate::table_name::{PLACES, TableName};
use dl_values::{FetchKey, Limits, TableLimits};
use std::alloc::{AllocError, Global};
use std::hash::RandomState;
use std::marker::Model;

/// The most keys that a batch of a table may have, and the table's newest batch.
#[derive(Clone, Copy)]
pub(crate) struct Newest {
    most: u32,
    // The batch that was begun last for the table. Where that was taken back, it is none or another table's.
    latest: u32,
    // The table's newest batch of those that were shown when that one was begun.
    before: Option<u32>,
}

/// How far a desk has come: its limits, the extent with and without what is prepared, and the first batch after the
/// memo last forgot something.
#[derive(Clone, Copy)]
pub(crate) struct Standing {
    pub(crate) limits: Limits,
    pub(crate) prepared: Extent,
    pub(crate) shown: Extent,
    pub(crate) forgotten: u32,
}

/// What you need to make a new batch.
#[derive(Clone, Copy)]
pub(crate) struct BatchMeans {
    pub(crate) alloc: Global,
    pub(crate) hashing: RandomState,
}

/// The tables' own limits, and the newest batch of each table. The book never takes back what it notes of a table: the
/// table's latest batch shows whether the note counts.
#[derive(Drop)]
pub(crate) struct TableBook {
    limits: TableLimits,
    // By the places of tables. They are added when the first table is told of.
    newest: Vec<TableMap>,
    // The batches in which something may be prepared.
    touched: Vec<u32>,
}

impl Model for TableBook {
    ghost use Rattle.dl_desk.specs.Inside.TableBook.{TableBook};

    ghost Value = { TableBook };

    ghost view = { λ t. record { limits = t.limits; newest = t.newest.items; touched = t.touched.items } };
}

impl TableBook {
    /// A book of no batches.
    pub(crate) fn new(alloc: Global, limits: TableLimits) -> TableBook
        ensures limits { result.limits ≡ limits }
        ensures none { (result.newest ≡ []) × (result.touched ≡ []) }
    {
        TableBook {
            limits,
            newest: Vec::new(alloc),
            touched: Vec::new(alloc),
        }
    }

    /// Takes back what is prepared.
    fn cut(&mut self, batches: &mut Vec<StoredBatch>)
        requires { AreTouched self.old.touched batches.old.items }
        ensures book { self.new ≡ untouched self.old }
        ensures prepared { map prepared_batch batches.new.items ≡ map shown_batch batches.old.items }
        ensures shown { map shown_batch batches.new.items ≡ map shown_batch batches.old.items }
    {
        cut_each(batches, self.touched.as_slice());
        self.touched.clear();
    }

    /// Shows what is prepared.
    #[cold]
    #[inline(never)]
    fn show(&mut self, batches: &mut Vec<StoredBatch>)
        requires { AreTouched self.old.touched batches.old.items }
        ensures book { self.new ≡ untouched self.old }
        ensures prepared { map prepared_batch batches.new.items ≡ map prepared_batch batches.old.items }
        ensures shown { map shown_batch batches.new.items ≡ map prepared_batch batches.old.items }
    {
        show_each(batches, self.touched.as_slice());
        self.touched.clear();
    }

    /// The most keys that a batch of the table may have.
    fn most(&self, max_batch: u32, table: &str) -> u32
        ensures { result ≡ limit_by max_batch (Some self.now.limits) table.now }
    {
        self.limits.limit(table).unwrap_or(max_batch)
    }

    /// The newest batch of the table. If the book has no note of the table, it notes that the table's first batch may
    /// be the next one. If memory runs out, the call fails and leaves the notes as they were.
    fn newest_of(
        &mut self,
        alloc: Global,
        max_batch: u32,
        next: u32,
        table: &TableName,
    ) -> Result<Newest, AllocError>
        ensures renews { IfOk result (λ newest. Renews self.old table.now newest self.new) }
        ensures newest { IfOk result (IsNewest max_batch next self.old table.now) }
        ensures err { OnErr result (TellsTheSame self.old self.new) }
    {
        if let Some(newest) = self.told(table) {
            return Ok(newest);
        }
        self.begin(alloc, max_batch, next, table)
    }

    /// The book's note of the table.
    #[inline(always)]
    fn told(&self, table: &TableName) -> Option<Newest>
        ensures { result ≡ told self.now table.now }
    {
        let place = table.place();
        if place < self.newest.len() {
            self.newest[place].get(table)
        } else {
            None
        }
    }

    /// Notes, for a table with no note, that its first batch may be the next one. If memory runs out, the call fails
    /// and leaves the notes as they were.
    // Out of line, as is the next one, since of each table or batch it is called once.
    #[cold]
    #[inline(never)]
    fn begin(
        &mut self,
        alloc: Global,
        max_batch: u32,
        next: u32,
        table: &TableName,
    ) -> Result<Newest, AllocError>
        requires { told self.old table.now ≡ None }
        ensures renews { IfOk result (λ newest. Renews self.old table.now newest self.new) }
        ensures newest { IfOk result (IsNewest max_batch next self.old table.now) }
        ensures err { OnErr result (TellsTheSame self.old self.new) }
    {
        let newest = Newest {
            most: self.most(max_batch, table.as_str()),
            latest: next,
            before: None,
        };
        add_places(alloc, &mut self.newest)?;
        self.newest[table.place()].insert(table, newest)?;
        Ok(newest)
    }

    /// Notes another newest batch of a table.
    #[cold]
    #[inline(never)]
    fn renew(&mut self, table: &TableName, newest: Newest)
        requires { IsSome (told self.old table.now) }
        ensures { Renews self.old table.now newest self.new }
    {
        self.newest[table.place()].replace(table, newest);
    }

    /// Notes that a member of a table, whose note is `last`, has joined the batch. If that is the next batch, it is the
    /// table's newest from now on.
    fn tell(
        &mut self,
        batches: &[StoredBatch],
        standing: Standing,
        table: &TableName,
        last: Newest,
        number: u32,
    )
        requires stored { standing.shown.begun ≤ length batches.now }
        requires shown { standing.shown.begun ≤ standing.prepared.begun }
        requires told { told self.old table.now ≡ Some last }
        ensures begun { number ≡ standing.prepared.begun
            → Renews self.old table.now (renewed (take standing.shown.begun (map shown_batch batches.now)) table.now last number) self.new }
        ensures kept { (number ≡ standing.prepared.begun → ⊥) → self.new ≡ self.old }
    {
        let next = standing.prepared.begun;
        // Where the next batch was the table's latest already, it isn't shown, and what is told stays.
        if number == next && last.latest != next {
            let newest = Newest {
                most: last.most,
                latest: number,
                before: newest_shown(batches, standing.shown.begun, last, table.as_str()),
            };
            self.renew(table, newest);
        }
    }

    /// Prepares a member of the key in the newest batch of its table, if that is open for the key, else in the next
    /// one, and answers which. If memory runs out, the call fails, and there may be a new, empty batch.
    pub(crate) fn join(
        &mut self,
        batches: &mut Vec<StoredBatch>,
        means: BatchMeans,
        standing: Standing,
        key: &FetchKey,
        cell: u32,
    ) -> Result<u32, AllocError>
        requires stored { IsStored standing.prepared standing.limits.max_cells (map prepared_batch batches.old.items) }
        requires shown { standing.shown.begun ≤ standing.prepared.begun }
        requires fits { AreTables standing.limits.max_batch (both standing.shown.begun standing.prepared.begun batches.old.items) self.old }
        requires none { NoneFrom standing.forgotten (map prepared_batch batches.old.items) key.now }
        ensures room { IfOk result (λ number. (book : BatchBook)
            → IsOf standing.limits.max_batch standing.prepared.sent (take standing.prepared.begun (map prepared_batch batches.old.items)) self.old.limits book
            → number ≡ book_room book key.now) }
        ensures next { IfOk result (λ number. number ≤ standing.prepared.begun) }
        ensures added { IfOk result (λ number. IsAdded batches.old.items number (key.now, cell) batches.new.items) }
        ensures limits { self.new.limits ≡ self.old.limits }
        ensures fits { IfOk result (λ number. AreTables standing.limits.max_batch
            (both standing.shown.begun (max standing.prepared.begun (number + 1)) batches.new.items) self.new) }
        ensures err_batches { OnErr result (MakesRoom batches.old.items batches.new.items) }
        ensures err_fits { OnErr result (AreTables standing.limits.max_batch (both standing.shown.begun standing.prepared.begun batches.new.items) self.new) }
    {
        let next = standing.prepared.begun;
        let table = key.table();
        let name = TableName::of(key)?;
        let newest = self.newest_of(means.alloc, standing.limits.max_batch(), next, &name)?;
        let last = newest_in(batches.as_slice(), next, newest, table);
        let open = with_room(batches.as_slice(), standing.prepared, newest.most, last);
        self.touched.reserve(1)?;
        let choice = BatchChoice {
            newest: open,
            next,
            forgotten: standing.forgotten,
        };
        let number = memo_and_batches::join(
            batches,
            means.alloc,
            means.hashing,
            choice,
            key,
            cell,
        )?;
        self.touched.push_reserved(number);
        self.tell(batches.as_slice(), standing, &name, newest, number);
        Ok(number)
    }
}

/// Adds the places that are missing. If memory runs out, the call fails, and some may be there.
fn add_places(alloc: Global, places: &mut Vec<TableMap>) -> Result<(), AllocError>
    ensures enough { OnOk result (32 ≤ length places.new.items) }
    ensures told { (q : List ℕ) → told_in places.new.items q ≡ told_in places.old.items q }
{
    for _place in places.len()..PLACES {
        places.push(TableMap::new(alloc))?;
    }
    Ok(())
}

/// The newest of the first batches that is of the table, by the table's note.
fn newest_in(batches: &[StoredBatch], begun: u32, newest: Newest, table: &str) -> Option<u32>
    requires { begun ≤ length batches.now }
    ensures { result ≡ newest_at (take begun (map prepared_batch batches.now)) table.now (Some newest) }
{
    if newest.latest < begun && batches[newest.latest as usize].is_of(table) {
        Some(newest.latest)
    } else {
        newest.before
    }
}

/// The same, of what the batches show.
fn newest_shown(batches: &[StoredBatch], shown: u32, newest: Newest, table: &str) -> Option<u32>
    requires { shown ≤ length batches.now }
    ensures { result ≡ newest_at (take shown (map shown_batch batches.now)) table.now (Some newest) }
{
    if newest.latest < shown && batches[newest.latest as usize].is_shown_of(table) {
        Some(newest.latest)
    } else {
        newest.before
    }
}

/// The batch, if it has not gone out and has fewer members than the most, else the next one.
fn with_room(batches: &[StoredBatch], extent: Extent, most: u32, newest: Option<u32>) -> u32
    requires within { extent.begun ≤ length batches.now }
    requires newest { IfSome newest (λ b. b < extent.begun) }
    ensures { result ≡ open_at extent.sent most (take extent.begun (map prepared_batch batches.now)) newest }
{
    match newest {
        Some(number) if extent.sent <= number && batches[number as usize].len() < most as usize => {
            number
        }
        _ => extent.begun,
    }
}

/// Takes back what is prepared in these batches.
fn cut_each(batches: &mut Vec<StoredBatch>, touched: &[u32])
    requires { AreTouched touched.now batches.old.items }
    ensures prepared { map prepared_batch batches.new.items ≡ map shown_batch batches.old.items }
    ensures shown { map shown_batch batches.new.items ≡ map shown_batch batches.old.items }
{
    for number in touched {
        batches[*number as usize].cut();
    }
}

/// Shows what is prepared in these batches.
fn show_each(batches: &mut Vec<StoredBatch>, touched: &[u32])
    requires { AreTouched touched.now batches.old.items }
    ensures prepared { map prepared_batch batches.new.items ≡ map prepared_batch batches.old.items }
    ensures shown { map shown_batch batches.new.items ≡ map prepared_batch batches.old.items }
{
    for number in touched {
        batches[*number as usize].show();
    }
}

/// Takes back what is prepared: in a range of batches, if they may mix tables, else in the batches that were touched.
pub(crate) fn cut(
    tables: &mut Option<TableBook>,
    batches: &mut Vec<StoredBatch>,
    from: usize,
    to: usize,
)
    requires within { to ≤ vec_len batches.old }
    requires same { Same from to batches.old.items }
    requires touched { TouchedBy tables.old batches.old.items }
    ensures tables { tables.new ≡ option_map untouched tables.old }
    ensures prepared { map prepared_batch batches.new.items ≡ map shown_batch batches.old.items }
    ensures shown { map shown_batch batches.new.items ≡ map shown_batch batches.old.items }
{
    match tables {
        None => memo_and_batches::cut(batches, from, to),
        Some(tables) => tables.cut(batches),
    }
}

/// Shows what is prepared: in a range of batches, if they may mix tables, else in the batches that were touched.
// Inlined, but not what batches of one table take, so that those that may mix tables cost nothing more.
#[inline(always)]
pub(crate) fn show(
    tables: &mut Option<TableBook>,
    batches: &mut Vec<StoredBatch>,
    from: usize,
    to: usize,
)
    requires within { to ≤ vec_len batches.old }
    requires same { Same from to batches.old.items }
    requires touched { TouchedBy tables.old batches.old.items }
    ensures tables { tables.new ≡ option_map untouched tables.old }
    ensures prepared { map prepared_batch batches.new.items ≡ map prepared_batch batches.old.items }
    ensures shown { map shown_batch batches.new.items ≡ map prepared_batch batches.old.items }
{
    match tables {
        None => memo_and_batches::show(batches, from, to),
        Some(tables) => tables.show(batches),
    }
}
