//! The desk: one loader, for one thread.

ghost use Rattle.std.specs.Prelude.{◌≡◌, ◌<◌, ◌≤◌, ◌-◌, if◌then◌else◌, None, [], ◌∷◌, ◌++◌, length, map, take, vec_len, false, IfOk, IfErr, OnOk, OnErr};
ghost use Rattle.std.specs.Prelude.{slice_get, nat_le, Some, IsTrue, IsSome, IfSome, IfNone};
ghost use Rattle.std.specs.Prelude.{List};
ghost use Rattle.std.specs.Map.{lookup};
ghost use Rattle.dl_values.specs.Key.{Key, key_eq};
ghost use Rattle.dl_values.specs.Limits.{mixed, by_table};
ghost use Rattle.dl_desk.specs.History.{Atom, Load, Prime, has_member, load_reply, prime_reply};
ghost use Rattle.dl_desk.specs.BatchBook.{StandsFor};
ghost use Rattle.dl_desk.specs.Inside.TableBook.{rules_of, AreNoTables};
ghost use Rattle.dl_desk.specs.Inside.MemoPlaces.{IsAt};
ghost use Rattle.dl_desk.specs.Inside.Preparation.{members_at, has_room_in, book_room, book_jobs, MayJoin, Joins, Puts, PutsAlone, RefusesStep};

mod batch_view;
mod calls;
mod ends;
mod play;
mod prepare;

use crate::batch::StoredBatch;
use crate::fault::DeskFault;
use crate::memo_and_batches::{self, BatchChoice};
use crate::reply::{DeskPrime, LoadReply};
use crate::table_book::{self, BatchMeans, Standing, TableBook};
pub use batch_view::BatchView;
use dl_values::{FetchKey, Job, Keys, Limits, TableLimits};
use indexmap::IndexMap;
use std::alloc::{AllocError, Global};
use std::hash::RandomState;
use std::marker::Model;

/// How far a desk has come: batches begun, batches sent, cells begun.
#[derive(Clone, Copy)]
pub(crate) struct Extent {
    pub(crate) begun: u32,
    pub(crate) sent: u32,
    pub(crate) cells: u32,
}

/// The loader of one thread (DataLoader: `load`, `loadMany`, `prime`, `clear`, `clearAll`, `maxBatchSize`). It holds a
/// cell for each key that you load or prime, until something forgets the key, and it collects the keys of fresh loads
/// in batches.
///
/// You give it keys and get numbers, of cells and of batches, each counted from 0. It never sees an outcome:
/// [`dispatch`](Desk::dispatch) hands you the keys to fetch, and you end each batch by [`settle`](Desk::settle) or
/// [`fail`](Desk::fail).
///
/// A call first prepares its steps, with all its allocations, which nobody sees. Then it shows them by moving marks. So
/// a rejected call leaves the desk as it was. If you prepare a call and don't make it, the next call that changes the
/// desk takes it back.
///
/// # Examples
/// You load a key twice and fetch it once, as `crates/example_loaders/src/one_thread.rt` does:
///
/// ```rust
/// let mut desk = Desk::new(alloc, hashing, Limits::new(64, 1_024, 4_096)?);
/// let user = FetchKey::new(alloc, "user", "u1")?;
/// println!(rt; "{}", desk.load(alloc, &user)?)?;
/// println!(rt; "{}", desk.load(alloc, &user)?)?;
/// for job in &desk.dispatch(alloc)? {
///     println!(rt; "{job}")?;
///     desk.settle(job.batch)?;
/// }
/// ```
pub struct Desk {
    limits: Limits,
    // Where each batch is of one table.
    tables: Option<TableBook>,
    memo: IndexMap<FetchKey, u32, RandomState>,
    batches: Vec<StoredBatch>,
    prepared: Extent,
    shown: Extent,
    shown_memo: usize,
    // Whether anything may be prepared that is not shown.
    is_prepared: bool,
    // In no batch outside of touched..prepared.begun anything is prepared.
    touched: u32,
    // How many batches were begun when the memo forgot something last. It holds the keys of all later ones.
    forgotten: u32,
}

impl Drop for Desk {
    fn drop(self) {
        let Desk {
            limits: _,
            tables,
            memo,
            batches,
            prepared: _,
            shown: _,
            shown_memo: _,
            is_prepared: _,
            touched: _,
            forgotten: _,
        } = self;
        drop(tables);
        drop(memo);
        drop(batches);
    }
}

impl Model for Desk {
    ghost use Rattle.std.specs.Prelude.{take, map};
    ghost use Rattle.dl_desk.specs.BatchBook.{Desk};
    ghost use Rattle.dl_desk.specs.Inside.Preparation.{prepared_batch, shown_batch};
    ghost use Rattle.dl_desk.specs.Inside.TableBook.{rules_of};
    ghost use Rattle.dl_desk.specs.Inside.Marks.{IsDesk};

    ghost Value = { Desk };

    ghost view = { λ d. record {
      book = record {
        rules = rules_of d.limits d.tables;
        cells = d.shown.cells;
        sent = d.shown.sent;
        memo = take d.shown_memo d.memo.entries;
        batches = take d.shown.begun (map shown_batch d.batches.items);
      };
      prepared = record {
        rules = rules_of d.limits d.tables;
        cells = d.prepared.cells;
        sent = d.prepared.sent;
        memo = d.memo.entries;
        batches = take d.prepared.begun (map prepared_batch d.batches.items);
      };
    } };

    ghost invariant = { λ d. IsDesk (record {
      max_batch = d.limits.max_batch;
      max_cells = d.limits.max_cells;
      tables = d.tables;
      memo = d.memo.entries;
      batches = d.batches.items;
      prepared = d.prepared;
      shown = d.shown;
      shown_memo = d.shown_memo;
      is_prepared = d.is_prepared;
      touched = d.touched;
      forgotten = d.forgotten;
    }) };
}

impl Desk {
    /// A desk with an empty history, whose batches may mix tables. `hashing` places keys in its maps. It has no effect
    /// on what the desk answers.
    pub fn new(alloc: Global, hashing: RandomState, limits: Limits) -> Desk
        ensures rules { result.book.rules ≡ mixed limits }
        ensures stands { StandsFor result.book [] }
    {
        Desk::of(alloc, hashing, limits, None)
    }

    /// A desk with an empty history, with keys of one table in each batch. A batch has at most as many keys as the
    /// limit of its table or, if the table has none of its own, as `max_batch`. `hashing` is as in [`new`](Desk::new).
    pub fn by_table(
        alloc: Global,
        hashing: RandomState,
        limits: Limits,
        tables: TableLimits,
    ) -> Desk
        ensures rules { result.book.rules ≡ by_table limits tables }
        ensures stands { StandsFor result.book [] }
    {
        let tables = TableBook::new(alloc, tables);
        Desk::of(alloc, hashing, limits, Some(tables))
    }

    fn of(alloc: Global, hashing: RandomState, limits: Limits, tables: Option<TableBook>) -> Desk
        requires { AreNoTables tables }
        ensures rules { result.book.rules ≡ rules_of limits tables }
        ensures stands { StandsFor result.book [] }
    {
        let start = Extent {
            begun: 0,
            sent: 0,
            cells: 0,
        };
        Desk {
            limits,
            tables,
            memo: IndexMap::with_hasher(alloc, hashing),
            batches: Vec::new(alloc),
            prepared: start,
            shown: start,
            shown_memo: 0,
            is_prepared: false,
            touched: 0,
            forgotten: 0,
        }
    }

    /// Takes back what is prepared, if anything.
    #[inline(always)]
    fn discard(&mut self)
        ensures book { self.new.book ≡ self.old.book }
        ensures prepared { self.new.prepared ≡ self.old.book }
        ensures within { self.new.prepared.cells ≤ self.new.prepared.rules.limits.max_cells }
    {
        if !self.is_shown() {
            self.take_back();
        }
    }

    /// Takes back what is prepared.
    fn take_back(&mut self)
        ensures book { self.new.book ≡ self.old.book }
        ensures prepared { self.new.prepared ≡ self.old.book }
        ensures within { self.new.prepared.cells ≤ self.new.prepared.rules.limits.max_cells }
    {
        self.memo.truncate(self.shown_memo);
        table_book::cut(
            &mut self.tables,
            &mut self.batches,
            self.touched as usize,
            self.prepared.begun as usize,
        );
        self.prepared = self.shown;
        self.touched = self.prepared.begun;
        self.is_prepared = false;
    }

    /// Takes back what is prepared, for a call that the desk rejects with this fault.
    // Out of line, so that calls that are made cost nothing of it.
    #[cold]
    #[inline(never)]
    fn refuse(&mut self, fault: DeskFault) -> DeskFault
        ensures fault { result ≡ fault }
        ensures book { self.new.book ≡ self.old.book }
        ensures prepared { self.new.prepared ≡ self.old.book }
    {
        self.discard();
        fault
    }

    /// Whether the desk shows all that it has prepared.
    fn is_shown(&self) -> bool
        ensures shown { IsTrue result → self.now.prepared ≡ self.now.book }
        ensures within { self.now.prepared.cells ≤ self.now.prepared.rules.limits.max_cells }
    {
        !self.is_prepared
    }

    /// Makes the call that you prepared last, if you prepared one: the desk shows it from now on. It can't fail.
    // Inlined for the sake of loads that find their key.
    #[inline(always)]
    pub fn make_prepared(&mut self)
        ensures rules { self.new.book.rules ≡ self.old.book.rules }
        ensures book { self.new.book ≡ self.old.prepared }
        ensures prepared { self.new.prepared ≡ self.old.prepared }
    {
        if !self.is_shown() {
            self.show_prepared();
        }
    }

    /// Shows what is prepared.
    fn show_prepared(&mut self)
        ensures rules { self.new.book.rules ≡ self.old.book.rules }
        ensures book { self.new.book ≡ self.old.prepared }
        ensures prepared { self.new.prepared ≡ self.old.prepared }
    {
        table_book::show(
            &mut self.tables,
            &mut self.batches,
            self.touched as usize,
            self.prepared.begun as usize,
        );
        self.shown_memo = self.memo.len();
        self.shown = self.prepared;
        self.touched = self.prepared.begun;
        self.is_prepared = false;
    }

    /// The cell that the memo holds for the key, with what is prepared, and the place at which it holds the key.
    fn found(&self, key: &FetchKey) -> Option<(u32, usize)>
        ensures cell { IfSome result (λ r. lookup (key_eq key.now) self.now.prepared.memo ≡ Some r.0) }
        ensures place { IfSome result (λ r. IsAt self.now.prepared.memo r.1 key.now) }
        ensures none { IfNone result (lookup (key_eq key.now) self.now.prepared.memo ≡ None) }
    {
        match self.memo.get_full(key) {
            Some((place, _, cell)) => Some((*cell, place)),
            None => None,
        }
    }

    /// A copy of the key at a place of the memo, with what is prepared. It shares the texts of the memo's own key. Fails
    /// if its reference count would overflow.
    #[inline(always)]
    fn kept(&self, place: usize) -> Result<FetchKey, AllocError>
        requires { IsSome (slice_get self.now.prepared.memo place) }
        ensures { IfOk result (λ key. IsAt self.now.prepared.memo place key) }
    {
        match self.memo.get_index(place) {
            Some((key, _)) => key.try_copy(),
            None => unreachable!(),
        }
    }

    /// Whether the desk has begun all its cells, with what is prepared.
    fn is_full(&self) -> bool
        ensures full { result ≡ nat_le self.now.prepared.rules.limits.max_cells self.now.prepared.cells }
        ensures within { self.now.prepared.cells ≤ self.now.prepared.rules.limits.max_cells }
    {
        self.prepared.cells >= self.limits.max_cells()
    }

    /// Whether one more member may go into the batch, with what is prepared.
    fn is_open(&self, number: u32) -> bool
        requires { number < length self.now.prepared.batches }
        ensures { result ≡ has_room_in self.now.prepared number }
    {
        self.prepared.sent <= number
            && self.batches[number as usize].len() < self.limits.max_batch() as usize
    }

    /// The batch that takes the next member if no member of it has the key, with what is prepared: the last batch, if
    /// it is open, else the next one.
    fn newest(&self) -> u32
        requires { self.now.prepared.rules.tables ≡ None }
        ensures low { result ≤ length self.now.prepared.batches }
        ensures room { (k : Key)
            → (if has_member (members_at self.now.prepared result) k then length self.now.prepared.batches else result) ≡ book_room self.now.prepared k }
    {
        let next = self.prepared.begun;
        if next > 0 && self.is_open(next - 1) {
            next - 1
        } else {
            next
        }
    }

    /// Prepares a member of the key in the batch that has room for it, and answers which. No batch from `forgotten` on
    /// has a member of the key. If memory runs out, the call fails, and part of the step may be prepared.
    // Inlined, as is the next one, so that batches that may mix tables cost nothing more for those of one table.
    #[inline(always)]
    fn join(
        &mut self,
        alloc: Global,
        key: &FetchKey,
        cell: u32,
        forgotten: u32,
    ) -> Result<u32, AllocError>
        requires may { MayJoin self.old.prepared key.now forgotten }
        ensures book { self.new.book ≡ self.old.book }
        ensures rules { self.new.prepared.rules ≡ self.old.prepared.rules }
        ensures joins { IfOk result (λ batch. Joins self.old.prepared key.now cell batch self.new.prepared) }
    {
        match &self.tables {
            None => self.join_newest(alloc, key, cell, forgotten),
            Some(_) => self.join_of_table(alloc, key, cell, forgotten),
        }
    }

    /// The same, if batches may mix tables.
    #[inline(always)]
    fn join_newest(
        &mut self,
        alloc: Global,
        key: &FetchKey,
        cell: u32,
        forgotten: u32,
    ) -> Result<u32, AllocError>
        requires mixes { self.old.prepared.rules.tables ≡ None }
        requires may { MayJoin self.old.prepared key.now forgotten }
        ensures book { self.new.book ≡ self.old.book }
        ensures rules { self.new.prepared.rules ≡ self.old.prepared.rules }
        ensures joins { IfOk result (λ batch. Joins self.old.prepared key.now cell batch self.new.prepared) }
    {
        self.is_prepared = true;
        let newest = self.newest();
        let batch = memo_and_batches::join_mixed(
            &mut self.batches,
            alloc,
            *self.memo.hasher(),
            BatchChoice {
                newest,
                next: self.prepared.begun,
                forgotten,
            },
            key,
            cell,
        )?;
        self.touched = self.touched.min(batch);
        self.prepared.begun = self.prepared.begun.max(batch + 1);
        Ok(batch)
    }

    /// The same, if each batch has one table.
    // Out of line, so that the steps of batches that may mix tables stay as short as they are without it.
    #[cold]
    #[inline(never)]
    fn join_of_table(
        &mut self,
        alloc: Global,
        key: &FetchKey,
        cell: u32,
        forgotten: u32,
    ) -> Result<u32, AllocError>
        requires by_table { IsSome self.old.prepared.rules.tables }
        requires may { MayJoin self.old.prepared key.now forgotten }
        ensures book { self.new.book ≡ self.old.book }
        ensures rules { self.new.prepared.rules ≡ self.old.prepared.rules }
        ensures joins { IfOk result (λ batch. Joins self.old.prepared key.now cell batch self.new.prepared) }
    {
        self.is_prepared = true;
        let hashing = *self.memo.hasher();
        let Some(tables) = &mut self.tables else {
            unreachable!()
        };
        let batch = tables.join(
            &mut self.batches,
            BatchMeans { alloc, hashing },
            Standing {
                limits: self.limits,
                prepared: self.prepared,
                shown: self.shown,
                forgotten,
            },
            key,
            cell,
        )?;
        self.touched = self.touched.min(batch);
        self.prepared.begun = self.prepared.begun.max(batch + 1);
        Ok(batch)
    }

    /// Prepares the load of one more key, and answers with the reply the place at which the memo holds the key. There
    /// are cells left. If memory runs out, the call fails, and part of the step may be prepared.
    // Inlined for the sake of loads that find their key.
    #[inline(always)]
    fn put(&mut self, alloc: Global, key: &FetchKey) -> Result<(LoadReply, usize), AllocError>
        requires not_full { self.old.prepared.cells < self.old.prepared.rules.limits.max_cells }
        ensures book { self.new.book ≡ self.old.book }
        ensures rules { self.new.prepared.rules ≡ self.old.prepared.rules }
        ensures put { IfOk result (λ r. Puts self.old.prepared key.now r.0 self.new.prepared) }
        ensures place { IfOk result (λ r. IsAt self.new.prepared.memo r.1 key.now) }
    {
        let cell = self.prepared.cells;
        let (held, place) = memo_and_batches::hold(&mut self.memo, key.try_copy()?, cell)?;
        if let Some(held) = held {
            return Ok((LoadReply::Hit(held), place));
        }
        self.is_prepared = true;
        self.prepared.cells += 1;
        let forgotten = self.forgotten;
        let batch = self.join(alloc, key, cell, forgotten)?;
        Ok((LoadReply::Fresh { cell, batch }, place))
    }

    /// Prepares a prime of the key. There are cells left. Fails if memory runs out.
    fn put_alone(&mut self, key: &FetchKey) -> Result<DeskPrime, AllocError>
        requires not_full { self.old.prepared.cells < self.old.prepared.rules.limits.max_cells }
        ensures book { self.new.book ≡ self.old.book }
        ensures rules { self.new.prepared.rules ≡ self.old.prepared.rules }
        ensures put { IfOk result (λ reply. PutsAlone self.old.prepared key.now reply self.new.prepared) }
    {
        let cell = self.prepared.cells;
        let (held, _) = memo_and_batches::hold(&mut self.memo, key.try_copy()?, cell)?;
        if let Some(_) = held {
            return Ok(DeskPrime::Kept);
        }
        self.is_prepared = true;
        self.prepared.cells += 1;
        Ok(DeskPrime::Primed(cell))
    }

    /// Prepares the load of one more key, and answers with the reply the place at which the memo holds the key. If the
    /// desk rejects it, it takes back all that is prepared.
    // Inlined for the sake of loads that find their key.
    #[inline(always)]
    fn load_step(&mut self, alloc: Global, key: &FetchKey) -> Result<(LoadReply, usize), DeskFault>
        ensures book { self.new.book ≡ self.old.book }
        ensures rules { self.new.prepared.rules ≡ self.old.prepared.rules }
        ensures reply { IfOk result (λ r. (history : List Atom) → StandsFor self.old.prepared history
            → r.0 ≡ load_reply self.old.prepared.rules history key.now) }
        ensures stands { IfOk result (λ r. (history : List Atom) → StandsFor self.old.prepared history
            → StandsFor self.new.prepared (Load key.now r.0 ∷ history)) }
        ensures place { IfOk result (λ r. IsAt self.new.prepared.memo r.1 key.now) }
        ensures within { OnOk result (self.new.prepared.cells ≤ self.new.prepared.rules.limits.max_cells) }
        ensures fault { IfErr result (RefusesStep self.old.prepared key.now) }
        ensures nothing_prepared { OnErr result (self.new.prepared ≡ self.old.book) }
    {
        if self.is_full() {
            let limit = self.limits.max_cells();
            return match self.found(key) {
                Some((cell, place)) => Ok((LoadReply::Hit(cell), place)),
                None => Err(self.refuse(DeskFault::CellsFull { limit })),
            };
        }
        match self.put(alloc, key) {
            Ok(put) => Ok(put),
            Err(AllocError) => Err(self.refuse(DeskFault::OutOfMemory)),
        }
    }

    /// Prepares a prime of the key. If the desk rejects it, it takes back all that is prepared.
    fn prime_step(&mut self, key: &FetchKey) -> Result<DeskPrime, DeskFault>
        ensures book { self.new.book ≡ self.old.book }
        ensures rules { self.new.prepared.rules ≡ self.old.prepared.rules }
        ensures reply { IfOk result (λ reply. (history : List Atom) → StandsFor self.old.prepared history → reply ≡ prime_reply history key.now) }
        ensures stands { IfOk result (λ reply. (history : List Atom) → StandsFor self.old.prepared history
            → StandsFor self.new.prepared (Prime key.now reply ∷ history)) }
        ensures within { OnOk result (self.new.prepared.cells ≤ self.new.prepared.rules.limits.max_cells) }
        ensures fault { IfErr result (RefusesStep self.old.prepared key.now) }
        ensures nothing_prepared { OnErr result (self.new.prepared ≡ self.old.book) }
    {
        if self.is_full() {
            let limit = self.limits.max_cells();
            return match self.found(key) {
                Some(_) => Ok(DeskPrime::Kept),
                None => Err(self.refuse(DeskFault::CellsFull { limit })),
            };
        }
        match self.put_alone(key) {
            Ok(reply) => Ok(reply),
            Err(AllocError) => Err(self.refuse(DeskFault::OutOfMemory)),
        }
    }

    /// The jobs of the batches that have not gone out, with what is prepared. Fails if memory runs out.
    fn jobs(&self, alloc: Global) -> Result<Vec<Job>, AllocError>
        ensures { IfOk result (λ jobs. jobs.items
            ≡ book_jobs self.now.prepared self.now.prepared.sent (length self.now.prepared.batches - self.now.prepared.sent)) }
    {
        let Extent { begun, sent, .. } = self.prepared;
        let mut jobs = Vec::with_capacity(alloc, (begun - sent) as usize)?;
        for number in sent..begun {
            let keys = Keys::copy_of(alloc, self.batches[number as usize].keys())?;
            jobs.push_reserved(Job {
                batch: number,
                keys,
            });
        }
        Ok(jobs)
    }
}
