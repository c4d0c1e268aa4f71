//! The calls on keys, each prepared and then shown, and the dispatch.

ghost use Rattle.std.specs.Prelude.{◌≡◌, List, None, IfOk, OnOk, IfErr, OnErr};
ghost use Rattle.dl_desk.specs.History.{Atom, load_reply, load_replies, loaded, prime_reply, jobs};
ghost use Rattle.dl_desk.specs.Calls.{refusal, IsRefusal, after};
ghost use Rattle.dl_desk.specs.declared.call.DeskCall.TheVariants.{Load, LoadMany, Prime, Clear, ClearAll, Dispatch};
ghost use Rattle.dl_desk.specs.BatchBook.{StandsFor};

use crate::desk::Desk;
use crate::fault::DeskFault;
use crate::reply::{DeskPrime, LoadReply};
use dl_values::{FetchKey, Job};
use std::alloc::{AllocError, Global};

impl Desk {
    /// Prepares loads of the keys, in order, as [`prepare_load`](Desk::prepare_load) prepares one.
    ///
    /// # Errors
    /// Those of [`load_many`](Desk::load_many).
    pub fn prepare_loads(
        &mut self,
        alloc: Global,
        keys: &[FetchKey],
    ) -> Result<Vec<LoadReply>, DeskFault>
        ensures book { self.new.book ≡ self.old.book }
        ensures rules { self.new.prepared.rules ≡ self.old.book.rules }
        ensures replies { IfOk result (λ replies. (history : List Atom) → StandsFor self.old.book history
            → replies.items ≡ load_replies self.old.book.rules history keys.now) }
        ensures stands { OnOk result ((history : List Atom) → StandsFor self.old.book history
            → StandsFor self.new.prepared (loaded self.old.book.rules history keys.now)) }
        ensures accepted { OnOk result ((history : List Atom) → StandsFor self.old.book history
            → refusal self.old.book.rules history (LoadMany keys.now) ≡ None) }
        ensures fault { IfErr result (λ fault. (history : List Atom) → StandsFor self.old.book history
            → IsRefusal self.old.book.rules history (LoadMany keys.now) fault) }
        ensures nothing_prepared { OnErr result (self.new.prepared ≡ self.old.book) }
    {
        self.discard();
        let mut replies = Vec::with_capacity(alloc, keys.len())?;
        for key in keys {
            replies.push_reserved(self.load_step(alloc, key)?.0);
        }
        Ok(replies)
    }

    /// Prepares the load of a key: makes its allocations and changes nothing that you can see.
    /// [`make_prepared`](Desk::make_prepared) then makes the call. A rejected load leaves nothing prepared.
    ///
    /// # Errors
    /// Those of [`load`](Desk::load).
    // Inlined for the sake of loads that find their key.
    #[inline(always)]
    pub fn prepare_load(&mut self, alloc: Global, key: &FetchKey) -> Result<LoadReply, DeskFault>
        ensures book { self.new.book ≡ self.old.book }
        ensures rules { self.new.prepared.rules ≡ self.old.book.rules }
        ensures reply { IfOk result (λ reply. (history : List Atom) → StandsFor self.old.book history
            → reply ≡ load_reply self.old.book.rules history key.now) }
        ensures stands { OnOk result ((history : List Atom) → StandsFor self.old.book history
            → StandsFor self.new.prepared (after self.old.book.rules history (Load key.now))) }
        ensures accepted { OnOk result ((history : List Atom) → StandsFor self.old.book history
            → refusal self.old.book.rules history (Load key.now) ≡ None) }
        ensures fault { IfErr result (λ fault. (history : List Atom) → StandsFor self.old.book history
            → IsRefusal self.old.book.rules history (Load key.now) fault) }
        ensures nothing_prepared { OnErr result (self.new.prepared ≡ self.old.book) }
    {
        self.discard();
        match self.load_step(alloc, key) {
            Ok((reply, _)) => Ok(reply),
            Err(fault) => Err(fault),
        }
    }

    /// Prepares the load of a key, as [`prepare_load`](Desk::prepare_load) does, and gives you a copy of the key as well.
    /// It shares the texts of the key that the memo holds, so if you keep it, you needn't keep the key that you load.
    ///
    /// # Errors
    /// Those of [`load`](Desk::load).
    #[inline(always)]
    pub fn prepare_kept_load(
        &mut self,
        alloc: Global,
        key: &FetchKey,
    ) -> Result<(LoadReply, FetchKey), DeskFault>
        ensures book { self.new.book ≡ self.old.book }
        ensures rules { self.new.prepared.rules ≡ self.old.book.rules }
        ensures key { IfOk result (λ r. r.1 ≡ key.now) }
        ensures reply { IfOk result (λ r. (history : List Atom) → StandsFor self.old.book history
            → r.0 ≡ load_reply self.old.book.rules history key.now) }
        ensures stands { OnOk result ((history : List Atom) → StandsFor self.old.book history
            → StandsFor self.new.prepared (after self.old.book.rules history (Load key.now))) }
        ensures accepted { OnOk result ((history : List Atom) → StandsFor self.old.book history
            → refusal self.old.book.rules history (Load key.now) ≡ None) }
        ensures fault { IfErr result (λ fault. (history : List Atom) → StandsFor self.old.book history
            → IsRefusal self.old.book.rules history (Load key.now) fault) }
        ensures nothing_prepared { OnErr result (self.new.prepared ≡ self.old.book) }
    {
        self.discard();
        let (reply, place) = self.load_step(alloc, key)?;
        match self.kept(place) {
            Ok(kept) => Ok((reply, kept)),
            Err(AllocError) => Err(self.refuse(DeskFault::OutOfMemory)),
        }
    }

    /// Loads a key (DataLoader: `load`). If the desk holds the key, you get the cell that it has. Else the key gets a
    /// new cell and joins a batch, which [`dispatch`](Desk::dispatch) hands you.
    ///
    /// # Errors
    /// `CellsFull` if the desk doesn't hold the key and has begun all its cells; `OutOfMemory`.
    pub fn load(&mut self, alloc: Global, key: &FetchKey) -> Result<LoadReply, DeskFault>
        ensures rules { self.new.book.rules ≡ self.old.book.rules }
        ensures reply { IfOk result (λ reply. (history : List Atom) → StandsFor self.old.book history
            → reply ≡ load_reply self.old.book.rules history key.now) }
        ensures stands { OnOk result ((history : List Atom) → StandsFor self.old.book history
            → StandsFor self.new.book (after self.old.book.rules history (Load key.now))) }
        ensures accepted { OnOk result ((history : List Atom) → StandsFor self.old.book history
            → refusal self.old.book.rules history (Load key.now) ≡ None) }
        ensures fault { IfErr result (λ fault. (history : List Atom) → StandsFor self.old.book history
            → IsRefusal self.old.book.rules history (Load key.now) fault) }
        ensures err { OnErr result (self.new.book ≡ self.old.book) }
        ensures nothing_prepared { self.new.prepared ≡ self.new.book }
    {
        let reply = self.prepare_load(alloc, key)?;
        self.make_prepared();
        Ok(reply)
    }

    /// Loads the keys in order, as one call, all or nothing, with a reply for each (DataLoader: `loadMany`).
    ///
    /// # Errors
    /// `CellsFull` if the call needs more new cells than are left, one for each distinct key that the desk doesn't
    /// hold; `OutOfMemory`.
    pub fn load_many(
        &mut self,
        alloc: Global,
        keys: &[FetchKey],
    ) -> Result<Vec<LoadReply>, DeskFault>
        ensures rules { self.new.book.rules ≡ self.old.book.rules }
        ensures replies { IfOk result (λ replies. (history : List Atom) → StandsFor self.old.book history
            → replies.items ≡ load_replies self.old.book.rules history keys.now) }
        ensures stands { OnOk result ((history : List Atom) → StandsFor self.old.book history
            → StandsFor self.new.book (after self.old.book.rules history (LoadMany keys.now))) }
        ensures accepted { OnOk result ((history : List Atom) → StandsFor self.old.book history
            → refusal self.old.book.rules history (LoadMany keys.now) ≡ None) }
        ensures fault { IfErr result (λ fault. (history : List Atom) → StandsFor self.old.book history
            → IsRefusal self.old.book.rules history (LoadMany keys.now) fault) }
        ensures err { OnErr result (self.new.book ≡ self.old.book) }
        ensures nothing_prepared { self.new.prepared ≡ self.new.book }
    {
        let replies = self.prepare_loads(alloc, keys)?;
        self.make_prepared();
        Ok(replies)
    }

    /// Prepares a prime of the key, as [`prepare_load`](Desk::prepare_load) prepares a load.
    ///
    /// # Errors
    /// Those of [`prime`](Desk::prime).
    pub fn prepare_prime(&mut self, key: &FetchKey) -> Result<DeskPrime, DeskFault>
        ensures book { self.new.book ≡ self.old.book }
        ensures rules { self.new.prepared.rules ≡ self.old.book.rules }
        ensures reply { IfOk result (λ reply. (history : List Atom) → StandsFor self.old.book history → reply ≡ prime_reply history key.now) }
        ensures stands { OnOk result ((history : List Atom) → StandsFor self.old.book history
            → StandsFor self.new.prepared (after self.old.book.rules history (Prime key.now))) }
        ensures accepted { OnOk result ((history : List Atom) → StandsFor self.old.book history
            → refusal self.old.book.rules history (Prime key.now) ≡ None) }
        ensures fault { IfErr result (λ fault. (history : List Atom) → StandsFor self.old.book history
            → IsRefusal self.old.book.rules history (Prime key.now) fault) }
        ensures nothing_prepared { OnErr result (self.new.prepared ≡ self.old.book) }
    {
        self.discard();
        self.prime_step(key)
    }

    /// Begins a cell for the key, in no batch, since you have its outcome. If the desk holds the key, it changes
    /// nothing (DataLoader: `prime`).
    ///
    /// # Errors
    /// `CellsFull` if the desk doesn't hold the key and has begun all its cells; `OutOfMemory`.
    pub fn prime(&mut self, key: &FetchKey) -> Result<DeskPrime, DeskFault>
        ensures rules { self.new.book.rules ≡ self.old.book.rules }
        ensures reply { IfOk result (λ reply. (history : List Atom) → StandsFor self.old.book history → reply ≡ prime_reply history key.now) }
        ensures stands { OnOk result ((history : List Atom) → StandsFor self.old.book history
            → StandsFor self.new.book (after self.old.book.rules history (Prime key.now))) }
        ensures accepted { OnOk result ((history : List Atom) → StandsFor self.old.book history
            → refusal self.old.book.rules history (Prime key.now) ≡ None) }
        ensures fault { IfErr result (λ fault. (history : List Atom) → StandsFor self.old.book history
            → IsRefusal self.old.book.rules history (Prime key.now) fault) }
        ensures err { OnErr result (self.new.book ≡ self.old.book) }
        ensures nothing_prepared { self.new.prepared ≡ self.new.book }
    {
        let reply = self.prepare_prime(key)?;
        self.make_prepared();
        Ok(reply)
    }

    /// Prepares a dispatch, as [`prepare_load`](Desk::prepare_load) prepares a load. Fails if memory runs out.
    pub fn prepare_dispatch(&mut self, alloc: Global) -> Result<Vec<Job>, AllocError>
        ensures book { self.new.book ≡ self.old.book }
        ensures rules { self.new.prepared.rules ≡ self.old.book.rules }
        ensures reply { IfOk result (λ sent. (history : List Atom) → StandsFor self.old.book history → sent.items ≡ jobs history) }
        ensures stands { OnOk result ((history : List Atom) → StandsFor self.old.book history
            → StandsFor self.new.prepared (after self.old.book.rules history Dispatch)) }
        ensures nothing_prepared { OnErr result (self.new.prepared ≡ self.old.book) }
    {
        self.discard();
        let jobs = self.jobs(alloc)?;
        self.prepared.sent = self.prepared.begun;
        self.is_prepared = true;
        Ok(jobs)
    }

    /// Sends every batch that hasn't gone out yet, in order, each as a job. Nobody dispatches for you. Fails if memory
    /// runs out.
    pub fn dispatch(&mut self, alloc: Global) -> Result<Vec<Job>, AllocError>
        ensures rules { self.new.book.rules ≡ self.old.book.rules }
        ensures reply { IfOk result (λ sent. (history : List Atom) → StandsFor self.old.book history → sent.items ≡ jobs history) }
        ensures stands { OnOk result ((history : List Atom) → StandsFor self.old.book history
            → StandsFor self.new.book (after self.old.book.rules history Dispatch)) }
        ensures err { OnErr result (self.new.book ≡ self.old.book) }
        ensures nothing_prepared { self.new.prepared ≡ self.new.book }
    {
        let jobs = self.prepare_dispatch(alloc)?;
        self.make_prepared();
        Ok(jobs)
    }

    /// Forgets the key, if the desk holds it (DataLoader: `clear`). A fresh load of it never joins a batch that has it
    /// already.
    pub fn clear(&mut self, key: &FetchKey)
        ensures rules { self.new.book.rules ≡ self.old.book.rules }
        ensures stands { (history : List Atom) → StandsFor self.old.book history
            → StandsFor self.new.book (after self.old.book.rules history (Clear key.now)) }
    {
        self.discard();
        if self.memo.swap_remove(key).is_some() {
            self.forgotten = self.prepared.begun;
        }
        self.shown_memo = self.memo.len();
    }

    /// Forgets all keys (DataLoader: `clearAll`).
    pub fn clear_all(&mut self)
        ensures rules { self.new.book.rules ≡ self.old.book.rules }
        ensures stands { (history : List Atom) → StandsFor self.old.book history → StandsFor self.new.book (after self.old.book.rules history ClearAll) }
    {
        self.discard();
        self.memo.truncate(0);
        self.shown_memo = 0;
        self.forgotten = self.prepared.begun;
    }
}
