//! Calls as values, one after another.

ghost use Rattle.std.specs.Prelude.{◌≡◌, List, None, IfOk, OnOk, IfErr, OnErr};
ghost use Rattle.dl_desk.specs.History.{Atom};
ghost use Rattle.dl_desk.specs.Calls.{refusal, IsRefusal, reply_to, after, answer, next, answers, after_all};
ghost use Rattle.dl_desk.specs.BatchBook.{StandsFor};
ghost use Rattle.dl_desk.specs.declared.call.DeskCall.TheVariants.{LoadMany, Dispatch};

use crate::call::DeskCall;
use crate::desk::Desk;
use crate::event::Reply;
use crate::fault::DeskFault;
use crate::reply::DeskPrime;
use dl_values::{FetchKey, List};
use std::alloc::{AllocError, Global};

impl Desk {
    /// Makes a call that you have as a value.
    ///
    /// # Errors
    /// Those of the method of that name.
    #[inline(always)]
    pub fn call(&mut self, alloc: Global, call: &DeskCall) -> Result<Reply, DeskFault>
        ensures rules { self.new.book.rules ≡ self.old.book.rules }
        ensures reply { IfOk result (λ reply. (history : List Atom) → StandsFor self.old.book history
            → reply ≡ reply_to self.old.book.rules history call.now) }
        ensures stands { OnOk result ((history : List Atom) → StandsFor self.old.book history
            → StandsFor self.new.book (after self.old.book.rules history call.now)) }
        ensures accepted { OnOk result ((history : List Atom) → StandsFor self.old.book history
            → refusal self.old.book.rules history call.now ≡ None) }
        ensures fault { IfErr result (λ fault. (history : List Atom) → StandsFor self.old.book history
            → IsRefusal self.old.book.rules history call.now fault) }
        ensures err { OnErr result (self.new.book ≡ self.old.book) }
    {
        match call {
            DeskCall::Load(key) => Ok(Reply::Loaded(self.load(alloc, key)?)),
            DeskCall::LoadMany(keys) => self.call_many(alloc, keys.as_slice()),
            DeskCall::Prime(key) => match self.prime(key)? {
                DeskPrime::Primed(cell) => Ok(Reply::Primed(cell)),
                DeskPrime::Kept => Ok(Reply::Kept),
            },
            DeskCall::Clear(key) => {
                self.clear(key);
                Ok(Reply::Done)
            }
            DeskCall::ClearAll => {
                self.clear_all();
                Ok(Reply::Done)
            }
            DeskCall::Dispatch => Ok(self.call_dispatch(alloc)?),
            DeskCall::Settle(batch) => {
                self.settle(*batch)?;
                Ok(Reply::Done)
            }
            DeskCall::Fail(batch) => {
                self.fail(*batch)?;
                Ok(Reply::Done)
            }
        }
    }

    /// Loads the keys as one call, with a reply that several may share.
    fn call_many(&mut self, alloc: Global, keys: &[FetchKey]) -> Result<Reply, DeskFault>
        ensures rules { self.new.book.rules ≡ self.old.book.rules }
        ensures reply { IfOk result (λ reply. (history : List Atom) → StandsFor self.old.book history
            → reply ≡ reply_to self.old.book.rules history (LoadMany keys.now)) }
        ensures stands { OnOk result ((history : List Atom) → StandsFor self.old.book history
            → StandsFor self.new.book (after self.old.book.rules history (LoadMany keys.now))) }
        ensures accepted { OnOk result ((history : List Atom) → StandsFor self.old.book history
            → refusal self.old.book.rules history (LoadMany keys.now) ≡ None) }
        ensures fault { IfErr result (λ fault. (history : List Atom) → StandsFor self.old.book history
            → IsRefusal self.old.book.rules history (LoadMany keys.now) fault) }
        ensures err { OnErr result (self.new.book ≡ self.old.book) }
    {
        let replies = self.prepare_loads(alloc, keys)?;
        let replies = List::new(alloc, replies)?;
        self.make_prepared();
        Ok(Reply::Many(replies))
    }

    /// Sends each batch that has not gone out yet, with jobs that several may share.
    fn call_dispatch(&mut self, alloc: Global) -> Result<Reply, AllocError>
        ensures rules { self.new.book.rules ≡ self.old.book.rules }
        ensures reply { IfOk result (λ reply. (history : List Atom) → StandsFor self.old.book history
            → reply ≡ reply_to self.old.book.rules history Dispatch) }
        ensures stands { OnOk result ((history : List Atom) → StandsFor self.old.book history
            → StandsFor self.new.book (after self.old.book.rules history Dispatch)) }
        ensures err { OnErr result (self.new.book ≡ self.old.book) }
    {
        let jobs = self.prepare_dispatch(alloc)?;
        let jobs = List::new(alloc, jobs)?;
        self.make_prepared();
        Ok(Reply::Sent(jobs))
    }

    /// Makes the calls in their order, and answers each by its reply or by why the desk rejects it. If memory runs out
    /// at a call, it fails, and has made the calls before that one.
    pub fn play(
        &mut self,
        alloc: Global,
        calls: &[DeskCall],
    ) -> Result<Vec<Result<Reply, DeskFault>>, AllocError>
        ensures rules { self.new.book.rules ≡ self.old.book.rules }
        ensures answers { IfOk result (λ told. (history : List Atom) → StandsFor self.old.book history
            → told.items ≡ answers self.old.book.rules history calls.now) }
        ensures stands { OnOk result ((history : List Atom) → StandsFor self.old.book history
            → StandsFor self.new.book (after_all self.old.book.rules history calls.now)) }
    {
        let mut told = Vec::with_capacity(alloc, calls.len())?;
        for call in calls {
            told.push_reserved(self.answer(alloc, call)?);
        }
        Ok(told)
    }

    /// What the desk answers to a call. If memory runs out, the call fails and leaves the desk as it was.
    #[inline(always)]
    fn answer(
        &mut self,
        alloc: Global,
        call: &DeskCall,
    ) -> Result<Result<Reply, DeskFault>, AllocError>
        ensures rules { self.new.book.rules ≡ self.old.book.rules }
        ensures answer { IfOk result (λ told. (history : List Atom) → StandsFor self.old.book history
            → told ≡ answer self.old.book.rules history call.now) }
        ensures stands { OnOk result ((history : List Atom) → StandsFor self.old.book history
            → StandsFor self.new.book (next self.old.book.rules history call.now)) }
    {
        match self.call(alloc, call) {
            Ok(reply) => Ok(Ok(reply)),
            Err(DeskFault::OutOfMemory) => Err(AllocError),
            Err(fault) => Ok(Err(fault)),
        }
    }
}
