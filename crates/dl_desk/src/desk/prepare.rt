//! Calls in two steps: the first makes the allocations, and the second can't fail.

ghost use Rattle.std.specs.Prelude.{◌≡◌, List, None, IfOk, OnOk, IfErr, OnErr};
ghost use Rattle.dl_desk.specs.History.{Atom};
ghost use Rattle.dl_desk.specs.Calls.{refusal, IsRefusal, after};
ghost use Rattle.dl_desk.specs.declared.call.DeskCall.{DeskCall};
ghost use Rattle.dl_desk.specs.declared.call.DeskCall.TheVariants.{LoadMany, Prime, Dispatch};
ghost use Rattle.dl_desk.specs.BatchBook.{StandsFor};
ghost use Rattle.dl_desk.specs.Ready.{IsReadyFor, IsReplyTo};

use crate::desk::Desk;
use crate::fault::DeskFault;
use crate::ready::Ready;
use crate::reply::DeskReply;
use dl_values::FetchKey;
use std::alloc::{AllocError, Global};

impl Desk {
    /// Makes the allocations of [`load_many`](Desk::load_many), and changes nothing that you can see.
    /// [`commit`](Desk::commit) then makes the call.
    ///
    /// # Errors
    /// Those of `load_many`.
    pub fn ready_loads(&mut self, alloc: Global, keys: &[FetchKey]) -> Result<Ready, DeskFault>
        ensures book { self.new.book ≡ self.old.book }
        ensures ready { IfOk result (IsReadyFor self.new (LoadMany keys.now)) }
        ensures accepted { OnOk result ((history : List Atom) → StandsFor self.old.book history
            → refusal self.old.book.rules history (LoadMany keys.now) ≡ None) }
        ensures fault { IfErr result (λ fault. (history : List Atom) → StandsFor self.old.book history
            → IsRefusal self.old.book.rules history (LoadMany keys.now) fault) }
        ensures nothing_prepared { OnErr result (self.new.prepared ≡ self.old.book) }
    {
        let replies = self.prepare_loads(alloc, keys)?;
        Ok(Ready {
            reply: DeskReply::Loads(replies),
        })
    }

    /// Makes the allocations of [`prime`](Desk::prime), and changes nothing that you can see.
    ///
    /// # Errors
    /// Those of `prime`.
    pub fn ready_prime(&mut self, key: &FetchKey) -> Result<Ready, DeskFault>
        ensures book { self.new.book ≡ self.old.book }
        ensures ready { IfOk result (IsReadyFor self.new (Prime key.now)) }
        ensures accepted { OnOk result ((history : List Atom) → StandsFor self.old.book history
            → refusal self.old.book.rules history (Prime key.now) ≡ None) }
        ensures fault { IfErr result (λ fault. (history : List Atom) → StandsFor self.old.book history
            → IsRefusal self.old.book.rules history (Prime key.now) fault) }
        ensures nothing_prepared { OnErr result (self.new.prepared ≡ self.old.book) }
    {
        let reply = self.prepare_prime(key)?;
        Ok(Ready {
            reply: DeskReply::Primed(reply),
        })
    }

    /// Makes the allocations of [`dispatch`](Desk::dispatch), and changes nothing that you can see. Fails if memory
    /// runs out.
    pub fn ready_dispatch(&mut self, alloc: Global) -> Result<Ready, AllocError>
        ensures book { self.new.book ≡ self.old.book }
        ensures ready { IfOk result (IsReadyFor self.new Dispatch) }
        ensures nothing_prepared { OnErr result (self.new.prepared ≡ self.old.book) }
    {
        let jobs = self.prepare_dispatch(alloc)?;
        Ok(Ready {
            reply: DeskReply::Sent(jobs),
        })
    }

    /// Makes the call that is ready, and gives you its reply. It can't fail.
    pub fn commit(&mut self, ready: Ready) -> DeskReply
        requires { (call : DeskCall) × IsReadyFor self.old call ready }
        ensures told { result ≡ ready.reply }
        ensures rules { self.new.book.rules ≡ self.old.book.rules }
        ensures reply { (call : DeskCall) → IsReadyFor self.old call ready → (history : List Atom) → StandsFor self.old.book history
            → IsReplyTo self.old.book.rules history call result }
        ensures stands { (call : DeskCall) → IsReadyFor self.old call ready → (history : List Atom) → StandsFor self.old.book history
            → StandsFor self.new.book (after self.old.book.rules history call) }
    {
        self.make_prepared();
        ready.reply
    }
}
