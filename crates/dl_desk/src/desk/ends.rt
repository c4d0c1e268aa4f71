//! The ends of batches.

ghost use Rattle.std.specs.Prelude.{◌≡◌, ◌<◌, ◌∷◌, [], length, List, None, Some, IfOk, OnOk, IfErr, OnErr};
ghost use Rattle.std.specs.Map.{lookup};
ghost use Rattle.dl_values.specs.Key.{key_eq};
ghost use Rattle.dl_desk.specs.History.{Atom};
ghost use Rattle.dl_desk.specs.Calls.{refusal, after, ended_so, unfit};
ghost use Rattle.dl_desk.specs.declared.call.DeskCall.TheVariants.{Settle, Fail};
ghost use Rattle.dl_desk.specs.BatchBook.{StandsFor, batch_view, MayEndIn};
ghost use Rattle.dl_desk.specs.Inside.Preparation.{RefusesEnd, Forgets, set_end};

use crate::desk::{BatchView, Desk};
use crate::fault::DeskFault;
use crate::memo_and_batches;
use crate::reply::End;

impl Desk {
    /// The batch of this number, if it may end now.
    ///
    /// # Errors
    /// The first of these that applies: `NoBatch`, `NotSent`, `SettledBefore`.
    pub fn ending(&self, number: u32) -> Result<BatchView<'_>, DeskFault>
        ensures view { IfOk result (λ view. (history : List Atom) → StandsFor self.now.book history → view ≡ batch_view history number) }
        ensures may { OnOk result (MayEndIn self.now.book number) }
        ensures accepted { OnOk result ((history : List Atom) → StandsFor self.now.book history → unfit history number ≡ None) }
        ensures fault { IfErr result (λ fault. (history : List Atom) → StandsFor self.now.book history → unfit history number ≡ Some fault) }
    {
        self.check_end(number)?;
        Ok(self.view(number))
    }

    /// Fails if the batch may not end now.
    fn check_end(&self, number: u32) -> Result<(), DeskFault>
        ensures ok { OnOk result (MayEndIn self.now.book number) }
        ensures fault { IfErr result (RefusesEnd self.now.book number) }
    {
        if number >= self.shown.begun {
            return Err(DeskFault::NoBatch);
        }
        if number >= self.shown.sent {
            return Err(DeskFault::NotSent);
        }
        if self.batches[number as usize].ended().is_some() {
            return Err(DeskFault::SettledBefore);
        }
        Ok(())
    }

    /// Ends a batch that may end, as [`ending`](Desk::ending) finds out. If you fail it, the memo forgets each of its
    /// keys for which it still holds the batch's own cell.
    pub fn end(&mut self, number: u32, end: End)
        requires { MayEndIn self.old.book number }
        ensures rules { self.new.book.rules ≡ self.old.book.rules }
        ensures stands { (history : List Atom) → StandsFor self.old.book history → StandsFor self.new.book (ended_so end number ∷ history) }
    {
        self.discard();
        match end {
            End::Settled => self.mark(number, End::Settled),
            End::Failed => {
                self.forget_own(number);
                self.mark(number, End::Failed);
            }
        }
    }

    /// Forgets the keys of a batch for which the memo holds the batch's own cells.
    fn forget_own(&mut self, number: u32)
        requires nothing_prepared { self.old.prepared ≡ self.old.book }
        requires number { number < length self.old.book.batches }
        ensures nothing_prepared { self.new.prepared ≡ self.new.book }
        ensures forgets { Forgets self.old.book number self.new.book }
    {
        memo_and_batches::forget(&mut self.memo, &self.batches[number as usize]);
        self.shown_memo = self.memo.len();
        self.forgotten = self.prepared.begun;
    }

    /// Notes how a batch ended.
    fn mark(&mut self, number: u32, end: End)
        requires nothing_prepared { self.old.prepared ≡ self.old.book }
        requires number { number < length self.old.book.batches }
        ensures { self.new.book ≡ record self.old.book { batches = set_end self.old.book.batches number end } }
    {
        self.batches[number as usize].finish(end);
    }

    /// Ends a batch with an outcome for each member, which the desk doesn't look at. The memo forgets no key, and the
    /// call takes no memory.
    ///
    /// # Errors
    /// The first of these that applies: `NoBatch`, `NotSent`, `SettledBefore`.
    pub fn settle(&mut self, number: u32) -> Result<(), DeskFault>
        ensures rules { self.new.book.rules ≡ self.old.book.rules }
        ensures stands { OnOk result ((history : List Atom) → StandsFor self.old.book history
            → StandsFor self.new.book (after self.old.book.rules history (Settle number))) }
        ensures accepted { OnOk result ((history : List Atom) → StandsFor self.old.book history → refusal self.old.book.rules history (Settle number) ≡ None) }
        ensures fault { IfErr result (λ fault. (history : List Atom) → StandsFor self.old.book history
            → refusal self.old.book.rules history (Settle number) ≡ Some fault) }
        ensures err { OnErr result (self.new.book ≡ self.old.book) }
    {
        self.check_end(number)?;
        self.end(number, End::Settled);
        Ok(())
    }

    /// Fails a batch as a whole: the memo forgets each of its keys for which it still holds the batch's own cell.
    ///
    /// # Errors
    /// The first of these that applies: `NoBatch`, `NotSent`, `SettledBefore`.
    pub fn fail(&mut self, number: u32) -> Result<(), DeskFault>
        ensures rules { self.new.book.rules ≡ self.old.book.rules }
        ensures stands { OnOk result ((history : List Atom) → StandsFor self.old.book history
            → StandsFor self.new.book (after self.old.book.rules history (Fail number))) }
        ensures accepted { OnOk result ((history : List Atom) → StandsFor self.old.book history → refusal self.old.book.rules history (Fail number) ≡ None) }
        ensures fault { IfErr result (λ fault. (history : List Atom) → StandsFor self.old.book history
            → refusal self.old.book.rules history (Fail number) ≡ Some fault) }
        ensures err { OnErr result (self.new.book ≡ self.old.book) }
    {
        self.check_end(number)?;
        self.end(number, End::Failed);
        Ok(())
    }
}
