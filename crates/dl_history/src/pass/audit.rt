//! What passes and the journal know of each other, for the close of a loader.

ghost use Rattle.std.specs.Prelude.{◌≡◌, ◌+◌, ◌<◌, length, sum_by};
ghost use Rattle.dl_history.specs.Accounts.{account_of, accounts_of};
ghost use Rattle.dl_history.specs.Agreement.{Fits, IsAccount, places_of};
ghost use Rattle.dl_history.specs.Lists.{Every};

use crate::journal::Journal;
use crate::name::LoaderName;
use crate::pass::Pass;
use std::sync::ledger::Share;

impl<L: LoaderName> Pass<L> {
    /// What every pass keeps of its caller and its entries. It is for proofs.
    fn keeps(&self)
        ensures { IsAccount L.service.callers (account_of self.now.trace) }
    {
        let _ = &self.share;
    }

    /// Compares passes with the journal: what it has at the places of their entries, or of their cells, is what they
    /// say, and with all parts of the ledger they have as many calls as it has events. It changes nothing. Only a
    /// loader's book has the journal, and so only the book can call this.
    pub fn audit(journal: &mut Journal<L>, passes: &mut [Pass<L>])
        ensures journal { journal.new ≡ journal.old }
        ensures passes { passes.new ≡ passes.old }
        ensures fits { Every (Fits L.service.callers journal.old.history journal.old.cells) (accounts_of passes.old) }
        ensures whole { 0 < length passes.old → length passes.old ≡ L.parts
            → sum_by (λ a. length (places_of a.entries)) (accounts_of passes.old) ≡ length journal.old.history }
    {
        if let Some(first) = passes.first_mut() {
            let mut all = first.share.empty();
            audit_with(journal, passes, &mut all);
        }
    }
}

/// The same as [`Pass::audit`], if `all` has further parts of the ledger. It lends `all` the shares of the passes one
/// by one, so it calls itself once for each pass.
fn audit_with<L: LoaderName>(journal: &mut Journal<L>, passes: &mut [Pass<L>], all: &mut Share<L>)
    requires backed { all.old.parts ≡ 0 → all.old.amount ≡ 0 }
    ensures journal { journal.new ≡ journal.old }
    ensures passes { passes.new ≡ passes.old }
    ensures parts { all.new.parts ≡ all.old.parts }
    ensures amount { all.new.amount ≡ all.old.amount }
    ensures fits { Every (Fits L.service.callers journal.old.history journal.old.cells) (accounts_of passes.old) }
    ensures whole { all.old.parts + length passes.old ≡ L.parts
        → all.old.amount + sum_by (λ a. length (places_of a.entries)) (accounts_of passes.old) ≡ length journal.old.history }
{
    match passes.split_first_mut() {
        Some((pass, rest)) => {
            pass.keeps();
            journal.agree(pass.entries());
            let calls = pass.calls as u64;
            pass.share.give(all, 1, calls);
            audit_with(journal, rest, all);
            all.give(&mut pass.share, 1, calls);
        }
        None => journal.audit(all),
    }
}
