//! What a book knows for the close of its loader.

ghost use Rattle.std.specs.Prelude.{◌≡◌, ◌<◌, ◌≤◌, IfNone, IfSome, MatchBool, None, length};
ghost use Rattle.dl_desk.specs.Events.{atoms};
ghost use Rattle.dl_desk.specs.History.{begun, end_of};
ghost use Rattle.dl_history.specs.Agreement.{Fits, HasEach, NoneBehind};
ghost use Rattle.dl_history.specs.History.{AllEnded, HasEnd, past};
ghost use Rattle.dl_history.specs.LoaderState.{loader_state};
ghost use Rattle.dl_loader.specs.Book.{state_of};
ghost use Rattle.dl_history.specs.Lists.{Every};
ghost use Rattle.dl_history.specs.Accounts.{accounts_of};
ghost use Rattle.dl_loader.specs.CloseRefusals.{IsFirstOpen, TellWhole};

use crate::book::Book;
use dl_desk::{BatchState, Desk};
use dl_history::{CellRows, Journal, LoaderName, Pass};

impl<L: LoaderName> Book<L> {
    /// The journal, which has the history and the cells.
    pub(crate) fn journal(&self) -> &Journal<L>
        ensures history { result.now.history ≡ self.now.history }
        ensures cells { result.now.cells ≡ self.now.cells }
    {
        &self.journal
    }

    /// The least batch that has not ended, sent or not.
    pub(crate) fn open_batch(&self, rows: &CellRows<L>) -> Option<u32>
        ensures open { IfSome result (IsFirstOpen self.now.history) }
        ensures ended { IfNone result (AllEnded self.now.history) }
    {
        self.keeps();
        let limits = rows.limits();
        for batch in 0..limits.max_cells() {
            match self.has_ended(batch) {
                Some(true) => {}
                Some(false) => return Some(batch),
                None => return None,
            }
        }
        None
    }

    /// Whether a batch has ended, or `None` if it has not begun.
    fn has_ended(&self, batch: u32) -> Option<bool>
        ensures begun { IfSome result (λ ended. batch < begun (atoms (past self.now.history))) }
        ensures ended { IfSome result (λ ended. MatchBool ended (HasEnd self.now.history batch) (end_of (atoms (past self.now.history)) batch ≡ None)) }
        ensures none { IfNone result (begun (atoms (past self.now.history)) ≤ batch) }
    {
        let view = self.desk.batch(batch)?;
        Some(matches!(view.state(), BatchState::Settled | BatchState::Failed))
    }

    /// Compares the passes of all callers with the book: what it has at the places of their entries, or of their cells,
    /// is what they say, and they have each of its events. It changes nothing.
    pub(crate) fn audit(&mut self, passes: &mut [Pass<L>])
        requires parts { L.parts ≡ L.service.callers }
        requires each { HasEach L.service.callers (accounts_of passes.old) }
        requires seen { NoneBehind (length self.old.history) (accounts_of passes.old) }
        ensures same { self.new ≡ self.old }
        ensures passes { passes.new ≡ passes.old }
        ensures fits { Every (Fits L.service.callers self.old.history self.old.cells) (accounts_of passes.old) }
        ensures whole { TellWhole L.service.callers self.old.history (accounts_of passes.old) }
    {
        Pass::audit(&mut self.journal, passes);
    }

    /// Takes the book apart into the desk and the journal, which are those of the history.
    pub(crate) fn into_parts(self) -> (Desk, Journal<L>)
        ensures kept { loader_state result.1.history result.0.book result.1.cells ≡ state_of self }
    {
        let Book { desk, journal, .. } = self;
        (desk, journal)
    }
}
