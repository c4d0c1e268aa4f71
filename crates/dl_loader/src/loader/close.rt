//! The close of a loader.

ghost use Rattle.std.specs.Prelude.{◌≡◌, IfErr, IfNone, IfOk, IfSome, OnOk, map};
ghost use Rattle.dl_history.specs.Agreement.{accounts_by, NoneBehind};
ghost use Rattle.dl_history.specs.ClosedHistory.{IsHistory, outline_of};
ghost use Rattle.dl_history.specs.Accounts.{accounts_of};
ghost use Rattle.dl_loader.specs.CloseRefusals.{CloseWasRefused, IsBehind, RefusesClose, present};
ghost use Rattle.dl_desk.specs.Service.{AnswersEach};
ghost use Rattle.dl_loader.specs.Inside.CloseSteps.{Closes, MayClose, earlier};

use crate::book::Book;
use crate::loader::Loader;
use crate::loader::unshown::least_unshown;
use dl_history::{CellRows, CloseFault, History, LoaderName, Outline, Pass};
use std::alloc::{AllocError, Global};
use std::sync::Mutex;

/// The caller of a pass, and the front of the pass.
#[derive(Clone, Copy)]
pub(crate) struct PassFront {
    caller: u32,
    front: u32,
}

impl<L: LoaderName> Loader<L> {
    /// Closes the loader. Give it the passes of all callers, and you get the history: one that a single-threaded data
    /// loader could have had over this loader's source, in which every batch has an end. The entries of each pass are
    /// its caller's part. You can close a stopped loader too.
    ///
    /// # Errors
    /// The first cause of [`CloseFault`] that applies, with the loader and the passes. `OutOfMemory` may come before
    /// any other.
    pub fn close(
        self,
        alloc: Global,
        mut passes: Vec<Pass<L>>,
    ) -> Result<History, (CloseFault, Loader<L>, Vec<Pass<L>>)>
        ensures closed { IfOk result (IsHistory L.service) }
        ensures accounts { IfOk result (λ h. h.accounts ≡ accounts_of passes.items) }
        ensures fault { IfErr result (λ e. CloseWasRefused L.service (accounts_of passes.items) e.0) }
        ensures loader { IfErr result (λ e. e.1 ≡ self) }
        ensures passes { IfErr result (λ e. e.2.items ≡ passes.items) }
    {
        let Loader {
            callers,
            rows,
            book,
            waiters,
            turns,
        } = self;
        let mut book = book.into_inner();
        match outlines(alloc, &rows, callers, &mut book, &mut passes) {
            Ok(outlines) => {
                book.keeps();
                let (desk, journal) = book.into_parts();
                Ok(History::of(rows, desk, journal, outlines))
            }
            Err(fault) => {
                book.keeps();
                let loader = Loader {
                    callers,
                    rows,
                    book: Mutex::new(book),
                    waiters,
                    turns,
                };
                Err((fault, loader, passes))
            }
        }
    }
}

/// The outlines of the passes, in order, if the loader may close with them.
pub(crate) fn outlines<L: LoaderName>(
    alloc: Global,
    rows: &CellRows<L>,
    callers: u32,
    book: &mut Book<L>,
    passes: &mut [Pass<L>],
) -> Result<Vec<Outline>, CloseFault>
    requires callers { callers ≡ L.service.callers }
    requires parts { L.parts ≡ L.service.callers }
    requires answers { AnswersEach L.service.answer }
    ensures book { book.new ≡ book.old }
    ensures passes { passes.new ≡ passes.old }
    ensures closes { IfOk result (λ made. Closes L.service book.old.history (accounts_of passes.old) made.items) }
    ensures fault { IfErr result (RefusesClose L.service.callers book.old (accounts_of passes.old)) }
{
    rows.keeps();
    book.keeps();
    check(rows, callers, book, passes)?;
    Ok(outlines_of(alloc, passes)?)
}

/// The outlines of the passes, in order. Fails if memory runs out.
fn outlines_of<L: LoaderName>(alloc: Global, passes: &[Pass<L>]) -> Result<Vec<Outline>, AllocError>
    ensures { IfOk result (λ made. made.items ≡ map outline_of (accounts_of passes.now)) }
{
    let mut outlines = Vec::with_capacity(alloc, passes.len())?;
    for pass in passes {
        outlines.push_reserved(pass.outline(alloc)?);
    }
    Ok(outlines)
}

/// Whether the loader may close with these passes, if memory suffices.
fn check<L: LoaderName>(
    rows: &CellRows<L>,
    callers: u32,
    book: &mut Book<L>,
    passes: &mut [Pass<L>],
) -> Result<(), CloseFault>
    requires callers { callers ≡ L.service.callers }
    requires parts { L.parts ≡ L.service.callers }
    ensures book { book.new ≡ book.old }
    ensures passes { passes.new ≡ passes.old }
    ensures may { OnOk result (MayClose L.service.callers book.old (accounts_of passes.old)) }
    ensures fault { IfErr result (RefusesClose L.service.callers book.old (accounts_of passes.old)) }
{
    let got = present(callers, passes);
    if got < callers {
        return Err(CloseFault::PassesMissing { want: callers, got });
    }
    let len = book.journal().len();
    if let Some(first) = behind(len, passes) {
        return Err(CloseFault::Behind {
            front: first.front,
            len: len as u32,
        });
    }
    book.audit(passes);
    if let Some(cell) = least_unshown(book.journal(), passes) {
        return Err(CloseFault::Unshown { cell });
    }
    match book.open_batch(rows) {
        Some(batch) => Err(CloseFault::Unsettled { batch }),
        None => Ok(()),
    }
}

/// How many of the first callers have exactly one of the passes.
fn present<L: LoaderName>(callers: u32, passes: &[Pass<L>]) -> u32
    ensures { result ≡ present callers (accounts_of passes.now) }
{
    let mut got = 0;
    for caller in 0..callers {
        if passes_of(caller, passes) == 1 {
            got += 1;
        }
    }
    got
}

/// How many of the passes are the caller's.
fn passes_of<L: LoaderName>(caller: u32, passes: &[Pass<L>]) -> usize
    ensures { result ≡ accounts_by caller (accounts_of passes.now) }
{
    let mut own = 0;
    for pass in passes {
        if pass.caller() == caller {
            own += 1;
        }
    }
    own
}

/// The least caller whose pass has seen more than `len` events, and the front of that pass.
fn behind<L: LoaderName>(len: usize, passes: &[Pass<L>]) -> Option<PassFront>
    ensures some { IfSome result (IsBehind len (accounts_of passes.now)) }
    ensures none { IfNone result (NoneBehind len (accounts_of passes.now)) }
{
    let mut found = None;
    for pass in passes {
        let next = PassFront {
            caller: pass.caller(),
            front: pass.front(),
        };
        found = earlier(len, found, next);
    }
    found
}

/// The pass found so far or one pass more, whichever has the lesser caller, if that one has seen more than `len`
/// events.
fn earlier(len: usize, found: Option<PassFront>, next: PassFront) -> Option<PassFront>
    ensures { result ≡ earlier len found next }
{
    if next.front as usize <= len {
        return found;
    }
    match found {
        Some(other) if other.caller <= next.caller => found,
        _ => Some(next),
    }
}
