//! One event on the locked book, what all looks of one cell have in common, and the laws of histories.

ghost use Rattle.dl_desk.specs.Service.{Answers};
ghost use Rattle.std.specs.Prelude.{◌≡◌, ◌+◌, None, IfErr, IfOk, IfSome, OnErr, OnOk};
ghost use Rattle.dl_loader.specs.Asks.{call_asked, job_asked, source_asked};
ghost use Rattle.dl_loader.specs.Book.{Keeps};
ghost use Rattle.dl_history.specs.Journal.{refusals};
ghost use Rattle.dl_loader.specs.EventEffect.{Makes};
ghost use Rattle.dl_loader.specs.Refusals.{refusal, IsRefusal};

use crate::ask::Ask;
use crate::book::Book;
use crate::event_call::{Clear, Dispatch, EndBatch, EventCall, Load, LoadMany, Prime};
use crate::loader::Loader;
pub use dl_desk::laws::{
    batches_are_within_limits, ends_stay, fresh_loads_are_apart, legal_pasts_are_answered,
    outcomes_stay,
};
pub use dl_history::laws::{events_are_calls, histories_begin_empty, looks_agree};
use dl_history::{CallFault, CellRows, LoaderName, Pass, Reply};
use dl_source::Source;
use std::alloc::Global;

/// Makes one event of a pass on the book. You get the reply, and how many cells refused the outcome that the event gave
/// them. This is what each event call does under the lock. If the event ended a batch, it wakes those that wait for a
/// ticket, and they go on once you give the book back. It wakes no callers that take part, by [`Loader::enter`], and
/// sleep until their turn, and it doesn't count the batches that are out. So use it on loaders that nobody entered.
///
/// # Errors
/// The first cause of [`CallFault`] that applies, with the ask. The book is then as it was, and so are the calls, reads
/// and tickets of the pass.
pub fn event<'a, L: LoaderName, S: Source>(
    alloc: Global,
    loader: &Loader<L>,
    book: &mut Book<L>,
    pass: &mut Pass<L>,
    ask: Ask<'a, S>,
) -> Result<(Reply, u32), (CallFault, Ask<'a, S>)>
    requires source { IfSome (source_asked ask) (λ source. Answers (S.answer source) L.service) }
    ensures made { IfOk result (λ r. Makes book.old pass.old.trace (call_asked ask.entry) r.0 book.new pass.new.trace) }
    ensures accepted { OnOk result (refusal L.service book.old pass.old.trace (call_asked ask.entry) (job_asked ask.entry) ≡ None) }
    ensures refused { IfOk result (λ r. refusals book.new.cells ≡ refusals book.old.cells + r.1) }
    ensures fault { IfErr result (λ e. IsRefusal L.service book.old pass.old.trace (call_asked ask.entry) (job_asked ask.entry) e.0) }
    ensures back { IfErr result (λ e. e.1 ≡ ask.entry) }
    ensures unchanged { OnErr result ((book.new ≡ book.old) × (pass.new.trace ≡ pass.old.trace)) }
    ensures keeps { Keeps L.service book.new }
{
    let made = make(alloc, &loader.rows, book, pass, &ask);
    book.keeps();
    match made {
        Ok(made) => {
            if matches!(ask, Ask::Settle(_) | Ask::Fail(..)) {
                loader.wake();
            }
            Ok(made)
        }
        Err(fault) => Err((fault, ask)),
    }
}

/// Makes the event of an ask.
fn make<L: LoaderName, S: Source>(
    alloc: Global,
    rows: &CellRows<L>,
    book: &mut Book<L>,
    pass: &mut Pass<L>,
    ask: &Ask<'_, S>,
) -> Result<(Reply, u32), CallFault>
    requires source { IfSome (source_asked ask.now) (λ source. Answers (S.answer source) L.service) }
    ensures made { IfOk result (λ r. Makes book.old pass.old.trace (call_asked ask.now) r.0 book.new pass.new.trace) }
    ensures accepted { OnOk result (refusal L.service book.old pass.old.trace (call_asked ask.now) (job_asked ask.now) ≡ None) }
    ensures refused { IfOk result (λ r. refusals book.new.cells ≡ refusals book.old.cells + r.1) }
    ensures fault { IfErr result (IsRefusal L.service book.old pass.old.trace (call_asked ask.now) (job_asked ask.now)) }
    ensures unchanged { OnErr result ((book.new ≡ book.old) × (pass.new.trace ≡ pass.old.trace)) }
{
    match ask {
        Ask::Load(key) => tell(alloc, rows, book, pass, &Load { key }),
        Ask::LoadMany(keys) => tell(alloc, rows, book, pass, &LoadMany { keys }),
        Ask::Prime(key, outcome) => tell(alloc, rows, book, pass, &Prime { key, outcome }),
        Ask::Clear(key) => tell(alloc, rows, book, pass, &Clear::Key(key)),
        Ask::ClearAll => tell(alloc, rows, book, pass, &Clear::All),
        Ask::Dispatch => tell(alloc, rows, book, pass, &Dispatch),
        Ask::Settle(fetched) => tell(alloc, rows, book, pass, &EndBatch::settle(fetched)),
        Ask::Fail(job, give_up) => tell(alloc, rows, book, pass, &EndBatch::fail(job, *give_up)),
    }
}

/// Makes the event of a call.
fn tell<L: LoaderName, C: EventCall>(
    alloc: Global,
    rows: &CellRows<L>,
    book: &mut Book<L>,
    pass: &mut Pass<L>,
    call: &C,
) -> Result<(Reply, u32), CallFault>
    requires answers { C.brings call.now L.service.answer }
    ensures made { IfOk result (λ r. Makes book.old pass.old.trace (C.call call.now) r.0 book.new pass.new.trace) }
    ensures accepted { OnOk result (refusal L.service book.old pass.old.trace (C.call call.now) (C.job call.now) ≡ None) }
    ensures refused { IfOk result (λ r. refusals book.new.cells ≡ refusals book.old.cells + r.1) }
    ensures fault { IfErr result (IsRefusal L.service book.old pass.old.trace (C.call call.now) (C.job call.now)) }
    ensures unchanged { OnErr result ((book.new ≡ book.old) × (pass.new.trace ≡ pass.old.trace)) }
{
    let (answer, ended) = book.record_unless_stopped(alloc, rows, pass, call)?;
    Ok((C::tell(answer), ended.refused))
}
