//! The other calls on a loader: what a caller saw, the stop, the close, and the end of the handle's contents.

ghost use Rattle.std.specs.Prelude.{◌≡◌, IsSomeAnd, MatchOption, true, false};
ghost use Rattle.dl_history.specs.ClosedHistory.{IsHistory};
ghost use Rattle.dl_loader_c.specs.Calls.{AnswersSaw, AnswersStop};
ghost use Rattle.dl_loader_c.specs.Contents.{OnLoader};
ghost use Rattle.dl_loader_c.specs.Handles.{OnClosed, OnOpen, Stays};
ghost use Rattle.dl_loader_c.specs.Lives.{AnswersClose};
ghost use Rattle.dl_loader_c.specs.Named.{IsHosted, named_by, service_by};

use crate::handle::{Handle, HeldOf, take};
use dl_c_values::box_parts::BoxParts;
use dl_c_values::codes::{CLOSED, DONE, NO_CALLER, NO_TICKET, NONE, OUT_OF_MEMORY};
use dl_loader::{LoaderName, SerialLoader};
use std::alloc::Global;
use std::marker::Brand;

/// Adds the outcome of a caller's ticket to what the caller has seen, once, if the ticket's cell has ended.
///
/// Codes: `DONE`; `NONE` if the cell has not ended; `CLOSED`, `NO_CALLER`, `NO_TICKET`, `OUT_OF_MEMORY`.
#[unsafe(no_mangle)]
pub extern "C" fn dl_serial_saw(
    alloc: Global,
    handle: &mut Handle,
    caller: u32,
    ticket: usize,
) -> u32
    ensures closed { OnClosed handle.old handle.new (result ≡ CLOSED) }
    ensures stays { Stays handle.old handle.new }
    ensures loader { OnOpen handle.old handle.new (λ _. AnswersSaw caller ticket result) (result ≡ CLOSED) }
{
    let Some(held) = take(alloc, handle) else {
        return CLOSED;
    };
    let (held, answer) = saw::<Brand>(held, caller, ticket);
    handle.open(held);
    answer
}

fn saw<L: LoaderName>(held: HeldOf<L>, caller: u32, ticket: usize) -> (HeldOf<L>, u32)
    requires hosted { IsHosted L.service L.parts }
    requires name { held.name ≡ named_by L.cells L.service L.name }
    ensures name { result.0.name ≡ held.name }
    ensures loader { OnLoader held.kept result.0.kept (AnswersSaw caller ticket result.1) (result.1 ≡ CLOSED) }
{
    let mut kept = held.release().into_box();
    let answer = match &mut kept.loader {
        Some(loader) => note(loader, caller, ticket),
        None => CLOSED,
    };
    (HeldOf::<L>::hold(BoxParts::of(kept)), answer)
}

fn note<L: LoaderName>(loader: &mut SerialLoader<L>, caller: u32, ticket: usize) -> u32
    ensures { AnswersSaw caller ticket result loader.old loader.new }
{
    if caller >= loader.callers() {
        return NO_CALLER;
    }
    if ticket >= loader.tickets(caller) {
        return NO_TICKET;
    }
    match loader.saw(caller, ticket) {
        Ok(true) => DONE,
        Ok(false) => NONE,
        Err(_) => OUT_OF_MEMORY,
    }
}

/// Stops the loader: from then on it refuses each call that would be an event.
///
/// Codes: `DONE`; `CLOSED`.
#[unsafe(no_mangle)]
pub extern "C" fn dl_serial_stop(alloc: Global, handle: &mut Handle) -> u32
    ensures closed { OnClosed handle.old handle.new (result ≡ CLOSED) }
    ensures stays { Stays handle.old handle.new }
    ensures loader { OnOpen handle.old handle.new (λ _. AnswersStop result) (result ≡ CLOSED) }
{
    let Some(held) = take(alloc, handle) else {
        return CLOSED;
    };
    let (held, answer) = stop::<Brand>(held);
    handle.open(held);
    answer
}

fn stop<L: LoaderName>(held: HeldOf<L>) -> (HeldOf<L>, u32)
    requires hosted { IsHosted L.service L.parts }
    requires name { held.name ≡ named_by L.cells L.service L.name }
    ensures name { result.0.name ≡ held.name }
    ensures loader { OnLoader held.kept result.0.kept (AnswersStop result.1) (result.1 ≡ CLOSED) }
{
    let mut kept = held.release().into_box();
    let answer = match &mut kept.loader {
        Some(loader) => halt(loader),
        None => CLOSED,
    };
    (HeldOf::<L>::hold(BoxParts::of(kept)), answer)
}

fn halt<L: LoaderName>(loader: &mut SerialLoader<L>) -> u32
    ensures { AnswersStop result loader.old loader.new }
{
    loader.stop();
    DONE
}

/// Closes the loader. The handle keeps its history from then on.
///
/// Codes: `DONE`; `CLOSED`, and, with the loader as it was, `UNSETTLED`, `OUT_OF_MEMORY`, `BUG`.
#[unsafe(no_mangle)]
pub extern "C" fn dl_serial_close(alloc: Global, handle: &mut Handle) -> u32
    ensures headline { result ≡ DONE → IsSomeAnd handle.new.held.kept.history (IsHistory (service_by handle.old.held.name)) }
    ensures closed { OnClosed handle.old handle.new (result ≡ CLOSED) }
    ensures stays { Stays handle.old handle.new }
    ensures loader { handle.old.is_open ≡ true → MatchOption handle.old.held.kept.loader
        ((handle.new.held.kept ≡ handle.old.held.kept) × (result ≡ CLOSED))
        (λ s. AnswersClose (service_by handle.old.held.name) s result handle.new.held.kept) }
{
    let Some(held) = take(alloc, handle) else {
        return CLOSED;
    };
    let (held, code) = close::<Brand>(alloc, held);
    handle.open(held);
    code
}

fn close<L: LoaderName>(alloc: Global, held: HeldOf<L>) -> (HeldOf<L>, u32)
    requires hosted { IsHosted L.service L.parts }
    requires name { held.name ≡ named_by L.cells L.service L.name }
    ensures name { result.0.name ≡ held.name }
    ensures loader { MatchOption held.kept.loader ((result.0.kept ≡ held.kept) × (result.1 ≡ CLOSED))
        (λ s. AnswersClose L.service s result.1 result.0.kept) }
{
    let mut kept = held.release().into_box();
    let code = kept.close(alloc);
    (HeldOf::<L>::hold(BoxParts::of(kept)), code)
}

/// Frees the loader or its history.
///
/// Codes: `DONE`; `CLOSED`.
#[unsafe(no_mangle)]
pub extern "C" fn dl_serial_free(alloc: Global, handle: &mut Handle) -> u32
    ensures closed { OnClosed handle.old handle.new (result ≡ CLOSED) }
    ensures freed { handle.old.is_open ≡ true → (result ≡ DONE) × (handle.new.is_open ≡ false) }
{
    let Some(held) = take(alloc, handle) else {
        return CLOSED;
    };
    free::<Brand>(held);
    DONE
}

fn free<L: LoaderName>(held: HeldOf<L>)
    requires hosted { IsHosted L.service L.parts }
    requires name { held.name ≡ named_by L.cells L.service L.name }
{
    drop(held.release().into_box());
}
