//! The calls on a key, and on all keys.

ghost use Rattle.std.specs.Prelude.{◌≡◌};
ghost use Rattle.dl_desk.specs.declared.event.Call.TheVariants.{ClearAll};
ghost use Rattle.dl_loader_c.specs.Answers.{no_ticket};
ghost use Rattle.dl_c_values.specs.Answers.{refused_as};
ghost use Rattle.dl_loader_c.specs.Calls.{AnswersCall, AnswersClear, AnswersLoad, AnswersPrime};
ghost use Rattle.dl_loader_c.specs.Contents.{OnLoader};
ghost use Rattle.dl_loader_c.specs.Handles.{OnClosed, OnOpen, Stays};
ghost use Rattle.dl_loader_c.specs.Named.{IsHosted, named_by};

use crate::answers::{LoadTicket, primed};
use crate::codes::call_code;
use crate::handle::{Handle, HeldOf, take};
use crate::kept::Kept;
use dl_c_values::answers::Loaded;
use dl_c_values::box_parts::BoxParts;
use dl_c_values::codes::{CLOSED, DONE, NO_CALLER, OUT_OF_MEMORY};
use dl_c_values::key_texts::key_of;
use dl_desk::FetchKey;
use dl_loader::{LoaderName, SerialLoader, mark};
use std::alloc::Global;
use std::marker::Brand;

/// Loads the key of a table and an id for a caller (DataLoader: `load`). If the loader holds the key, you get the cell that it
/// has. Else the key gets a new cell in a batch. The caller gets a ticket.
///
/// Codes: `HIT` with the cell, `FRESH` with the cell and its batch; `CLOSED`, `BAD_KEY`, `NO_CALLER`, `STOPPED`, `LOG_FULL`,
/// `CELLS_FULL`, `OUT_OF_MEMORY`, `BUG`.
#[unsafe(no_mangle)]
pub extern "C" fn dl_serial_load(
    alloc: Global,
    handle: &mut Handle,
    caller: u32,
    table: &[u8],
    id: &[u8],
) -> LoadTicket
    ensures closed { OnClosed handle.old handle.new (result ≡ no_ticket CLOSED) }
    ensures stays { Stays handle.old handle.new }
    ensures loader { OnOpen handle.old handle.new (λ service. AnswersLoad service caller (record { table = table.now; id = id.now }) result) (result ≡ no_ticket CLOSED) }
{
    let Some(held) = take(alloc, handle) else {
        return LoadTicket::refused(CLOSED);
    };
    let (held, answer) = load::<Brand>(alloc, held, caller, table, id);
    handle.open(held);
    answer
}

fn load<L: LoaderName>(
    alloc: Global,
    held: HeldOf<L>,
    caller: u32,
    table: &[u8],
    id: &[u8],
) -> (HeldOf<L>, LoadTicket)
    requires hosted { IsHosted L.service L.parts }
    requires name { held.name ≡ named_by L.cells L.service L.name }
    ensures name { result.0.name ≡ held.name }
    ensures loader { OnLoader held.kept result.0.kept (AnswersLoad L.service caller (record { table = table.now; id = id.now }) result.1) (result.1 ≡ no_ticket CLOSED) }
{
    let mut kept = held.release().into_box();
    let Kept { loader, spare, .. } = &mut *kept;
    let answer = match loader {
        Some(loader) => load_key(alloc, loader, spare, caller, table, id),
        None => LoadTicket::refused(CLOSED),
    };
    (HeldOf::<L>::hold(BoxParts::of(kept)), answer)
}

#[tactic(auto, using(crate::proofs::Told::makes))]
fn load_key<L: LoaderName>(
    alloc: Global,
    loader: &mut SerialLoader<L>,
    spare: &mut Option<FetchKey>,
    caller: u32,
    table: &[u8],
    id: &[u8],
) -> LoadTicket
    ensures { AnswersLoad L.service caller (record { table = table.now; id = id.now }) result loader.old loader.new }
{
    let key = match key_of(alloc, spare.take(), table, id) {
        Ok(key) => key,
        Err(code) => return LoadTicket::refused(code),
    };
    if caller >= loader.callers() {
        return LoadTicket::refused(NO_CALLER);
    }
    let ticket = loader.tickets(caller);
    let answer = match loader.load(alloc, caller, &key) {
        Ok(reply) => {
            loader.keeps();
            LoadTicket::of_load(ticket, reply)
        }
        Err(fault) => LoadTicket::refused(call_code(fault)),
    };
    *spare = Some(key);
    answer
}

/// Begins a cell for the key, in no batch, since your host has its outcome. If the loader holds the key, nothing changes but
/// the history (DataLoader: `prime`).
///
/// Codes: `FRESH` with the new cell, `HIT` if the loader holds the key; `CLOSED`, `BAD_KEY`, `NO_CALLER`, `STOPPED`,
/// `LOG_FULL`, `CELLS_FULL`, `OUT_OF_MEMORY`, `BUG`.
#[unsafe(no_mangle)]
pub extern "C" fn dl_serial_prime(
    alloc: Global,
    handle: &mut Handle,
    caller: u32,
    table: &[u8],
    id: &[u8],
) -> Loaded
    ensures closed { OnClosed handle.old handle.new (result ≡ refused_as CLOSED) }
    ensures stays { Stays handle.old handle.new }
    ensures loader { OnOpen handle.old handle.new (λ service. AnswersPrime service caller (record { table = table.now; id = id.now }) result) (result ≡ refused_as CLOSED) }
{
    let Some(held) = take(alloc, handle) else {
        return Loaded::refused(CLOSED);
    };
    let (held, answer) = prime::<Brand>(alloc, held, caller, table, id);
    handle.open(held);
    answer
}

fn prime<L: LoaderName>(
    alloc: Global,
    held: HeldOf<L>,
    caller: u32,
    table: &[u8],
    id: &[u8],
) -> (HeldOf<L>, Loaded)
    requires hosted { IsHosted L.service L.parts }
    requires name { held.name ≡ named_by L.cells L.service L.name }
    ensures name { result.0.name ≡ held.name }
    ensures loader { OnLoader held.kept result.0.kept (AnswersPrime L.service caller (record { table = table.now; id = id.now }) result.1) (result.1 ≡ refused_as CLOSED) }
{
    let mut kept = held.release().into_box();
    let answer = match &mut kept.loader {
        Some(loader) => prime_key(alloc, loader, caller, table, id),
        None => Loaded::refused(CLOSED),
    };
    (HeldOf::<L>::hold(BoxParts::of(kept)), answer)
}

#[tactic(auto, using(crate::proofs::Told::makes))]
fn prime_key<L: LoaderName>(
    alloc: Global,
    loader: &mut SerialLoader<L>,
    caller: u32,
    table: &[u8],
    id: &[u8],
) -> Loaded
    ensures { AnswersPrime L.service caller (record { table = table.now; id = id.now }) result loader.old loader.new }
{
    let key = match key_of(alloc, None, table, id) {
        Ok(key) => key,
        Err(code) => return Loaded::refused(code),
    };
    if caller >= loader.callers() {
        return Loaded::refused(NO_CALLER);
    }
    let Ok(mark) = mark(alloc) else {
        return Loaded::refused(OUT_OF_MEMORY);
    };
    match loader.prime(alloc, caller, &key, &mark) {
        Ok(reply) => {
            loader.keeps();
            primed(reply)
        }
        Err(fault) => Loaded::refused(call_code(fault)),
    }
}

/// Forgets the key, if the loader holds it (DataLoader: `clear`).
///
/// Codes: `DONE`; `CLOSED`, `BAD_KEY`, `NO_CALLER`, `STOPPED`, `LOG_FULL`, `OUT_OF_MEMORY`, `BUG`.
#[unsafe(no_mangle)]
pub extern "C" fn dl_serial_clear(
    alloc: Global,
    handle: &mut Handle,
    caller: u32,
    table: &[u8],
    id: &[u8],
) -> u32
    ensures closed { OnClosed handle.old handle.new (result ≡ CLOSED) }
    ensures stays { Stays handle.old handle.new }
    ensures loader { OnOpen handle.old handle.new (λ service. AnswersClear service caller (record { table = table.now; id = id.now }) result) (result ≡ CLOSED) }
{
    let Some(held) = take(alloc, handle) else {
        return CLOSED;
    };
    let (held, answer) = clear::<Brand>(alloc, held, caller, table, id);
    handle.open(held);
    answer
}

fn clear<L: LoaderName>(
    alloc: Global,
    held: HeldOf<L>,
    caller: u32,
    table: &[u8],
    id: &[u8],
) -> (HeldOf<L>, u32)
    requires hosted { IsHosted L.service L.parts }
    requires name { held.name ≡ named_by L.cells L.service L.name }
    ensures name { result.0.name ≡ held.name }
    ensures loader { OnLoader held.kept result.0.kept (AnswersClear L.service caller (record { table = table.now; id = id.now }) result.1) (result.1 ≡ CLOSED) }
{
    let mut kept = held.release().into_box();
    let answer = match &mut kept.loader {
        Some(loader) => clear_key(alloc, loader, caller, table, id),
        None => CLOSED,
    };
    (HeldOf::<L>::hold(BoxParts::of(kept)), answer)
}

#[tactic(auto, using(crate::proofs::Told::makes))]
fn clear_key<L: LoaderName>(
    alloc: Global,
    loader: &mut SerialLoader<L>,
    caller: u32,
    table: &[u8],
    id: &[u8],
) -> u32
    ensures { AnswersClear L.service caller (record { table = table.now; id = id.now }) result loader.old loader.new }
{
    let key = match key_of(alloc, None, table, id) {
        Ok(key) => key,
        Err(code) => return code,
    };
    if caller >= loader.callers() {
        return NO_CALLER;
    }
    match loader.clear(alloc, caller, &key) {
        Ok(()) => {
            loader.keeps();
            DONE
        }
        Err(fault) => call_code(fault),
    }
}

/// Forgets all keys (DataLoader: `clearAll`).
///
/// Codes: `DONE`; `CLOSED`, `NO_CALLER`, `STOPPED`, `LOG_FULL`, `OUT_OF_MEMORY`, `BUG`.
#[unsafe(no_mangle)]
pub extern "C" fn dl_serial_clear_all(alloc: Global, handle: &mut Handle, caller: u32) -> u32
    ensures closed { OnClosed handle.old handle.new (result ≡ CLOSED) }
    ensures stays { Stays handle.old handle.new }
    ensures loader { OnOpen handle.old handle.new (λ service. AnswersCall service caller ClearAll result) (result ≡ CLOSED) }
{
    let Some(held) = take(alloc, handle) else {
        return CLOSED;
    };
    let (held, answer) = clear_all::<Brand>(alloc, held, caller);
    handle.open(held);
    answer
}

fn clear_all<L: LoaderName>(alloc: Global, held: HeldOf<L>, caller: u32) -> (HeldOf<L>, u32)
    requires hosted { IsHosted L.service L.parts }
    requires name { held.name ≡ named_by L.cells L.service L.name }
    ensures name { result.0.name ≡ held.name }
    ensures loader { OnLoader held.kept result.0.kept (AnswersCall L.service caller ClearAll result.1) (result.1 ≡ CLOSED) }
{
    let mut kept = held.release().into_box();
    let answer = match &mut kept.loader {
        Some(loader) => clear_keys(alloc, loader, caller),
        None => CLOSED,
    };
    (HeldOf::<L>::hold(BoxParts::of(kept)), answer)
}

#[tactic(auto, using(crate::proofs::Told::makes))]
fn clear_keys<L: LoaderName>(alloc: Global, loader: &mut SerialLoader<L>, caller: u32) -> u32
    ensures { AnswersCall L.service caller ClearAll result loader.old loader.new }
{
    if caller >= loader.callers() {
        return NO_CALLER;
    }
    match loader.clear_all(alloc, caller) {
        Ok(()) => {
            loader.keeps();
            DONE
        }
        Err(fault) => call_code(fault),
    }
}
