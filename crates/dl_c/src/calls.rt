//! The calls on a key, and on all keys.

ghost use Rattle.std.specs.Prelude.{◌≡◌, ◌<◌, ◌≤◌, List};
ghost use Rattle.dl_desk.specs.History.{Atom, load_reply, prime_reply};
ghost use Rattle.dl_desk.specs.declared.call.DeskCall.TheVariants.{Load, Prime, ClearAll};
ghost use Rattle.dl_desk.specs.BatchBook.{StandsFor};
ghost use Rattle.dl_c_values.specs.declared.codes.TheConstants.{FRESH};
ghost use Rattle.dl_c.specs.Answers.{primed_as};
ghost use Rattle.dl_c_values.specs.Answers.{loaded_as, refused_as};
ghost use Rattle.dl_c.specs.Calls.{AnswersLoad, AnswersPrime, AnswersHeld, AnswersClear, Makes, Refuses};
ghost use Rattle.dl_c.specs.Handles.{OnDesk, OnClosed};

use crate::answers::{held_cell, primed};
use crate::codes::code_of;
use crate::handle::{Handle, take};
use crate::kept_desk::KeptDesk;
use dl_c_values::answers::Loaded;
use dl_c_values::codes::{CLOSED, DONE};
use dl_c_values::key_texts::key_of;
use dl_desk::{Desk, FetchKey};
use std::alloc::Global;

/// Loads the key of a table and an id (DataLoader: `load`). If the desk holds the key, you get the cell that it has.
/// Else the key gets a new cell in a batch.
///
/// Codes: `HIT` with the cell, `FRESH` with the cell and its batch; `CLOSED`, `BAD_KEY`, `CELLS_FULL`, `OUT_OF_MEMORY`.
#[unsafe(no_mangle)]
pub extern "C" fn dl_desk_load(
    alloc: Global,
    handle: &mut Handle,
    table: &[u8],
    id: &[u8],
) -> Loaded
    ensures closed { OnClosed handle.old handle.new (result ≡ refused_as CLOSED) }
    ensures desk { OnDesk handle.old handle.new (AnswersLoad (record { table = table.now; id = id.now }) result) }
{
    let Some(mut kept) = take(alloc, handle) else {
        return Loaded::refused(CLOSED);
    };
    let answer = load(alloc, &mut kept, table, id);
    *handle = Handle::opened(kept);
    answer
}

fn load(alloc: Global, kept: &mut KeptDesk, table: &[u8], id: &[u8]) -> Loaded
    ensures { AnswersLoad (record { table = table.now; id = id.now }) result kept.old.desk.book kept.new.desk.book }
{
    match key_of(alloc, kept.spare.take(), table, id) {
        Ok(key) => {
            let answer = load_key(alloc, &mut kept.desk, &key);
            kept.spare = Some(key);
            answer
        }
        Err(code) => Loaded::refused(code),
    }
}

fn load_key(alloc: Global, desk: &mut Desk, key: &FetchKey) -> Loaded
    ensures made { result.code ≤ FRESH → Makes desk.old.book (Load key.now) desk.new.book }
    ensures cell { result.code ≤ FRESH → (history : List Atom) → StandsFor desk.old.book history
        → result ≡ loaded_as (load_reply desk.old.book.rules history key.now) }
    ensures refused { FRESH < result.code → Refuses desk.old.book (Load key.now) result.code desk.new.book }
    ensures none { FRESH < result.code → result ≡ refused_as result.code }
{
    match desk.load(alloc, key) {
        Ok(reply) => Loaded::of_load(reply),
        Err(fault) => Loaded::refused(code_of(fault)),
    }
}

/// Begins a cell for the key, in no batch, since your host has its outcome. If the desk holds the key, it changes
/// nothing (DataLoader: `prime`).
///
/// Codes: `FRESH` with the new cell, `HIT` if the desk holds the key and nothing changed; `CLOSED`, `BAD_KEY`,
/// `CELLS_FULL`, `OUT_OF_MEMORY`.
#[unsafe(no_mangle)]
pub extern "C" fn dl_desk_prime(
    alloc: Global,
    handle: &mut Handle,
    table: &[u8],
    id: &[u8],
) -> Loaded
    ensures closed { OnClosed handle.old handle.new (result ≡ refused_as CLOSED) }
    ensures desk { OnDesk handle.old handle.new (AnswersPrime (record { table = table.now; id = id.now }) result) }
{
    let Some(mut kept) = take(alloc, handle) else {
        return Loaded::refused(CLOSED);
    };
    let answer = prime(alloc, &mut kept, table, id);
    *handle = Handle::opened(kept);
    answer
}

fn prime(alloc: Global, kept: &mut KeptDesk, table: &[u8], id: &[u8]) -> Loaded
    ensures { AnswersPrime (record { table = table.now; id = id.now }) result kept.old.desk.book kept.new.desk.book }
{
    match key_of(alloc, kept.spare.take(), table, id) {
        Ok(key) => {
            let answer = prime_key(&mut kept.desk, &key);
            kept.spare = Some(key);
            answer
        }
        Err(code) => Loaded::refused(code),
    }
}

fn prime_key(desk: &mut Desk, key: &FetchKey) -> Loaded
    ensures made { result.code ≤ FRESH → Makes desk.old.book (Prime key.now) desk.new.book }
    ensures cell { result.code ≤ FRESH → (history : List Atom) → StandsFor desk.old.book history → result ≡ primed_as (prime_reply history key.now) }
    ensures refused { FRESH < result.code → Refuses desk.old.book (Prime key.now) result.code desk.new.book }
    ensures none { FRESH < result.code → result ≡ refused_as result.code }
{
    match desk.prime(key) {
        Ok(reply) => primed(reply),
        Err(fault) => Loaded::refused(code_of(fault)),
    }
}

/// The cell that the desk holds for the key. It changes nothing.
///
/// Codes: `HIT` with the cell, `FRESH` if it holds none; `CLOSED`, `BAD_KEY`, `OUT_OF_MEMORY`.
#[unsafe(no_mangle)]
pub extern "C" fn dl_desk_held(
    alloc: Global,
    handle: &mut Handle,
    table: &[u8],
    id: &[u8],
) -> Loaded
    ensures closed { OnClosed handle.old handle.new (result ≡ refused_as CLOSED) }
    ensures desk { OnDesk handle.old handle.new (AnswersHeld (record { table = table.now; id = id.now }) result) }
{
    let Some(mut kept) = take(alloc, handle) else {
        return Loaded::refused(CLOSED);
    };
    let answer = held(alloc, &mut kept, table, id);
    *handle = Handle::opened(kept);
    answer
}

fn held(alloc: Global, kept: &mut KeptDesk, table: &[u8], id: &[u8]) -> Loaded
    ensures { AnswersHeld (record { table = table.now; id = id.now }) result kept.old.desk.book kept.new.desk.book }
{
    match key_of(alloc, kept.spare.take(), table, id) {
        Ok(key) => {
            let answer = held_cell(kept.desk.held(&key));
            kept.spare = Some(key);
            answer
        }
        Err(code) => Loaded::refused(code),
    }
}

/// Forgets the key, if the desk holds it (DataLoader: `clear`).
///
/// Codes: `DONE`; `CLOSED`, `BAD_KEY`, `OUT_OF_MEMORY`.
#[unsafe(no_mangle)]
pub extern "C" fn dl_desk_clear(alloc: Global, handle: &mut Handle, table: &[u8], id: &[u8]) -> u32
    ensures closed { OnClosed handle.old handle.new (result ≡ CLOSED) }
    ensures desk { OnDesk handle.old handle.new (AnswersClear (record { table = table.now; id = id.now }) result) }
{
    let Some(mut kept) = take(alloc, handle) else {
        return CLOSED;
    };
    let code = clear(alloc, &mut kept, table, id);
    *handle = Handle::opened(kept);
    code
}

fn clear(alloc: Global, kept: &mut KeptDesk, table: &[u8], id: &[u8]) -> u32
    ensures { AnswersClear (record { table = table.now; id = id.now }) result kept.old.desk.book kept.new.desk.book }
{
    match key_of(alloc, kept.spare.take(), table, id) {
        Ok(key) => {
            kept.desk.clear(&key);
            kept.spare = Some(key);
            DONE
        }
        Err(code) => code,
    }
}

/// Forgets all keys (DataLoader: `clearAll`).
///
/// Codes: `DONE`; `CLOSED`.
#[unsafe(no_mangle)]
pub extern "C" fn dl_desk_clear_all(alloc: Global, handle: &mut Handle) -> u32
    ensures closed { OnClosed handle.old handle.new (result ≡ CLOSED) }
    ensures done { OnDesk handle.old handle.new (λ _ _. result ≡ DONE) }
    ensures desk { OnDesk handle.old handle.new (λ old new. Makes old ClearAll new) }
{
    let Some(mut kept) = take(alloc, handle) else {
        return CLOSED;
    };
    kept.desk.clear_all();
    *handle = Handle::opened(kept);
    DONE
}
