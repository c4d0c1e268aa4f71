//! The calls on batches: you dispatch them, read what they have, and end them.

ghost use Rattle.std.specs.Prelude.{◌≡◌, ◌<◌, List, IfSome, slice_get};
ghost use Rattle.dl_desk.specs.History.{Atom, members};
ghost use Rattle.dl_desk.specs.declared.call.DeskCall.TheVariants.{Settle, Fail};
ghost use Rattle.dl_desk.specs.BatchBook.{StandsFor};
ghost use Rattle.dl_c_values.specs.Answers.{none_sent, refused_as};
ghost use Rattle.dl_c_values.specs.Keys.{Spells};
ghost use Rattle.dl_c.specs.Batches.{AnswersDispatch, AnswersEnd, AnswersMember, AnswersKey, member_answer};
ghost use Rattle.dl_c.specs.Handles.{OnDesk, OnClosed};

use crate::codes::code_of;
use crate::handle::{Handle, take};
use dl_c_values::answers::{Dispatched, Loaded};
use dl_c_values::codes::{CLOSED, DONE, NO_BATCH, NO_MEMBER, OUT_OF_MEMORY};
use dl_c_values::key_texts::KeyTexts;
use dl_desk::Desk;
use std::alloc::Global;

/// Sends every batch that has not gone out yet, in order. You get the number of the first one and how many they are;
/// the others follow it.
///
/// Codes: `DONE`; `CLOSED`, `OUT_OF_MEMORY`.
#[unsafe(no_mangle)]
pub extern "C" fn dl_desk_dispatch(alloc: Global, handle: &mut Handle) -> Dispatched
    ensures closed { OnClosed handle.old handle.new (result ≡ none_sent CLOSED) }
    ensures desk { OnDesk handle.old handle.new (AnswersDispatch result) }
{
    let Some(mut kept) = take(alloc, handle) else {
        return Dispatched::refused(CLOSED);
    };
    let answer = dispatch(alloc, &mut kept.desk);
    *handle = Handle::opened(kept);
    answer
}

#[tactic(auto, using(dl_c_values::proofs::Rows::sent_in_a_row))]
fn dispatch(alloc: Global, desk: &mut Desk) -> Dispatched
    ensures { AnswersDispatch result desk.old.book desk.new.book }
{
    match desk.dispatch(alloc) {
        Ok(jobs) => Dispatched::sent(&jobs),
        Err(_) => Dispatched::refused(OUT_OF_MEMORY),
    }
}

/// The cell of a batch's member, by the member's index from 0 on. It changes nothing.
///
/// Codes: `HIT` with the cell; `CLOSED`, `NO_BATCH`, `NO_MEMBER`.
#[unsafe(no_mangle)]
pub extern "C" fn dl_desk_member(
    alloc: Global,
    handle: &mut Handle,
    batch: u32,
    index: u32,
) -> Loaded
    ensures closed { OnClosed handle.old handle.new (result ≡ refused_as CLOSED) }
    ensures desk { OnDesk handle.old handle.new (AnswersMember batch index result) }
{
    let Some(kept) = take(alloc, handle) else {
        return Loaded::refused(CLOSED);
    };
    let answer = member(&kept.desk, batch, index);
    *handle = Handle::opened(kept);
    answer
}

fn member(desk: &Desk, batch: u32, index: u32) -> Loaded
    ensures { (history : List Atom) → StandsFor desk.now.book history → result ≡ member_answer history batch index }
{
    let Some(view) = desk.batch(batch) else {
        return Loaded::refused(NO_BATCH);
    };
    match view.cells().get(index as usize) {
        Some(cell) => Loaded::found(*cell),
        None => Loaded::refused(NO_MEMBER),
    }
}

/// Writes the key of a batch's member, by the member's index from 0 on, to `texts`. It changes nothing else, and on
/// failure not the texts either.
///
/// Codes: `DONE`; `CLOSED`, `NO_BATCH`, `NO_MEMBER`.
#[unsafe(no_mangle)]
pub extern "C" fn dl_desk_key(
    alloc: Global,
    handle: &mut Handle,
    batch: u32,
    index: u32,
    texts: &mut KeyTexts,
) -> u32
    ensures closed { OnClosed handle.old handle.new ((result ≡ CLOSED) × (texts.new ≡ texts.old)) }
    ensures desk { OnDesk handle.old handle.new (AnswersKey batch index result texts.old texts.new) }
{
    let Some(kept) = take(alloc, handle) else {
        return CLOSED;
    };
    let code = spell(&kept.desk, batch, index, texts);
    *handle = Handle::opened(kept);
    code
}

fn spell(desk: &Desk, batch: u32, index: u32, texts: &mut KeyTexts) -> u32
    ensures code { (history : List Atom) → StandsFor desk.now.book history → result ≡ (member_answer history batch index).code }
    ensures spelled { result ≡ DONE → (history : List Atom) → StandsFor desk.now.book history
        → IfSome (slice_get (members history batch) index) (λ m. Spells texts.new m.0) }
    ensures none { DONE < result → texts.new ≡ texts.old }
{
    let Some(view) = desk.batch(batch) else {
        return NO_BATCH;
    };
    match view.keys().get(index as usize) {
        Some(key) => {
            texts.copy_from(key);
            DONE
        }
        None => NO_MEMBER,
    }
}

/// Ends a batch with an outcome for each member. Your host keeps the outcomes.
///
/// Codes: `DONE`; `CLOSED`, `NO_BATCH`, `NOT_SENT`, `ENDED_BEFORE`.
#[unsafe(no_mangle)]
pub extern "C" fn dl_desk_settle(alloc: Global, handle: &mut Handle, batch: u32) -> u32
    ensures closed { OnClosed handle.old handle.new (result ≡ CLOSED) }
    ensures desk { OnDesk handle.old handle.new (AnswersEnd (Settle batch) result) }
{
    let Some(mut kept) = take(alloc, handle) else {
        return CLOSED;
    };
    let code = settle(&mut kept.desk, batch);
    *handle = Handle::opened(kept);
    code
}

fn settle(desk: &mut Desk, batch: u32) -> u32
    ensures { AnswersEnd (Settle batch) result desk.old.book desk.new.book }
{
    match desk.settle(batch) {
        Ok(()) => DONE,
        Err(fault) => code_of(fault),
    }
}

/// Fails a batch as a whole: the desk forgets each of its keys for which it still holds the batch's own cell.
///
/// Codes: `DONE`; `CLOSED`, `NO_BATCH`, `NOT_SENT`, `ENDED_BEFORE`.
#[unsafe(no_mangle)]
pub extern "C" fn dl_desk_fail(alloc: Global, handle: &mut Handle, batch: u32) -> u32
    ensures closed { OnClosed handle.old handle.new (result ≡ CLOSED) }
    ensures desk { OnDesk handle.old handle.new (AnswersEnd (Fail batch) result) }
{
    let Some(mut kept) = take(alloc, handle) else {
        return CLOSED;
    };
    let code = fail(&mut kept.desk, batch);
    *handle = Handle::opened(kept);
    code
}

fn fail(desk: &mut Desk, batch: u32) -> u32
    ensures { AnswersEnd (Fail batch) result desk.old.book desk.new.book }
{
    match desk.fail(batch) {
        Ok(()) => DONE,
        Err(fault) => code_of(fault),
    }
}
