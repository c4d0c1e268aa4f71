//! The calls on batches: you dispatch them, read what they have, and end them.

ghost use Rattle.std.specs.Prelude.{◌≡◌};
ghost use Rattle.dl_loader.specs.HostSource.{by_marks};
ghost use Rattle.dl_c_values.specs.Answers.{none_sent, refused_as};
ghost use Rattle.dl_loader_c.specs.Batches.{AnswersDispatch, AnswersEnd, AnswersMember, failed, settled};
ghost use Rattle.dl_loader_c.specs.Contents.{OnLoader};
ghost use Rattle.dl_loader_c.specs.Handles.{OnClosed, OnOpen, Stays};
ghost use Rattle.dl_loader_c.specs.Named.{IsHosted, named_by};

use crate::codes::call_code;
use crate::handle::{Handle, HeldOf, take};
use dl_c_values::answers::{Dispatched, Loaded};
use dl_c_values::box_parts::BoxParts;
use dl_c_values::codes::{CLOSED, DONE, NO_BATCH, NO_CALLER, NO_MEMBER, OUT_OF_MEMORY};
use dl_c_values::key_texts::KeyTexts;
use dl_loader::{GiveUp, HostSource, LoaderName, SerialLoader, job_of};
use dl_source::fetch_job;
use std::alloc::Global;
use std::marker::Brand;

/// Sends every batch that has not gone out yet, in order. You get the number of the first one and how many they are; the
/// others follow it.
///
/// Codes: `DONE`; `CLOSED`, `NO_CALLER`, `STOPPED`, `LOG_FULL`, `OUT_OF_MEMORY`, `BUG`.
#[unsafe(no_mangle)]
pub extern "C" fn dl_serial_dispatch(alloc: Global, handle: &mut Handle, caller: u32) -> Dispatched
    ensures closed { OnClosed handle.old handle.new (result ≡ none_sent CLOSED) }
    ensures stays { Stays handle.old handle.new }
    ensures loader { OnOpen handle.old handle.new (λ service. AnswersDispatch service caller result) (result ≡ none_sent CLOSED) }
{
    let Some(held) = take(alloc, handle) else {
        return Dispatched::refused(CLOSED);
    };
    let (held, answer) = dispatch::<Brand>(alloc, held, caller);
    handle.open(held);
    answer
}

fn dispatch<L: LoaderName>(alloc: Global, held: HeldOf<L>, caller: u32) -> (HeldOf<L>, Dispatched)
    requires hosted { IsHosted L.service L.parts }
    requires name { held.name ≡ named_by L.cells L.service L.name }
    ensures name { result.0.name ≡ held.name }
    ensures loader { OnLoader held.kept result.0.kept (AnswersDispatch L.service caller result.1) (result.1 ≡ none_sent CLOSED) }
{
    let mut kept = held.release().into_box();
    let answer = match &mut kept.loader {
        Some(loader) => send(alloc, loader, caller),
        None => Dispatched::refused(CLOSED),
    };
    (HeldOf::<L>::hold(BoxParts::of(kept)), answer)
}

fn send<L: LoaderName>(alloc: Global, loader: &mut SerialLoader<L>, caller: u32) -> Dispatched
    ensures { AnswersDispatch L.service caller result loader.old loader.new }
{
    if caller >= loader.callers() {
        return Dispatched::refused(NO_CALLER);
    }
    match loader.dispatch(alloc, caller) {
        Ok(jobs) => {
            loader.keeps();
            Dispatched::sent(&jobs)
        }
        Err(fault) => Dispatched::refused(call_code(fault)),
    }
}

/// The cell of a batch's member, by the member's index from 0 on, whose key it writes to `texts`. It changes nothing else, and
/// on failure not the texts either.
///
/// Codes: `HIT` with the cell; `CLOSED`, `NO_BATCH`, `NO_MEMBER`.
#[unsafe(no_mangle)]
pub extern "C" fn dl_serial_member(
    alloc: Global,
    handle: &mut Handle,
    batch: u32,
    index: u32,
    texts: &mut KeyTexts,
) -> Loaded
    ensures closed { OnClosed handle.old handle.new ((result ≡ refused_as CLOSED) × (texts.new ≡ texts.old)) }
    ensures stays { Stays handle.old handle.new }
    ensures loader { OnOpen handle.old handle.new (λ _. AnswersMember batch index result texts.old texts.new) ((result ≡ refused_as CLOSED) × (texts.new ≡ texts.old)) }
{
    let Some(held) = take(alloc, handle) else {
        return Loaded::refused(CLOSED);
    };
    let (held, answer) = member::<Brand>(alloc, held, batch, index, texts);
    handle.open(held);
    answer
}

fn member<L: LoaderName>(
    alloc: Global,
    held: HeldOf<L>,
    batch: u32,
    index: u32,
    texts: &mut KeyTexts,
) -> (HeldOf<L>, Loaded)
    requires hosted { IsHosted L.service L.parts }
    requires name { held.name ≡ named_by L.cells L.service L.name }
    ensures name { result.0.name ≡ held.name }
    ensures loader { OnLoader held.kept result.0.kept (AnswersMember batch index result.1 texts.old texts.new) ((result.1 ≡ refused_as CLOSED) × (texts.new ≡ texts.old)) }
{
    let mut kept = held.release().into_box();
    let answer = match &mut kept.loader {
        Some(loader) => spell(loader, batch, index, texts),
        None => Loaded::refused(CLOSED),
    };
    (HeldOf::<L>::hold(BoxParts::of(kept)), answer)
}

fn spell<L: LoaderName>(
    loader: &mut SerialLoader<L>,
    batch: u32,
    index: u32,
    texts: &mut KeyTexts,
) -> Loaded
    ensures { AnswersMember batch index result texts.old texts.new loader.old loader.new }
{
    let Some(view) = loader.batch(batch) else {
        return Loaded::refused(NO_BATCH);
    };
    let Some(key) = view.keys().get(index as usize) else {
        return Loaded::refused(NO_MEMBER);
    };
    let Some(cell) = view.cells().get(index as usize) else {
        return Loaded::refused(NO_MEMBER);
    };
    texts.copy_from(key);
    Loaded::found(*cell)
}

/// Ends a batch with an outcome for each member. Your host keeps the outcomes.
///
/// Codes: `DONE`; `CLOSED`, `NO_CALLER`, `STOPPED`, `LOG_FULL`, `NO_BATCH`, `NOT_SENT`, `ENDED_BEFORE`, `OUT_OF_MEMORY`, `BUG`.
#[unsafe(no_mangle)]
pub extern "C" fn dl_serial_settle(
    alloc: Global,
    handle: &mut Handle,
    caller: u32,
    batch: u32,
) -> u32
    ensures closed { OnClosed handle.old handle.new (result ≡ CLOSED) }
    ensures stays { Stays handle.old handle.new }
    ensures loader { OnOpen handle.old handle.new (λ service. AnswersEnd service caller batch settled result) (result ≡ CLOSED) }
{
    let Some(held) = take(alloc, handle) else {
        return CLOSED;
    };
    let (held, answer) = settle::<Brand>(alloc, held, caller, batch);
    handle.open(held);
    answer
}

fn settle<L: LoaderName>(
    alloc: Global,
    held: HeldOf<L>,
    caller: u32,
    batch: u32,
) -> (HeldOf<L>, u32)
    requires hosted { IsHosted L.service L.parts }
    requires name { held.name ≡ named_by L.cells L.service L.name }
    ensures name { result.0.name ≡ held.name }
    ensures loader { OnLoader held.kept result.0.kept (AnswersEnd L.service caller batch settled result.1) (result.1 ≡ CLOSED) }
{
    let mut kept = held.release().into_box();
    let answer = match &mut kept.loader {
        Some(loader) => settle_batch(alloc, loader, caller, batch),
        None => CLOSED,
    };
    (HeldOf::<L>::hold(BoxParts::of(kept)), answer)
}

#[tactic(auto, using(crate::proofs::Told::makes))]
fn settle_batch<L: LoaderName>(
    alloc: Global,
    loader: &mut SerialLoader<L>,
    caller: u32,
    batch: u32,
) -> u32
    requires { L.service.answer ≡ by_marks }
    ensures { AnswersEnd L.service caller batch settled result loader.old loader.new }
{
    if caller >= loader.callers() {
        return NO_CALLER;
    }
    let Ok(job) = job_of(alloc, loader, batch) else {
        return OUT_OF_MEMORY;
    };
    let Ok(fetched) = fetch_job(alloc, &HostSource, job) else {
        return OUT_OF_MEMORY;
    };
    match loader.settle(alloc, caller, &fetched) {
        Ok(_) => {
            loader.keeps();
            DONE
        }
        Err(fault) => call_code(fault),
    }
}

/// Fails a batch as a whole: the loader forgets each of its keys for which it still holds the batch's own cell.
///
/// Codes: `DONE`; `CLOSED`, `NO_CALLER`, `STOPPED`, `LOG_FULL`, `NO_BATCH`, `NOT_SENT`, `ENDED_BEFORE`, `OUT_OF_MEMORY`, `BUG`.
#[unsafe(no_mangle)]
pub extern "C" fn dl_serial_fail(alloc: Global, handle: &mut Handle, caller: u32, batch: u32) -> u32
    ensures closed { OnClosed handle.old handle.new (result ≡ CLOSED) }
    ensures stays { Stays handle.old handle.new }
    ensures loader { OnOpen handle.old handle.new (λ service. AnswersEnd service caller batch failed result) (result ≡ CLOSED) }
{
    let Some(held) = take(alloc, handle) else {
        return CLOSED;
    };
    let (held, answer) = fail::<Brand>(alloc, held, caller, batch);
    handle.open(held);
    answer
}

fn fail<L: LoaderName>(alloc: Global, held: HeldOf<L>, caller: u32, batch: u32) -> (HeldOf<L>, u32)
    requires hosted { IsHosted L.service L.parts }
    requires name { held.name ≡ named_by L.cells L.service L.name }
    ensures name { result.0.name ≡ held.name }
    ensures loader { OnLoader held.kept result.0.kept (AnswersEnd L.service caller batch failed result.1) (result.1 ≡ CLOSED) }
{
    let mut kept = held.release().into_box();
    let answer = match &mut kept.loader {
        Some(loader) => fail_batch(alloc, loader, caller, batch),
        None => CLOSED,
    };
    (HeldOf::<L>::hold(BoxParts::of(kept)), answer)
}

#[tactic(auto, using(crate::proofs::Told::makes))]
fn fail_batch<L: LoaderName>(
    alloc: Global,
    loader: &mut SerialLoader<L>,
    caller: u32,
    batch: u32,
) -> u32
    ensures { AnswersEnd L.service caller batch failed result loader.old loader.new }
{
    if caller >= loader.callers() {
        return NO_CALLER;
    }
    let Ok(job) = job_of(alloc, loader, batch) else {
        return OUT_OF_MEMORY;
    };
    match loader.fail(alloc, caller, &job, GiveUp::Unsent) {
        Ok(_) => {
            loader.keeps();
            DONE
        }
        Err(fault) => call_code(fault),
    }
}
