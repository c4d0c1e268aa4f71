//! The load of several keys as one call.

ghost use Rattle.std.specs.Prelude.{◌≡◌, ◌+◌, ◌-◌, ◌<◌, ◌≤◌, length, None};
ghost use Rattle.dl_desk.specs.declared.event.Call.TheVariants.{LoadMany};
ghost use Rattle.dl_loader_c.specs.Answers.{tickets_as};
ghost use Rattle.dl_loader_c.specs.Calls.{IsCallFault};
ghost use Rattle.dl_loader_c.specs.Contents.{OnLoader};
ghost use Rattle.dl_loader_c.specs.Handles.{OnClosed, OnOpen, Stays};
ghost use Rattle.dl_loader_c.specs.Many.{AnswersMany, ManyAs};
ghost use Rattle.dl_loader_c.specs.Named.{IsHosted, named_by};

use crate::answers::LoadTicket;
use crate::codes::call_code;
use crate::handle::{Handle, HeldOf, take};
use dl_c_values::box_parts::BoxParts;
use dl_c_values::codes::{BAD_LENGTHS, CLOSED, DONE, NO_CALLER, OUT_OF_MEMORY};
use dl_c_values::key_lists::keys_of;
use dl_c_values::key_texts::KeyLengths;
use dl_desk::{FetchKey, LoadReply};
use dl_loader::{LoaderName, SerialLoader};
use std::alloc::Global;
use std::marker::Brand;

/// Loads several keys in order, as one call, all or nothing (DataLoader: `loadMany`). `texts` has the texts of all keys, each
/// table before its id, with nothing between them, and `lengths` has their lengths. `answers` must have one place for each
/// key. If the call fails, it leaves the answers as they were.
///
/// Codes: `DONE`; `CLOSED`, `BAD_LENGTHS`, `BAD_KEY`, `NO_CALLER`, `STOPPED`, `LOG_FULL`, `CELLS_FULL`, `OUT_OF_MEMORY`,
/// `BUG`.
#[unsafe(no_mangle)]
pub extern "C" fn dl_serial_load_many(
    alloc: Global,
    handle: &mut Handle,
    caller: u32,
    texts: &[u8],
    lengths: &[KeyLengths],
    answers: &mut [LoadTicket],
) -> u32
    ensures closed { OnClosed handle.old handle.new ((result ≡ CLOSED) × (answers.new ≡ answers.old)) }
    ensures stays { Stays handle.old handle.new }
    ensures loader { OnOpen handle.old handle.new (λ service. AnswersMany service caller texts.now lengths.now result answers.old answers.new) ((result ≡ CLOSED) × (answers.new ≡ answers.old)) }
{
    let Some(held) = take(alloc, handle) else {
        return CLOSED;
    };
    let (held, answer) = load_many::<Brand>(alloc, held, caller, texts, lengths, answers);
    handle.open(held);
    answer
}

fn load_many<L: LoaderName>(
    alloc: Global,
    held: HeldOf<L>,
    caller: u32,
    texts: &[u8],
    lengths: &[KeyLengths],
    answers: &mut [LoadTicket],
) -> (HeldOf<L>, u32)
    requires hosted { IsHosted L.service L.parts }
    requires name { held.name ≡ named_by L.cells L.service L.name }
    ensures name { result.0.name ≡ held.name }
    ensures loader { OnLoader held.kept result.0.kept (AnswersMany L.service caller texts.now lengths.now result.1 answers.old answers.new) ((result.1 ≡ CLOSED) × (answers.new ≡ answers.old)) }
{
    let mut kept = held.release().into_box();
    let answer = match &mut kept.loader {
        Some(loader) => load_cut(alloc, loader, caller, texts, lengths, answers),
        None => CLOSED,
    };
    (HeldOf::<L>::hold(BoxParts::of(kept)), answer)
}

#[tactic(auto, using(dl_c_values::proofs::Cuts::length_parts))]
fn load_cut<L: LoaderName>(
    alloc: Global,
    loader: &mut SerialLoader<L>,
    caller: u32,
    texts: &[u8],
    lengths: &[KeyLengths],
    answers: &mut [LoadTicket],
) -> u32
    ensures { AnswersMany L.service caller texts.now lengths.now result answers.old answers.new loader.old loader.new }
{
    if lengths.len() != answers.len() {
        return BAD_LENGTHS;
    }
    match keys_of(alloc, texts, lengths) {
        Ok(keys) => load_keys(alloc, loader, caller, keys.as_slice(), answers),
        Err(code) => code,
    }
}

fn load_keys<L: LoaderName>(
    alloc: Global,
    loader: &mut SerialLoader<L>,
    caller: u32,
    keys: &[FetchKey],
    answers: &mut [LoadTicket],
) -> u32
    requires { length keys.now ≡ length answers.old }
    ensures made { result ≡ DONE → ManyAs L.service caller keys.now answers.new loader.old loader.new }
    ensures refused { DONE < result → (answers.new ≡ answers.old) × (loader.new ≡ loader.old)
        × IsCallFault L.service caller (LoadMany keys.now) None loader.old result }
{
    if caller >= loader.callers() {
        return NO_CALLER;
    }
    match loader.load_many(alloc, caller, keys) {
        Ok(replies) => {
            loader.keeps();
            write(loader.tickets(caller), replies.as_slice(), answers);
            DONE
        }
        Err(fault) => call_code(fault),
    }
}

/// Writes the answers to the last loads of a caller that has `tickets` tickets.
fn write(tickets: usize, replies: &[LoadReply], answers: &mut [LoadTicket])
    requires { length replies.now ≤ tickets }
    ensures { length replies.now ≡ length answers.old → answers.new ≡ tickets_as (tickets - length replies.now) replies.now }
{
    let first = tickets - replies.len();
    for place in 0..replies.len().min(answers.len()) {
        answers[place] = LoadTicket::of_load(first + place, replies[place]);
    }
}
