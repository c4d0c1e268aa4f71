//! The load of several keys as one call.

ghost use Rattle.std.specs.Prelude.{◌≡◌, ◌<◌, List, length, map};
ghost use Rattle.dl_desk.specs.History.{Atom, load_replies};
ghost use Rattle.dl_desk.specs.declared.call.DeskCall.TheVariants.{LoadMany};
ghost use Rattle.dl_desk.specs.BatchBook.{StandsFor};
ghost use Rattle.dl_c_values.specs.Answers.{loaded_as};
ghost use Rattle.dl_c.specs.Calls.{Makes, Refuses};
ghost use Rattle.dl_c.specs.Many.{AnswersMany};
ghost use Rattle.dl_c.specs.Handles.{OnDesk, OnClosed};

use crate::codes::code_of;
use crate::handle::{Handle, take};
use dl_c_values::answers::Loaded;
use dl_c_values::codes::{BAD_LENGTHS, CLOSED, DONE, OUT_OF_MEMORY};
use dl_c_values::key_lists::keys_of;
use dl_c_values::key_texts::KeyLengths;
use dl_desk::{Desk, FetchKey, LoadReply};
use std::alloc::Global;

/// Loads several keys in order, as one call, all or nothing (DataLoader: `loadMany`). `texts` has the texts of all
/// keys, each table before its id, with nothing between them, and `lengths` has their lengths. `answers` must have one
/// place for each key. If the call fails, it leaves the answers as they were.
///
/// Codes: `DONE`; `CLOSED`, `BAD_LENGTHS`, `BAD_KEY`, `CELLS_FULL`, `OUT_OF_MEMORY`.
#[unsafe(no_mangle)]
pub extern "C" fn dl_desk_load_many(
    alloc: Global,
    handle: &mut Handle,
    texts: &[u8],
    lengths: &[KeyLengths],
    answers: &mut [Loaded],
) -> u32
    ensures closed { OnClosed handle.old handle.new ((result ≡ CLOSED) × (answers.new ≡ answers.old)) }
    ensures desk { OnDesk handle.old handle.new (AnswersMany texts.now lengths.now result answers.old answers.new) }
{
    let Some(mut kept) = take(alloc, handle) else {
        return CLOSED;
    };
    let code = load_many(alloc, &mut kept.desk, texts, lengths, answers);
    *handle = Handle::opened(kept);
    code
}

#[tactic(auto, using(dl_c_values::proofs::Cuts::length_parts))]
fn load_many(
    alloc: Global,
    desk: &mut Desk,
    texts: &[u8],
    lengths: &[KeyLengths],
    answers: &mut [Loaded],
) -> u32
    ensures { AnswersMany texts.now lengths.now result answers.old answers.new desk.old.book desk.new.book }
{
    if lengths.len() != answers.len() {
        return BAD_LENGTHS;
    }
    match keys_of(alloc, texts, lengths) {
        Ok(keys) => load_keys(alloc, desk, keys.as_slice(), answers),
        Err(code) => code,
    }
}

fn load_keys(alloc: Global, desk: &mut Desk, keys: &[FetchKey], answers: &mut [Loaded]) -> u32
    requires { length keys.now ≡ length answers.old }
    ensures made { result ≡ DONE → Makes desk.old.book (LoadMany keys.now) desk.new.book }
    ensures cells { result ≡ DONE → (history : List Atom) → StandsFor desk.old.book history
        → answers.new ≡ map loaded_as (load_replies desk.old.book.rules history keys.now) }
    ensures refused { DONE < result → Refuses desk.old.book (LoadMany keys.now) result desk.new.book }
    ensures none { DONE < result → answers.new ≡ answers.old }
{
    match desk.load_many(alloc, keys) {
        Ok(replies) => {
            write(&replies, answers);
            DONE
        }
        Err(fault) => code_of(fault),
    }
}

/// Writes the answers to loads.
fn write(replies: &[LoadReply], answers: &mut [Loaded])
    ensures { length replies.now ≡ length answers.old → answers.new ≡ map loaded_as replies.now }
{
    for place in 0..replies.len().min(answers.len()) {
        answers[place] = Loaded::of_load(replies[place]);
    }
}
