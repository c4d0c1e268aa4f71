//! How much the terms of a plan may still make.

ghost use Rattle.std.specs.Prelude.{◌≡◌, ◌+◌, ◌<◌, IfOk, IsOk, None, OnErr};

use crate::answer_value::AnswerValue;
use crate::names::Names;
use dl_values::Text;
use serde_json::Value;
use std::alloc::AllocError;
use std::fmt;
use std::fmt::{Display, Write};
use std::sync::atomic::{AtomicU64, Ordering};

/// What a node takes from a room, or a key that an `each` loads: about its bytes in memory.
pub(crate) const NODE_BYTES: u64 = 64;

/// What the copy of an object takes, besides its text and what its further members take: the bytes of a block of
/// memory for ten members.
const OBJECT_BYTES: u64 = 640;

/// How many bytes the terms of a plan may still make: of copies on the way, and of text in the end. The runs of a
/// plan's terms share it, one after the other. A copy that doesn't fit fails before it is made, as if memory ran out.
/// No contract says how much is left: it is in a cell, so a run takes from it by a shared reference.
#[derive(Drop)]
pub struct Room {
    left: AtomicU64,
}

impl Room {
    /// Room for this many bytes.
    pub fn new(bytes: u64) -> Room {
        Room {
            left: AtomicU64::new(bytes),
        }
    }

    /// Takes bytes. Fails if there are fewer, and then takes none.
    fn take(&self, bytes: u64) -> Result<(), AllocError> {
        let left = rest(self.left.load(Ordering::SeqCst), bytes)?;
        self.left.store(left, Ordering::SeqCst);
        Ok(())
    }

    /// Takes the bytes of a value's text, and makes no text. Fails at the first piece that doesn't fit, and then takes
    /// none.
    fn take_text<D: Display>(&self, value: &D) -> Result<(), AllocError> {
        let mut counter = self.counter();
        let written = write!(counter, "{}", value);
        self.leave(written, counter.left)
    }

    /// Takes what a copy of a value takes: the bytes of its text, and more for each object, item and member in it. Fails
    /// as [`take_text`](Room::take_text) does.
    fn take_copy<D: Display>(&self, value: &D) -> Result<(), AllocError> {
        let mut copied = Copied {
            counter: self.counter(),
        };
        let written = write!(copied, "{}", value);
        self.leave(written, copied.counter.left)
    }

    /// A counter of what is left.
    fn counter(&self) -> Counter {
        Counter {
            left: self.left.load(Ordering::SeqCst),
        }
    }

    /// Leaves this many bytes, if a counter took all that was written to it.
    fn leave(&self, written: fmt::Result, left: u64) -> Result<(), AllocError> {
        match written {
            Ok(()) => {
                self.left.store(left, Ordering::SeqCst);
                Ok(())
            }
            Err(_) => Err(AllocError),
        }
    }
}

/// Counts the bytes that are written to it, down to none.
#[derive(Drop)]
struct Counter {
    left: u64,
}

impl Write for Counter {
    ghost use Rattle.std.specs.Prelude.{◌≡◌, ◌+◌, length};

    ghost write_str_gives = { λ old text new. old.left ≡ new.left + length text };

    fn write_str(&mut self, s: &str) -> fmt::Result {
        match rest(self.left, s.len() as u64) {
            Ok(left) => {
                self.left = left;
                Ok(())
            }
            Err(_) => Err(fmt::Error),
        }
    }
}

/// Counts what a copy of the value takes whose text is written to it.
#[derive(Drop)]
struct Copied {
    counter: Counter,
}

impl Write for Copied {
    ghost use Rattle.std.specs.Prelude.{◌+◌, ◌≤◌, length};

    ghost write_str_gives = { λ old text new. new.counter.left + length text ≤ old.counter.left };

    fn write_str(&mut self, s: &str) -> fmt::Result {
        self.counter.write_str(s)?;
        match rest(self.counter.left, besides(s)) {
            Ok(left) => {
                self.counter.left = left;
                Ok(())
            }
            Err(_) => Err(fmt::Error),
        }
    }
}

/// What a piece of a text stands for besides its bytes: an object, or an item or a member behind another one.
fn besides(piece: &str) -> u64 {
    if piece == "{" {
        OBJECT_BYTES
    } else if piece == "[" || piece == "," {
        NODE_BYTES
    } else {
        0
    }
}

/// What is left of some bytes if one takes these. Fails if there are fewer.
fn rest(left: u64, bytes: u64) -> Result<u64, AllocError>
    ensures rest { IfOk result (λ rest. left ≡ rest + bytes) }
    ensures fewer { OnErr result (left < bytes) }
{
    match left.checked_sub(bytes) {
        Some(rest) => Ok(rest),
        None => Err(AllocError),
    }
}

/// Takes bytes from a room, if there is one.
pub(crate) fn take(room: Option<&Room>, bytes: u64) -> Result<(), AllocError>
    ensures { room.entry ≡ None → IsOk result }
{
    match room {
        Some(room) => room.take(bytes),
        None => Ok(()),
    }
}

/// Takes what a list of so many nodes or ids takes.
pub(crate) fn take_nodes(room: Option<&Room>, count: usize) -> Result<(), AllocError>
    ensures { room.entry ≡ None → IsOk result }
{
    take(room, NODE_BYTES.saturating_mul(count as u64))
}

/// Takes the text of a value.
pub(crate) fn take_text(room: Option<&Room>, value: &AnswerValue) -> Result<(), AllocError>
    ensures { room.entry ≡ None → IsOk result }
{
    match room {
        Some(room) => room.take_text(value),
        None => Ok(()),
    }
}

/// Takes what [`AnswerValue::to_json`] copies: a value that isn't a row.
pub(crate) fn take_copy(room: Option<&Room>, value: &AnswerValue) -> Result<(), AllocError>
    ensures { room.entry ≡ None → IsOk result }
{
    match (room, value.as_row()) {
        (Some(room), None) => room.take_copy(value),
        _ => Ok(()),
    }
}

/// Takes what [`AnswerValue::into_items`] copies: a row that is a list.
pub(crate) fn take_items(room: Option<&Room>, value: &AnswerValue) -> Result<(), AllocError>
    ensures { room.entry ≡ None → IsOk result }
{
    match (room, value.as_row()) {
        (Some(room), Some(list @ Value::Array(_))) => room.take_copy(list),
        _ => Ok(()),
    }
}

/// Takes what [`AnswerValue::get`] copies: a value of an object that was made of values.
pub(crate) fn take_lent(
    room: Option<&Room>,
    value: &AnswerValue,
    name: &Text,
) -> Result<(), AllocError>
    ensures { room.entry ≡ None → IsOk result }
{
    if room.is_none() {
        return Ok(());
    }
    match value.part(name.as_str()) {
        Some(part) => take_copy(room, part),
        None => Ok(()),
    }
}

/// Takes what [`AnswerValue::member`] copies: a member of a row, or what [`AnswerValue::get`] copies.
pub(crate) fn take_member(
    room: Option<&Room>,
    value: &AnswerValue,
    name: &Text,
) -> Result<(), AllocError>
    ensures { room.entry ≡ None → IsOk result }
{
    let Some(bounded) = room else {
        return Ok(());
    };
    match value.as_row() {
        None => take_lent(room, value, name),
        Some(row) => match row.get(name.as_str()) {
            Some(member) => bounded.take_copy(member),
            None => Ok(()),
        },
    }
}

/// Takes what [`AnswerValue::object`] copies: all values, if the names don't ascend.
pub(crate) fn take_values(
    room: Option<&Room>,
    names: &Names,
    values: &[AnswerValue],
) -> Result<(), AllocError>
    ensures { room.entry ≡ None → IsOk result }
{
    let Some(room) = room else {
        return Ok(());
    };
    if names.are_ascending() {
        return Ok(());
    }
    for value in values {
        room.take_copy(value)?;
    }
    Ok(())
}
