//! Files of histories.

ghost use Rattle.std.specs.Prelude.{◌≡◌, IfErr, IfOk, position};
ghost use Rattle.dl_replay.specs.File.{AreTold, IsFileFault, IsHistoryOf, IsScript, IsScriptFault, IsToldFault, ends_line, first_line, next_lines};

use crate::fault::HistoryFault;
use crate::reading;
use crate::replaying::replay;
use crate::told::Told;
use dl_documents::{Input, PlanFault, Script, read_input};
use dl_history::History;
use serde_json::Value;
use std::alloc::Global;
use std::hash::RandomState;

/// The history in a file that a host wrote. It makes the calls again on a loader with the limits of the script, so you get
/// a history only if each call is answered as the file has it, and each batch has ended. `hashing` hashes keys, and nothing
/// that you see depends on it.
///
/// # Errors
/// The first cause of [`HistoryFault`] that applies, in its order. `OutOfMemory` may come before any other.
pub fn history_in(
    alloc: Global,
    hashing: RandomState,
    bytes: &[u8],
) -> Result<History, HistoryFault>
    ensures ok { IfOk result (IsHistoryOf bytes.now) }
    ensures err { IfErr result (IsFileFault bytes.now) }
{
    let (first, next) = split_lines(bytes);
    let script = match script_in(alloc, hashing, first) {
        Ok(script) => script,
        Err(fault) => return Err(fault),
    };
    let told = match told_of(alloc, next, &script) {
        Ok(told) => told,
        Err(fault) => return Err(fault),
    };
    let Script {
        limits,
        table_limits,
        calls,
    } = script;
    match replay(
        alloc,
        hashing,
        limits,
        table_limits,
        calls.as_slice(),
        &told,
    ) {
        Ok(history) => Ok(history),
        Err(fault) => Err(HistoryFault::Replay(fault)),
    }
}

/// The first line, and the lines after it.
fn split_lines(bytes: &[u8]) -> (&[u8], &[u8])
    ensures first { result.0.now ≡ first_line bytes.now }
    ensures next { result.1.now ≡ next_lines bytes.now }
{
    match line_end(bytes) {
        Some(at) => (&bytes[..at], &bytes[at + 1..]),
        None => (bytes, &[]),
    }
}

/// The place of the first line feed.
fn line_end(bytes: &[u8]) -> Option<usize>
    ensures { result ≡ position ends_line bytes.now }
{
    bytes.iter().position(|byte| *byte == b'\n')
}

/// The script in the first line.
fn script_in(alloc: Global, hashing: RandomState, line: &[u8]) -> Result<Script, HistoryFault>
    ensures ok { IfOk result (IsScript line.now) }
    ensures err { IfErr result (IsScriptFault line.now) }
{
    match read_input(alloc, hashing, line) {
        Ok(Input::Script(script)) => Ok(script),
        Ok(Input::Plans(_)) => Err(HistoryFault::NoScript),
        Err(PlanFault::OutOfMemory) => Err(HistoryFault::OutOfMemory),
        Err(fault) => Err(HistoryFault::Refused(fault)),
    }
}

/// What the other lines tell of each call of a script.
fn told_of(alloc: Global, lines: &[u8], script: &Script) -> Result<Vec<Told>, HistoryFault>
    ensures ok { IfOk result (λ told. AreTold lines.now script.now told.items) }
    ensures err { IfErr result (IsToldFault lines.now script.now) }
{
    match Value::from_slice(alloc, lines) {
        Ok(tree) => match reading::told(alloc, &tree) {
            Ok(Some(told)) if told.len() == script.calls.as_slice().len() => Ok(told),
            Ok(_) => Err(HistoryFault::Answers),
            Err(_) => Err(HistoryFault::OutOfMemory),
        },
        Err(error) if error.is_memory() => Err(HistoryFault::OutOfMemory),
        Err(_) => Err(HistoryFault::Answers),
    }
}
