//! Writes the history that a host wrote to a file, over a reader and a writer.

ghost use Rattle.std.specs.Prelude.{◌≡◌, ◌≢◌, ◌+◌, IfErr, IfOk, IfSome, OnOk};
ghost use Rattle.std.specs.Io.KnownBytes.{Keeps};
ghost use Rattle.dl_documents.specs.Faults.{most_bytes};
ghost use Rattle.dl_plans.specs.History.{HasHistory, IsNoHistory};
ghost use Rattle.dl_plans.specs.Run.{ReadsAtMost};

use crate::document::{Given, keep_files};
use crate::fault::RunError;
use crate::settings::Options;
use crate::streams::{read_all, write_all};
use dl_documents::{MOST_BYTES, PlanFault};
use dl_history::History;
use dl_picture::{history_picture, history_trace};
use dl_replay::{HistoryFault, ReplayFault, history_in};
use std::alloc::{AllocError, Global};
use std::hash::RandomState;
use std::io::{Read, Write};
use std::random::RandomSource;
use std::rt::Files;

/// Reads the file of a history, makes its calls again, and writes a line for each event. If the options name files for them, it
/// first writes a picture and a trace of the history. `hashing` hashes keys, and nothing that you see depends on it.
///
/// # Errors
/// `Read` if the reader fails, `Refused` if it has more bytes than a document may have, `NoHistory` if they are no history,
/// `OutOfMemory`, and `Write` if the writer or a file fails. Only with `Write` may the writer have got something: the beginning
/// of the text.
pub fn run_history<R: Read, W: Write, T: Files + RandomSource + Eprint>(
    rt: &T,
    alloc: Global,
    hashing: RandomState,
    reader: &mut R,
    writer: &mut W,
    options: &Options,
) -> Result<(), RunError>
    ensures ok { OnOk result (IfSome (R.remaining reader.old) HasHistory) }
    ensures refused { IfErr result (λ e. IfSome (R.remaining reader.old) (λ bytes. IsNoHistory bytes e)) }
    ensures reads { ReadsAtMost (most_bytes + 1) (R.remaining reader.old) (R.remaining reader.new) }
    ensures untouched { IfErr result (λ e. e ≢ RunError.Write → Keeps (W.contents writer.old) (W.contents writer.new)) }
{
    let bytes = read_all(alloc, reader)?;
    let given = given(alloc, hashing, &bytes, options)?;
    keep_files(rt, alloc, options, &given)?;
    write_all(writer, given.text.as_bytes())
}

/// What the file of a history gives.
fn given(
    alloc: Global,
    hashing: RandomState,
    bytes: &[u8],
    options: &Options,
) -> Result<Given, RunError>
    ensures ok { OnOk result (HasHistory bytes.now) }
    ensures err { IfErr result (IsNoHistory bytes.now) }
    ensures kept { IfErr result (λ e. e ≢ RunError.Write) }
{
    if bytes.len() > MOST_BYTES {
        return Err(RunError::Refused(PlanFault::TooLarge));
    }
    match history_in(alloc, hashing, bytes) {
        Ok(history) => match drawn(alloc, hashing, &history, options) {
            Ok(given) => Ok(given),
            Err(_) => Err(RunError::OutOfMemory),
        },
        Err(HistoryFault::OutOfMemory | HistoryFault::Replay(ReplayFault::OutOfMemory)) => Err(
            RunError::OutOfMemory,
        ),
        Err(fault) => Err(RunError::NoHistory(fault)),
    }
}

/// The text of a history, with its picture and its trace if the options ask for them. Fails if memory runs out.
fn drawn(
    alloc: Global,
    hashing: RandomState,
    history: &History,
    options: &Options,
) -> Result<Given, AllocError> {
    let picture = match &options.picture {
        Some(_) => Some(history_picture(alloc, hashing, history, None)?),
        None => None,
    };
    let trace = match &options.trace {
        Some(_) => Some(history_trace(alloc, history, None, 0)?),
        None => None,
    };
    let text = format!(in alloc; "{history}")?;
    Ok(Given {
        text,
        picture,
        trace,
        explanations: None,
        statistics: None,
    })
}
