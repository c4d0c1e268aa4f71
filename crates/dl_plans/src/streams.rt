//! Reads a document's bytes, and writes all of a text.

ghost use Rattle.std.specs.Prelude.{◌≡◌, ◌⊎◌, ◌+◌, IfOk, IfErr, IfSome, OnOk, take};
ghost use Rattle.std.specs.Io.KnownBytes.{Appends};
ghost use Rattle.dl_documents.specs.Faults.{most_bytes};
ghost use Rattle.dl_plans.specs.Run.{AppendsFront, ReadsAtMost};

use crate::fault::RunError;
use dl_documents::MOST_BYTES;
use std::alloc::Global;
use std::io::{Read, Write};

/// How many bytes to read at most: one more than a document may have.
const MOST_READ: usize = MOST_BYTES + 1;

/// How many bytes to ask for at a time.
const BUFFER_BYTES: usize = 4096;

/// The bytes that the reader has, at most one more than a document may have. It repeats the read until that gives
/// nothing.
///
/// # Errors
/// `Read` if a read fails, also if it is interrupted, and `OutOfMemory`.
pub(crate) fn read_all<R: Read>(alloc: Global, reader: &mut R) -> Result<Vec<u8>, RunError>
    ensures bytes { IfOk result (λ v. IfSome (R.remaining reader.old) (λ bytes. v.items ≡ take (most_bytes + 1) bytes)) }
    ensures reads { ReadsAtMost (most_bytes + 1) (R.remaining reader.old) (R.remaining reader.new) }
    ensures err { IfErr result (λ e. (e ≡ RunError.Read) ⊎ (e ≡ RunError.OutOfMemory)) }
{
    let mut bytes = Vec::new(alloc);
    let mut buffer = [0; BUFFER_BYTES];
    while bytes.len() < MOST_READ {
        let room = BUFFER_BYTES.min(MOST_READ - bytes.len());
        match reader.read(&mut buffer[..room]) {
            Ok(0) => return Ok(bytes),
            Ok(count) => bytes
                .extend_from_slice(&buffer[..count])
                .map_err(|_| RunError::OutOfMemory)?,
            Err(_) => return Err(RunError::Read),
        }
    }
    Ok(bytes)
}

/// Writes the text and flushes.
///
/// # Errors
/// `Write` if a write fails, is interrupted or takes nothing, or if the flush fails. The writer may then have got the
/// beginning of the text.
pub fn write_all<W: Write>(writer: &mut W, text: &[u8]) -> Result<(), RunError>
    ensures ok { OnOk result (Appends (W.contents writer.old) (W.contents writer.new) text.now) }
    ensures err { IfErr result (λ e. e ≡ RunError.Write) }
    ensures front { AppendsFront (W.contents writer.old) (W.contents writer.new) text.now }
{
    let mut at = 0;
    while at < text.len() {
        match writer.write(&text[at..]) {
            Ok(0) | Err(_) => return Err(RunError::Write),
            Ok(count) => at += count,
        }
    }
    writer.flush().map_err(|_| RunError::Write)
}
