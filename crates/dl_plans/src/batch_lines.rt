//! Writes the lines of batches.

ghost use Rattle.std.specs.Prelude.{◌≡◌, ◌++◌, OnOk, Some, string_bytes};
ghost use Rattle.dl_desk.specs.Events.{atoms};
ghost use Rattle.dl_history.specs.History.{past};
ghost use Rattle.dl_plans.specs.ReportText.{batch_line, batches_text, end_text};

use dl_history::{Batches, EndedBatch};
use dl_picture::keys_text;
use std::alloc::{AllocError, Global};
use std::fmt::Write;

/// Appends the lines of all batches, in order. Fails if memory runs out, as it does before batches outnumber a `u32`.
pub(crate) fn push_batches(
    alloc: Global,
    out: &mut String,
    batches: &Batches<'_>,
) -> Result<(), AllocError>
    ensures { OnOk result (string_bytes out.new ≡ string_bytes out.old ++ batches_text (atoms (past batches.now))) }
{
    for number in 0..u32::MAX {
        match batches.get(number) {
            Some(batch) => push_batch(alloc, out, number, &batch)?,
            None => return Ok(()),
        }
    }
    Err(AllocError)
}

/// Appends the line of a batch: its number, its keys, and how it ended.
fn push_batch(
    alloc: Global,
    out: &mut String,
    number: u32,
    batch: &EndedBatch<'_>,
) -> Result<(), AllocError>
    ensures { OnOk result (string_bytes out.new ≡ string_bytes out.old ++ batch_line number batch.now.keys (Some batch.now.end)) }
{
    let keys = keys_text(alloc, batch.keys())?;
    let end = end_text(batch);
    writeln!(out, "batch {number} {keys} {end}")
}

/// How a batch ended.
fn end_text(batch: &EndedBatch<'_>) -> &'static str
    ensures { result.now ≡ end_text (Some batch.now.end) }
{
    if batch.is_settled() {
        "settled"
    } else {
        "failed"
    }
}
