//! Writes the lines of replies and refusals.

ghost use Rattle.std.specs.Prelude.{◌≡◌, ◌≢◌, ◌++◌, OnOk, string_bytes};
ghost use Rattle.dl_plans.specs.ReplyLines.{load_line, many_lines, job_line, sent_lines, refused_line};
ghost use Rattle.dl_plans.specs.ScriptText.{reply_lines};

use dl_desk::{DeskFault, Job, LoadReply, Reply};
use dl_picture::key_text;
use std::alloc::{AllocError, Global};
use std::fmt::Write;

/// Appends the lines of a reply.
pub(crate) fn push_reply(alloc: Global, out: &mut String, reply: &Reply) -> Result<(), AllocError>
    ensures { OnOk result (string_bytes out.new ≡ string_bytes out.old ++ reply_lines reply.now) }
{
    match reply {
        Reply::Loaded(reply) => push_load(out, *reply),
        Reply::Many(replies) => push_many(out, replies.as_slice()),
        Reply::Primed(cell) => writeln!(out, "primed {cell}"),
        Reply::Kept => writeln!(out, "kept"),
        Reply::Done => writeln!(out, "ok"),
        Reply::Sent(jobs) => push_sent(alloc, out, jobs.as_slice()),
    }
}

/// Appends the line of a reply to a load.
fn push_load(out: &mut String, reply: LoadReply) -> Result<(), AllocError>
    ensures { OnOk result (string_bytes out.new ≡ string_bytes out.old ++ load_line reply) }
{
    match reply {
        LoadReply::Hit(cell) => writeln!(out, "hit {cell}"),
        LoadReply::Fresh { cell, batch } => writeln!(out, "fresh {cell} {batch}"),
    }
}

/// Appends the lines of the replies to a loadMany.
fn push_many(out: &mut String, replies: &[LoadReply]) -> Result<(), AllocError>
    ensures { OnOk result (string_bytes out.new ≡ string_bytes out.old ++ many_lines replies.now) }
{
    writeln!(out, "many {}", replies.len())?;
    for reply in replies {
        push_load(out, *reply)?;
    }
    Ok(())
}

/// Appends the lines of the jobs that a dispatch sent.
fn push_sent(alloc: Global, out: &mut String, jobs: &[Job]) -> Result<(), AllocError>
    ensures { OnOk result (string_bytes out.new ≡ string_bytes out.old ++ sent_lines jobs.now) }
{
    writeln!(out, "sent {}", jobs.len())?;
    for job in jobs {
        push_job(alloc, out, job)?;
    }
    Ok(())
}

/// Appends the line of a refusal. For out of memory there is no line: the call fails as well.
pub(crate) fn push_refusal(out: &mut String, fault: DeskFault) -> Result<(), AllocError>
    ensures line { OnOk result (string_bytes out.new ≡ string_bytes out.old ++ refused_line fault) }
    ensures memory { OnOk result (fault ≢ DeskFault.OutOfMemory) }
{
    match fault {
        DeskFault::NoBatch => writeln!(out, "refused NoBatch"),
        DeskFault::NotSent => writeln!(out, "refused NotSent"),
        DeskFault::SettledBefore => writeln!(out, "refused SettledBefore"),
        DeskFault::CellsFull { limit } => writeln!(out, "refused CellsFull {limit}"),
        DeskFault::OutOfMemory => Err(AllocError),
    }
}

/// Appends the line of a job: its batch and its keys.
fn push_job(alloc: Global, out: &mut String, job: &Job) -> Result<(), AllocError>
    ensures { OnOk result (string_bytes out.new ≡ string_bytes out.old ++ job_line job.now) }
{
    write!(out, "job {}", job.batch)?;
    for key in job.keys.as_slice() {
        let text = key_text(alloc, key)?;
        write!(out, " {text}")?;
    }
    writeln!(out)
}
