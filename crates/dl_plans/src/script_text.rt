//! Writes what a script gives.

ghost use Rattle.std.specs.Prelude.{◌≡◌, ◌++◌, IfOk, OnOk, string_bytes};
ghost use Rattle.dl_plans.specs.ScriptText.{script_text, call_lines};

use crate::reply_lines::{push_refusal, push_reply};
use dl_desk::{DeskFault, Reply};
use dl_documents::Script;
use std::alloc::{AllocError, Global};
use std::hash::RandomState;

/// The text that a script gives: one desk answers its calls in order, each by the lines of its reply or of its refusal.
/// `hashing` hashes the desk's keys, and nothing that you see depends on it.
///
/// # Errors
/// `AllocError` if memory runs out.
pub fn run_script(
    alloc: Global,
    hashing: RandomState,
    script: &Script,
) -> Result<String, AllocError>
    ensures { IfOk result (λ text. string_bytes text ≡ script_text script.now) }
{
    let run = script.play(alloc, hashing)?;
    let mut out = String::new(alloc);
    for answer in &run.answers {
        push_call(alloc, &mut out, answer)?;
    }
    Ok(out)
}

/// Appends the lines for a call.
fn push_call(
    alloc: Global,
    out: &mut String,
    answer: &Result<Reply, DeskFault>,
) -> Result<(), AllocError>
    ensures { OnOk result (string_bytes out.new ≡ string_bytes out.old ++ call_lines answer.now) }
{
    match answer {
        Ok(reply) => push_reply(alloc, out, reply),
        Err(fault) => push_refusal(out, *fault),
    }
}
