//! Reads call scripts.

ghost use Rattle.std.specs.Prelude.{◌≡◌, ◌⊎◌, true, map, codes, IfOk, IfErr};
ghost use Rattle.dl_documents.specs.Document.{SpellsScript, is_script};
ghost use Rattle.dl_documents.specs.Inside.Results.{HasHead, RefusedFor};
ghost use Rattle.dl_documents.specs.Inside.Scripts.{AreCalls, IsFirstBadCall};
ghost use Rattle.dl_documents.specs.Inside.Top.{top_data};
ghost use Rattle.dl_documents.specs.Inside.Trees.{tree_data};

use crate::call::call;
use crate::fault::PlanFault;
use crate::head::Head;
use crate::input::{Calls, Script};
use crate::member::into_list;
use crate::table_limits::all_limits;
use crate::table_numbers::script_numbers;
use crate::top::Top;
use dl_desk::DeskCall;
use json::Value;
use std::alloc::Global;
use std::hash::RandomState;

/// The call script of a document, once its head is read.
///
/// # Errors
/// The first cause that applies, or `OutOfMemory`.
pub(crate) fn script(
    alloc: Global,
    hashing: RandomState,
    top: Top<'_>,
    head: Head,
) -> Result<Script, PlanFault>
    requires kind { is_script (top_data top) ≡ true }
    requires head { HasHead (top_data top) head }
    ensures ok { IfOk result (SpellsScript (top_data top.entry)) }
    ensures err { IfErr result (RefusedFor (top_data top.entry)) }
{
    let numbers = script_numbers(alloc, hashing, head.version, &top)?;
    let Some(items) = into_list(top.members, "calls") else {
        return Err(PlanFault::Top);
    };
    let calls = calls(alloc, items)?;
    let (limits, table_limits) = all_limits(alloc, head, numbers)?;
    Ok(Script {
        limits,
        table_limits,
        calls: Calls::new(alloc, calls)?,
    })
}

/// The calls of these items. It drops each item once that is read.
///
/// # Errors
/// `BadCall` at the first item that isn't a call, and `OutOfMemory`.
fn calls(alloc: Global, items: Vec<Value<'_>>) -> Result<Vec<DeskCall>, PlanFault>
    ensures ok { IfOk result (λ cs. AreCalls (map tree_data items.entry.items) cs.items) }
    ensures err { IfErr result (λ f. (f ≡ PlanFault.OutOfMemory) ⊎ IsFirstBadCall (map tree_data items.entry.items) f) }
{
    let mut calls = Vec::with_capacity(alloc, items.len())?;
    for item in items {
        let call = call(alloc, item)?;
        let call = call.ok_or(PlanFault::BadCall { call: calls.len() })?;
        calls.push(call)?;
    }
    Ok(calls)
}
