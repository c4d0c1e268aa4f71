//! Reads calls.

ghost use Rattle.std.specs.Prelude.{◌≡◌, IfOk};
ghost use Rattle.dl_documents.specs.Reading.{number_in, call_in, call_named};
ghost use Rattle.dl_documents.specs.Inside.Trees.{tree_data};

use crate::argument::{is_true, key, keys};
use crate::{member, tree};
use dl_desk::DeskCall;
use json::Value;
use std::alloc::{AllocError, Global};

/// The call that an object with one member spells, if it spells one. Fails if memory runs out.
pub(crate) fn call(alloc: Global, tree: Value<'_>) -> Result<Option<DeskCall>, AllocError>
    ensures { IfOk result (λ c. c ≡ call_in (tree_data tree.entry)) }
{
    match member::into_only(tree) {
        Some((name, argument)) => named(alloc, name, &argument),
        None => Ok(None),
    }
}

/// The call of this name, if the argument is right for it. Fails if memory runs out.
fn named(alloc: Global, name: &str, argument: &Value<'_>) -> Result<Option<DeskCall>, AllocError>
    ensures { IfOk result (λ c. c ≡ call_named name.now (tree_data argument.now)) }
{
    Ok(match name {
        "load" => key(alloc, argument)?.map(DeskCall::Load),
        "loadMany" => keys(alloc, argument)?.map(DeskCall::LoadMany),
        "prime" => key(alloc, argument)?.map(DeskCall::Prime),
        "clear" => key(alloc, argument)?.map(DeskCall::Clear),
        "clearAll" if is_true(argument) => Some(DeskCall::ClearAll),
        "dispatch" if is_true(argument) => Some(DeskCall::Dispatch),
        "settle" => number(argument).map(DeskCall::Settle),
        "fail" => number(argument).map(DeskCall::Fail),
        _ => None,
    })
}

/// The number of a batch that the argument spells, if it spells one.
fn number(argument: &Value<'_>) -> Option<u32>
    ensures { result ≡ number_in (tree_data argument.now) }
{
    let number = tree::number(argument)?.as_u64()?;
    u32::try_from(number).ok()
}
