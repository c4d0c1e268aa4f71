//! Values that own their texts, read from a document's tokens.

ghost use Rattle.std.specs.Prelude.{◌≡◌, ◌∷◌, ◌<◌, ◌≤◌, length, Some, IfOk, IfErr, OnOk};
ghost use Rattle.json.specs.Reads.{token_of};
ghost use Rattle.serde_json.specs.View.{view, items_view, members_view};
ghost use Rattle.dl_documents.specs.Inside.Results.{IsUnread};
ghost use Rattle.dl_documents.specs.Inside.Tokens.{first_value, first_items, first_members};

use crate::fault::PlanFault;
use crate::number::number_of;
use json::{Reader, Token};
use serde_json::{Map, Value};
use std::alloc::Global;

/// Reads the next value. Its lists and objects may nest `depth` deep.
///
/// # Errors
/// `NotJson` if no such value comes next, or one of its numbers is out of range; `OutOfMemory`.
#[cycle(values)]
#[inline(always)]
pub(crate) fn read_value(
    alloc: Global,
    reader: &mut Reader<'_>,
    depth: usize,
) -> Result<Value, PlanFault>
    ensures ok { IfOk result (λ v. first_value depth reader.old ≡ Some (view v, reader.new)) }
    ensures shorter { OnOk result (length reader.new < length reader.old) }
    ensures err { IfErr result (IsUnread (first_value depth reader.old)) }
{
    let token = reader.next().ok_or(PlanFault::NotJson)?;
    begun_value(alloc, token, reader, depth)
}

/// Reads the rest of a value that begins with this token.
///
/// # Errors
/// Those of [`read_value`].
#[cycle(values)]
#[inline(always)]
pub(crate) fn begun_value(
    alloc: Global,
    token: Token<'_>,
    reader: &mut Reader<'_>,
    depth: usize,
) -> Result<Value, PlanFault>
    ensures ok { IfOk result (λ v. first_value depth (token_of token.entry ∷ reader.old) ≡ Some (view v, reader.new)) }
    ensures within { OnOk result (length reader.new ≤ length reader.old) }
    ensures err { IfErr result (IsUnread (first_value depth (token_of token.entry ∷ reader.old))) }
{
    match token {
        Token::String(text) => Ok(Value::String(String::from_str(alloc, text)?)),
        Token::Number(text) => match number_of(text) {
            Some(number) => Ok(Value::Number(number)),
            None => Err(PlanFault::NotJson),
        },
        Token::Bool(truth) => Ok(Value::Bool(truth)),
        Token::Null => Ok(Value::Null),
        Token::BeginArray if depth > 0 => Ok(Value::Array(read_items(alloc, reader, depth - 1)?)),
        Token::BeginObject if depth > 0 => {
            Ok(Value::Object(read_members(alloc, reader, depth - 1)?))
        }
        _ => Err(PlanFault::NotJson),
    }
}

/// Reads the items of a list, behind its bracket.
#[cycle(values)]
#[inline(never)]
fn read_items(alloc: Global, reader: &mut Reader<'_>, depth: usize) -> Result<Vec<Value>, PlanFault>
    ensures ok { IfOk result (λ v. first_items depth reader.old ≡ Some (items_view v.items, reader.new)) }
    ensures within { OnOk result (length reader.new ≤ length reader.old) }
    ensures err { IfErr result (IsUnread (first_items depth reader.old)) }
{
    let mut found = Vec::new(alloc);
    while !reader.take_end_array() {
        let item = read_value(alloc, reader, depth)?;
        found.push(item)?;
    }
    Ok(found)
}

/// Reads the members of an object, behind its brace.
#[cycle(values)]
#[inline(never)]
fn read_members(
    alloc: Global,
    reader: &mut Reader<'_>,
    depth: usize,
) -> Result<Map<String, Value>, PlanFault>
    ensures ok { IfOk result (λ m. first_members depth reader.old ≡ Some (members_view m.entries, reader.new)) }
    ensures within { OnOk result (length reader.new ≤ length reader.old) }
    ensures err { IfErr result (IsUnread (first_members depth reader.old)) }
{
    let mut found = Map::new(alloc);
    while let Some(name) = reader.next_key()? {
        let name = String::from_str(alloc, name)?;
        let member = read_value(alloc, reader, depth)?;
        drop(found.insert(name, member)?);
    }
    Ok(found)
}
