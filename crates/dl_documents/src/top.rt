//! Reads the top of a document: the members of its object.

ghost use Rattle.std.specs.Prelude.{◌≡◌, ◌<◌, length, Some, IfOk, IfErr, OnOk};
ghost use Rattle.serde_json.specs.Data.{Data, put};
ghost use Rattle.serde_json.specs.Read.{read, max_depth};
ghost use Rattle.dl_documents.specs.Inside.Results.{IsUnread};
ghost use Rattle.dl_documents.specs.Inside.Tokens.{first_value, first_members};
ghost use Rattle.dl_documents.specs.OverDatabase.{read_as};
ghost use Rattle.dl_documents.specs.Inside.Top.{top_data, top_members, IsApart, IsTopOf};
ghost use Rattle.dl_documents.specs.Inside.Trees.{tree_data};

use crate::fault::PlanFault;
use crate::head::lacks_tables;
use crate::owned_value::{begun_value, read_value};
use crate::tree::has_fitting_numbers;
use json::{Error, Reader, Scratch, Token, Value};
use std::alloc::Global;

/// How deep a document's lists and objects may nest.
const MOST_DEPTH: usize = 127;

/// The members of a document's object. The tables live on after reading, so they own their texts. All else borrows
/// them, and goes.
#[derive(Drop)]
pub(crate) struct Top<'a> {
    /// The value of the member `tables`, if there is one.
    pub(crate) tables: Option<serde_json::Value>,
    /// The other members, as they are in the text: a name may be there twice, and the last counts.
    pub(crate) members: Vec<(&'a str, Value<'a>)>,
}

/// The top of the document in a text, or `None` if the document isn't an object.
///
/// # Errors
/// `NotJson` if the text isn't JSON, or a number in it is out of range; `OutOfMemory`.
pub(crate) fn read_top<'a>(
    alloc: Global,
    text: &'a str,
    scratch: &'a mut Scratch,
) -> Result<Option<Top<'a>>, PlanFault>
    ensures ok { IfOk result (λ t. (d : Data) × (read text.now ≡ Some d) × IsTopOf d t) }
    ensures err { IfErr result (IsUnread (read text.now)) }
{
    let mut reader = Reader::new(text, scratch)?;
    let top = first_top(alloc, &mut reader)?;
    if reader.next().is_some() {
        return Err(PlanFault::NotJson);
    }
    Ok(top)
}

/// The top of the reader's first value.
fn first_top<'a>(alloc: Global, reader: &mut Reader<'a>) -> Result<Option<Top<'a>>, PlanFault>
    ensures ok { IfOk result (λ t. (d : Data) × (first_value max_depth reader.old ≡ Some (d, reader.new)) × IsTopOf d t) }
    ensures err { IfErr result (IsUnread (first_value max_depth reader.old)) }
{
    let token = reader.next().ok_or(PlanFault::NotJson)?;
    if let Token::BeginObject = token {
        let top = begun_top(alloc, reader)?;
        return Ok(Some(top));
    }
    drop(begun_value(alloc, token, reader, MOST_DEPTH)?);
    Ok(None)
}

/// The top of an object, behind its brace.
fn begun_top<'a>(alloc: Global, reader: &mut Reader<'a>) -> Result<Top<'a>, PlanFault>
    ensures ok { IfOk result (λ t. first_members 126 reader.old ≡ Some (top_members t, reader.new)) }
    ensures apart { IfOk result IsApart }
    ensures err { IfErr result (IsUnread (first_members 126 reader.old)) }
{
    let mut top = Top {
        tables: None,
        members: Vec::new(alloc),
    };
    while let Some(name) = reader.next_key()? {
        read_member(alloc, name, reader, &mut top)?;
    }
    Ok(top)
}

/// Reads the value of a member, and adds the member to the top.
fn read_member<'a>(
    alloc: Global,
    name: &'a str,
    reader: &mut Reader<'a>,
    top: &mut Top<'a>,
) -> Result<(), PlanFault>
    ensures ok { OnOk result ((d : Data) × (first_value 126 reader.old ≡ Some (d, reader.new)) × (top_members top.new ≡ put name.now d (top_members top.old))) }
    ensures apart { OnOk result (IsApart top.old → IsApart top.new) }
    ensures shorter { OnOk result (length reader.new < length reader.old) }
    ensures err { IfErr result (IsUnread (first_value 126 reader.old)) }
{
    if name == "tables" {
        top.tables = Some(read_value(alloc, reader, MOST_DEPTH - 1)?);
    } else {
        let value = read_borrowed(alloc, reader)?;
        top.members.push((name, value))?;
    }
    Ok(())
}

/// Reads the next value, which borrows its texts.
fn read_borrowed<'a>(alloc: Global, reader: &mut Reader<'a>) -> Result<Value<'a>, PlanFault>
    ensures ok { IfOk result (λ v. first_value 126 reader.old ≡ Some (tree_data v, reader.new)) }
    ensures shorter { OnOk result (length reader.new < length reader.old) }
    ensures err { IfErr result (IsUnread (first_value 126 reader.old)) }
{
    match Value::read(alloc, reader, MOST_DEPTH - 1) {
        Ok(value) if has_fitting_numbers(&value) => Ok(value),
        Ok(_) | Err(Error::Invalid) => Err(PlanFault::NotJson),
        Err(_) => Err(PlanFault::OutOfMemory),
    }
}

/// The top that counts in place of a document's. With a database, a plan file of version 2 that lacks tables has none.
pub(crate) fn read_as(alloc: Global, top: Top<'_>, has_database: bool) -> Top<'_>
    requires { IsApart top }
    ensures data { top_data result ≡ read_as has_database (top_data top.entry) }
    ensures apart { IsApart result }
{
    if has_database && lacks_tables(&top) {
        let Top { members, .. } = top;
        return Top {
            tables: Some(serde_json::Value::Array(Vec::new(alloc))),
            members,
        };
    }
    top
}
