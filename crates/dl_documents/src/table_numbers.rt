//! Reads the numbers that a script gives tables.

ghost use Rattle.std.specs.Prelude.{◌≡◌, ◌⊎◌, Some, None, option_map, IfOk, IfErr};
ghost use Rattle.dl_values.specs.TableLimits.{repeats};
ghost use Rattle.dl_documents.specs.TableNumbers.{named, numbered, table_number_in, table_numbers_in, listed_numbers, script_numbers};
ghost use Rattle.dl_documents.specs.Inside.Top.{top_data};
ghost use Rattle.dl_documents.specs.Inside.Trees.{tree_data};

use crate::argument::pair;
use crate::fault::PlanFault;
use crate::head::Version;
use crate::member::member;
use crate::top::Top;
use crate::tree::{items, text, whole};
use dl_source::TableNumber;
use dl_values::{TABLE_BYTES, Text};
use indexmap::IndexSet;
use json::Value;
use std::alloc::{AllocError, Global};
use std::hash::RandomState;

/// The numbers that a script of this version gives tables: none in the first.
///
/// # Errors
/// `Top` if the member `tableLimits` isn't a list of pairs of a table's name and a whole number, or has a table twice;
/// `OutOfMemory`.
pub(crate) fn script_numbers(
    alloc: Global,
    hashing: RandomState,
    version: Version,
    script: &Top<'_>,
) -> Result<Vec<TableNumber>, PlanFault>
    ensures ok { IfOk result (λ ns. Some ns.items ≡ script_numbers version (top_data script.now)) }
    ensures err { IfErr result (λ f. (f ≡ PlanFault.OutOfMemory)
        ⊎ ((f ≡ PlanFault.Top) × (None ≡ script_numbers version (top_data script.now)))) }
{
    match version {
        Version::First => Ok(Vec::new(alloc)),
        Version::Second => match listed_numbers(alloc, hashing, script)? {
            Some(numbers) => Ok(numbers),
            None => Err(PlanFault::Top),
        },
    }
}

/// The numbers in the member `tableLimits`, if it is a list of such and has no table twice. Without the member there
/// are none.
fn listed_numbers(
    alloc: Global,
    hashing: RandomState,
    script: &Top<'_>,
) -> Result<Option<Vec<TableNumber>>, AllocError>
    ensures { IfOk result (λ ns. option_map (λ v. v.items) ns ≡ listed_numbers (top_data script.now)) }
{
    let Some(list) = member(script, "tableLimits") else {
        return Ok(Some(Vec::new(alloc)));
    };
    let Some(numbers) = table_numbers(alloc, list)? else {
        return Ok(None);
    };
    if repeats(alloc, hashing, &numbers)? {
        return Ok(None);
    }
    Ok(Some(numbers))
}

/// The numbers of a list, if each item gives a table one.
fn table_numbers(alloc: Global, tree: &Value<'_>) -> Result<Option<Vec<TableNumber>>, AllocError>
    ensures { IfOk result (λ ns. option_map (λ v. v.items) ns ≡ table_numbers_in (tree_data tree.now)) }
{
    let Some(items) = items(tree) else {
        return Ok(None);
    };
    let mut numbers = Vec::with_capacity(alloc, items.len())?;
    for item in items {
        let Some((table, number)) = table_number(item) else {
            return Ok(None);
        };
        let table = Text::new(alloc, table)?;
        numbers.push(TableNumber { table, number })?;
    }
    Ok(Some(numbers))
}

/// The table and the number of a list of the two, if the name has the length of a table's and the number is whole.
fn table_number<'a>(tree: &Value<'a>) -> Option<(&'a str, i128)>
    ensures { option_map (λ p. numbered p.0.now p.1) result ≡ table_number_in (tree_data tree.now) }
{
    let (table, number) = pair(tree)?;
    let table = text(table)?;
    let number = whole(number)?;
    if (1..=TABLE_BYTES).contains(&table.len()) {
        Some((table, number))
    } else {
        None
    }
}

/// Whether a table is there twice. Fails if memory runs out.
fn repeats(alloc: Global, hashing: RandomState, numbers: &[TableNumber]) -> Result<bool, AllocError>
    ensures { IfOk result (λ b. b ≡ repeats (named numbers.now)) }
{
    let mut names = IndexSet::with_hasher(alloc, hashing);
    for number in numbers {
        if !names.insert(number.table.as_str())? {
            return Ok(true);
        }
    }
    Ok(false)
}
