//! Tables with limits of their own, as C hands them in.

ghost use Rattle.std.specs.Prelude.{◌≡◌, ◌<◌, ◌≤◌, ◌⊎◌, length, drop, OnOk, IfOk, IfErr, None};
ghost use Rattle.std.specs.Str.{IsUtf8};
ghost use Rattle.dl_values.specs.TableLimits.{pairs, GiveTheSame, fault_of};
ghost use Rattle.dl_c_values.specs.declared.codes.TheConstants.{DONE};
ghost use Rattle.dl_c_values.specs.Tables.{AreNames, IsNamed, IsFrontFault, IsNamesFault, IsTablesFault, front_table, tables_of};

use crate::codes::{BAD_LENGTHS, BAD_TEXT, OUT_OF_MEMORY, table_code_of};
use dl_desk::{TableLimit, TableLimits, Text};
use std::alloc::Global;
use std::str;

/// The length in bytes of a table's name, and the most keys of a batch of the table.
#[repr(C)]
#[derive(Clone, Copy, Debug, PartialEq, Eq)]
pub struct NamedLimit {
    pub name_len: u32,
    pub limit: u32,
}

/// The limits of the tables with these names, one after another with nothing between them. Fails with a code, for the
/// first name that the call can't read or else for the first cause by which [`TableLimits::new`] rejects the tables.
pub fn limits_of_tables(
    alloc: Global,
    names: &[u8],
    tables: &[NamedLimit],
) -> Result<TableLimits, u32>
    ensures limits { IfOk result (λ limits. GiveTheSame limits (pairs (tables_of names.now tables.now))) }
    ensures accepted { OnOk result (fault_of (tables_of names.now tables.now) ≡ None) }
    ensures are_names { OnOk result (AreNames names.now tables.now) }
    ensures fault { IfErr result (λ code. IsTablesFault names.now tables.now code) }
    ensures refused { IfErr result (λ code. DONE < code) }
{
    let list = tables_of(alloc, names, tables)?;
    match TableLimits::new(alloc, list) {
        Ok(limits) => Ok(limits),
        Err(fault) => Err(table_code_of(fault)),
    }
}

/// The tables with these names, one after another. Fails with a code, for the first name that has a fault.
fn tables_of(alloc: Global, names: &[u8], tables: &[NamedLimit]) -> Result<Vec<TableLimit>, u32>
    ensures tables { IfOk result (λ list. list.items ≡ tables_of names.now tables.now) }
    ensures are_names { OnOk result (AreNames names.now tables.now) }
    ensures fault { IfErr result (λ code. IsNamesFault names.now tables.now code) }
{
    let Ok(mut list) = Vec::with_capacity(alloc, tables.len()) else {
        return Err(OUT_OF_MEMORY);
    };
    let mut rest = names;
    for table in tables {
        let (named, after) = next_table(alloc, rest, *table)?;
        let Ok(()) = list.push(named) else {
            return Err(OUT_OF_MEMORY);
        };
        rest = after;
    }
    if rest.is_empty() {
        Ok(list)
    } else {
        Err(BAD_LENGTHS)
    }
}

/// The table at the front of the names, and the names after it. Fails with a code.
fn next_table(alloc: Global, names: &[u8], table: NamedLimit) -> Result<(TableLimit, &[u8]), u32>
    ensures table { IfOk result (λ next. next.0 ≡ front_table names.now table) }
    ensures is_named { OnOk result (IsNamed (front_table names.now table)) }
    ensures rest { IfOk result (λ next. next.1.now ≡ drop table.name_len names.now) }
    ensures room { OnOk result (table.name_len ≤ length names.now) }
    ensures fault { IfErr result (λ code. IsFrontFault names.now table code) }
{
    let Some((name, rest)) = names.split_at_checked(table.name_len as usize) else {
        return Err(BAD_LENGTHS);
    };
    let name = text_of(alloc, name)?;
    let limit = table.limit;
    Ok((TableLimit { table: name, limit }, rest))
}

/// The text of these bytes. Fails with a code.
fn text_of(alloc: Global, bytes: &[u8]) -> Result<Text, u32>
    ensures text { IfOk result (λ text. text ≡ bytes.now) }
    ensures is_text { OnOk result (IsUtf8 bytes.now) }
    ensures fault { IfErr result (λ code. ((code ≡ BAD_TEXT) × ¬ (IsUtf8 bytes.now)) ⊎ (code ≡ OUT_OF_MEMORY)) }
{
    let text = str::from_utf8(bytes).map_err(|_| BAD_TEXT)?;
    Text::new(alloc, text).map_err(|_| OUT_OF_MEMORY)
}
