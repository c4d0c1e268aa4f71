//! Reads tables from a JSON value in two steps: first it moves out and tests what the document lists, and then it makes
//! tables of that.

ghost use Rattle.std.specs.Prelude.{◌≡◌, option_map, option_and_then, IfOk, string_bytes};
ghost use Rattle.serde_json.specs.Find.{as_str};
ghost use Rattle.serde_json.specs.View.{view};
ghost use Rattle.dl_source.specs.declared.fault.TableFault.TheVariants.{OutOfMemory};
ghost use Rattle.dl_source.specs.Inside.Findings.{finding_of};
ghost use Rattle.dl_source.specs.Spelling.{whole};
ghost use Rattle.dl_values.specs.TableLimits.{repeats};
ghost use Rattle.dl_source.specs.Faults.{has_bad_key, has_long_text, has_other_number};
ghost use Rattle.dl_source.specs.NumberedTables.{tables_of};
ghost use Rattle.dl_source.specs.Inside.Reading.{Reads, after, finding_in, list_in, optional_in, findings_given, content_fault};
ghost use Rattle.dl_source.specs.Inside.Reading.{number_in, number_given, numbered_in, listed_in};

use crate::fault::TableFault;
use crate::listed::{Kind, ListedFinding, ListedTable};
use crate::table_members::{TableMembers, table_members};
use crate::tree::{into_items, into_text};
use indexmap::IndexSet;
use serde_json::Value;
use std::alloc::{AllocError, AllocFailed, Global};
use std::hash::RandomState;

/// The most bytes of the text of an error or a break.
pub const TEXT_BYTES: usize = 1_024;

impl From<AllocError> for TableFault {
    ghost from_gives = { λ _ f. f ≡ OutOfMemory };

    fn from(_error: AllocError) -> TableFault {
        TableFault::OutOfMemory
    }
}

impl<T: Drop> From<AllocFailed<T>> for TableFault {
    ghost from_gives = { λ _ f. f ≡ OutOfMemory };

    fn from(_error: AllocFailed<T>) -> TableFault {
        TableFault::OutOfMemory
    }
}

/// A version of the formats.
#[derive(Clone, Copy)]
pub(crate) enum Version {
    /// Tables have no numbers.
    First,
    /// A table may have a number of its own, the member `maxBatchSize`.
    Second,
}

/// The tables that the value lists, moved out of it. It fails only by `Shape` or `OutOfMemory`.
pub(crate) fn read_tables(
    alloc: Global,
    version: Version,
    value: Value,
) -> Result<Vec<ListedTable>, TableFault>
    ensures { Reads result (λ v. v.items) (listed_in version (view value)) }
{
    let items = into_items(value).ok_or(TableFault::Shape)?;
    let mut tables = Vec::with_capacity(alloc, items.len())?;
    for item in items {
        tables.push(read_table(alloc, version, item)?)?;
    }
    Ok(tables)
}

fn read_table(alloc: Global, version: Version, value: Value) -> Result<ListedTable, TableFault>
    ensures { Reads result (λ t. t) (numbered_in version (view value)) }
{
    let members = table_members(version, value).ok_or(TableFault::Shape)?;
    let TableMembers {
        name,
        number,
        rows,
        errors,
        breaks,
    } = members;
    let number = read_number(version, number)?;
    let findings = read_findings(alloc, rows, errors, breaks)?;
    let name = read_name(name).ok_or(TableFault::Shape)?;
    Ok(ListedTable::new(name, number, findings))
}

fn read_name(name: Option<Value>) -> Option<String>
    ensures { option_map string_bytes result ≡ option_and_then as_str (option_map view name) }
{
    into_text(name?)
}

fn read_number(version: Version, number: Option<Value>) -> Result<Option<i128>, TableFault>
    ensures { Reads result (λ n. n) (number_given version (option_map view number)) }
{
    match version {
        Version::First => Ok(None),
        Version::Second => read_optional_number(number),
    }
}

fn read_optional_number(number: Option<Value>) -> Result<Option<i128>, TableFault>
    ensures { Reads result (λ n. n) (number_in (option_map view number)) }
{
    match number {
        Some(number) => whole_number(&number).map(Some).ok_or(TableFault::Shape),
        None => Ok(None),
    }
}

/// The value as a whole number, if an `i64` or a `u64` holds it.
fn whole_number(value: &Value) -> Option<i128>
    ensures { result ≡ whole (view value.now) }
{
    value.as_number()?.as_i128()
}

fn read_findings(
    alloc: Global,
    rows: Option<Value>,
    errors: Option<Value>,
    breaks: Option<Value>,
) -> Result<Vec<ListedFinding>, TableFault>
    ensures { Reads result (λ v. v.items) (findings_given (option_map view rows) (option_map view errors) (option_map view breaks)) }
{
    let rows = rows.ok_or(TableFault::Shape)?;
    let mut findings = Vec::new(alloc);
    read_list(&mut findings, Kind::Row, rows)?;
    read_optional(&mut findings, Kind::Error, errors)?;
    read_optional(&mut findings, Kind::Break, breaks)?;
    Ok(findings)
}

fn read_optional(
    findings: &mut Vec<ListedFinding>,
    kind: Kind,
    list: Option<Value>,
) -> Result<(), TableFault>
    ensures { Reads result (λ _. findings.new.items)
        (after findings.old.items (optional_in (finding_in (finding_of kind)) (option_map view list))) }
{
    match list {
        Some(list) => read_list(findings, kind, list),
        None => Ok(()),
    }
}

fn read_list(findings: &mut Vec<ListedFinding>, kind: Kind, list: Value) -> Result<(), TableFault>
    ensures { Reads result (λ _. findings.new.items)
        (after findings.old.items (list_in (finding_in (finding_of kind)) (view list))) }
{
    let pairs = into_items(list).ok_or(TableFault::Shape)?;
    findings.reserve_exact(pairs.len())?;
    for pair in pairs {
        let finding = read_finding(kind, pair).ok_or(TableFault::Shape)?;
        findings.push(finding)?;
    }
    Ok(())
}

fn read_finding(kind: Kind, pair: Value) -> Option<ListedFinding>
    ensures { result ≡ finding_in (finding_of kind) (view pair) }
{
    let mut pair = into_items(pair)?;
    if pair.len() != 2 {
        return None;
    }
    let value = pair.pop()?;
    let id = pair.pop()?;
    pair.destroy_empty();
    Some(ListedFinding::new(into_text(id)?, kind.listed(value)?))
}

/// The first fault of what the tables list, repetitions aside.
pub(crate) fn content_fault(tables: &[ListedTable]) -> Option<TableFault>
    ensures { result ≡ content_fault (tables_of tables.now) }
{
    if has_bad_key(tables) {
        Some(TableFault::BadKey)
    } else if has_long_text(tables) {
        Some(TableFault::TextTooLong)
    } else if has_other_number(tables) {
        Some(TableFault::NotWhole)
    } else {
        None
    }
}

fn has_bad_key(tables: &[ListedTable]) -> bool
    ensures { result ≡ has_bad_key (tables_of tables.now) }
{
    tables
        .iter()
        .any(|table| table.has_bad_name() || table.has_bad_id())
}

fn has_long_text(tables: &[ListedTable]) -> bool
    ensures { result ≡ has_long_text (tables_of tables.now) }
{
    tables.iter().any(|table| table.has_long_text())
}

fn has_other_number(tables: &[ListedTable]) -> bool
    ensures { result ≡ has_other_number (tables_of tables.now) }
{
    tables.iter().any(|table| table.has_other_number())
}

/// Whether two tables have the same name. Fails if memory runs out.
pub(crate) fn repeats_name(
    alloc: Global,
    hashing: RandomState,
    tables: &[ListedTable],
) -> Result<bool, AllocError>
    ensures { IfOk result (λ b. b ≡ repeats (tables_of tables.now)) }
{
    let mut names = IndexSet::with_hasher(alloc, hashing);
    for table in tables {
        if !names.insert(table.name())? {
            return Ok(true);
        }
    }
    Ok(false)
}
