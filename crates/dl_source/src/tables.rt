//! Tables that you read from JSON and use as a source.

ghost use Rattle.std.specs.Prelude.{◌≡◌, ◌⊎◌, [], ◌∷◌, ◌++◌, true, false, not, if◌then◌else◌, option_copied, string_bytes, IfOk, IfErr, OnOk};
ghost use Rattle.std.specs.List.{list_any};
ghost use Rattle.std.specs.Result.{result_copied};
ghost use Rattle.dl_source.specs.Answer.{finding_at, found, first_break, outcomes_of};
ghost use Rattle.dl_values.specs.TableLimits.{lists, repeats};
ghost use Rattle.dl_source.specs.Faults.{is_not_whole, has_other_number, has_repeated_key};
ghost use Rattle.dl_source.specs.NumberedTables.{table_of, tables_of};

use crate::fault::TableFault;
use crate::listed::{ListedFinding, ListedTable};
use crate::source::Source;
use crate::table_number::{TableNumber, numbers_of};
use crate::table_reader::{Version, content_fault, read_tables, repeats_name};
use dl_values::{BatchAnswer, FetchKey, Json, Message, Outcome, Outcomes};
use indexmap::IndexMap;
use serde_json::Value;
use std::alloc::{AllocError, Global};
use std::hash::RandomState;
use std::marker::Model;

/// What a table lists under an id.
#[derive(Debug, Drop)]
pub enum Finding {
    /// The row's value.
    Row(Json),
    /// Why the id has no value.
    Error(Message),
    /// Why a batch fails if it asks for the id.
    Break(Message),
}

/// What one table lists. Contracts see its findings in the order in which it got them.
pub(crate) struct Table {
    findings: IndexMap<String, Finding, RandomState>,
}

impl Drop for Table {
    fn drop(self) {
        let Table { findings } = self;
        drop(findings);
    }
}

impl Model for Table {
    ghost use Rattle.dl_source.specs.Tables.{Table, table_code, named};

    ghost Value = { Table };

    ghost coded = { table_code };

    ghost view = { λ t. named t.findings.entries };
}

/// Tables with their names. They answer a list of keys as a [`Source`]: if a table lists one of the keys under its
/// breaks, by the text of the first such key; else by an outcome for each key, which is its row, its error, `no row` or
/// `no table`.
///
/// Contracts see the tables in the order of their document, and in each its rows, then its errors, then its breaks.
///
/// # Examples
/// A table with two users, from `crates/example_two_requests`:
///
/// ```rust
/// let rows = r#"[{"name": "user", "rows": [["u1", "Ada"], ["u2", "Bob"]]}]"#;
/// let users = Tables::from_owned_value(alloc, hashing, Value::from_str(alloc, rows)?)?;
/// ```
pub struct Tables {
    tables: IndexMap<String, Table, RandomState>,
    no_table: Message,
    no_row: Message,
}

impl Drop for Tables {
    fn drop(self) {
        let Tables {
            tables,
            no_table,
            no_row,
        } = self;
        drop(tables);
        drop(no_table);
        drop(no_row);
    }
}

impl Model for Tables {
    ghost use Rattle.std.specs.Prelude.{◌≡◌, codes};
    ghost use Rattle.dl_source.specs.Tables.{Tables, tables_code, named};

    ghost Value = { Tables };

    ghost coded = { tables_code };

    ghost view = { λ t. named t.tables.entries };

    ghost invariant = { λ t. (t.no_table ≡ codes "no table") × (t.no_row ≡ codes "no row") };
}

impl Table {
    /// An empty table with room for `capacity` findings. Fails if memory runs out.
    fn with_capacity(
        alloc: Global,
        hashing: RandomState,
        capacity: usize,
    ) -> Result<Table, AllocError>
        ensures { IfOk result (λ t. t ≡ []) }
    {
        let findings = IndexMap::with_capacity_and_hasher(alloc, capacity, hashing)?;
        Ok(Table { findings })
    }

    /// The table of these findings, or `None` if they have an id twice. Fails if memory runs out.
    fn from_listed(
        alloc: Global,
        hashing: RandomState,
        findings: Vec<ListedFinding>,
    ) -> Result<Option<Table>, AllocError>
        requires { list_any (λ e. is_not_whole e.1) findings.items ≡ false }
        ensures { IfOk result (λ t. t ≡ (if repeats findings.items then None else Some findings.items)) }
    {
        let mut table = Table::with_capacity(alloc, hashing, findings.len())?;
        for listed in findings {
            let (id, listed) = listed.into_parts();
            let finding = listed.into_finding(alloc)?;
            if !table.add(id, finding)? {
                return Ok(None);
            }
        }
        Ok(Some(table))
    }

    /// Adds a finding under a new id. If the table lists the id already, the finding replaces the old one, and the
    /// answer is false. Fails if memory runs out.
    fn add(&mut self, id: String, finding: Finding) -> Result<bool, AllocError>
        ensures found { IfOk result (λ new. new ≡ not (lists (string_bytes id) self.old)) }
        ensures added { result ≡ Ok true → self.new ≡ self.old ++ (string_bytes id, finding) ∷ [] }
    {
        Ok(self.findings.insert(id, finding)?.is_none())
    }

    fn finding(&self, id: &str) -> Option<&Finding>
        ensures { option_copied result ≡ finding_at self.now id.now }
    {
        self.findings.get(id)
    }
}

impl Tables {
    ghost use Rattle.dl_source.specs.declared.fault.TableFault.{TableFault};
    ghost use Rattle.serde_json.specs.View.{view};
    ghost use Rattle.dl_source.specs.Spelling.{Spells, SpellsNumbered, SpellsWithNumbers};
    ghost use Rattle.dl_source.specs.Faults.{Causes, RefusedFor};
    ghost use Rattle.dl_source.specs.Inside.Reading.{fault_of};

    /// Reads tables from a JSON value. The value is a list of objects, and each has these members:
    ///
    /// - `name`: the table's name, a text
    /// - `rows`: a list of pairs of an id and any value
    /// - `errors` and `breaks`, which are optional: lists of pairs of an id and a text
    ///
    /// A pair is a list of two. `hashing` hashes names and ids, and nothing that you see depends on it.
    ///
    /// # Errors
    /// The first cause of [`TableFault`], in its order, that applies anywhere in the value. `OutOfMemory` may come
    /// before any of them.
    pub fn from_value(
        alloc: Global,
        hashing: RandomState,
        value: &Value,
    ) -> Result<Tables, TableFault>
        ensures ok { IfOk result (Spells (view value.now)) }
        ensures passes { OnOk result ((f : TableFault) → Causes Spells (view value.now) f → ⊥) }
        ensures err { IfErr result (RefusedFor Spells (view value.now)) }
    {
        Tables::from_owned_value(alloc, hashing, value.clone()?)
    }

    /// Reads tables as [`from_value`](Tables::from_value) does, but moves rows and ids out of the value instead of
    /// copying them.
    ///
    /// # Errors
    /// As [`from_value`](Tables::from_value).
    pub fn from_owned_value(
        alloc: Global,
        hashing: RandomState,
        value: Value,
    ) -> Result<Tables, TableFault>
        ensures ok { IfOk result (Spells (view value)) }
        ensures passes { OnOk result ((f : TableFault) → Causes Spells (view value) f → ⊥) }
        ensures err { IfErr result (RefusedFor Spells (view value)) }
    {
        let listed = read_tables(alloc, Version::First, value)?;
        Tables::from_listed(alloc, hashing, listed)
    }

    /// Reads tables as [`from_value`](Tables::from_value) does, and each may have one member more: `maxBatchSize`, a
    /// whole number that an `i64` or a `u64` holds. With the tables you get these numbers, in the order of the tables;
    /// a table without one gives none. What they mean is up to you.
    ///
    /// # Errors
    /// As [`from_value`](Tables::from_value). A `maxBatchSize` that isn't such a number is a `Shape`.
    pub fn from_value_2(
        alloc: Global,
        hashing: RandomState,
        value: &Value,
    ) -> Result<(Tables, Vec<TableNumber>), TableFault>
        ensures ok { IfOk result (λ p. SpellsNumbered (view value.now) p.0 p.1.items) }
        ensures passes { OnOk result ((f : TableFault) → Causes SpellsWithNumbers (view value.now) f → ⊥) }
        ensures err { IfErr result (RefusedFor SpellsWithNumbers (view value.now)) }
    {
        Tables::from_owned_value_2(alloc, hashing, value.clone()?)
    }

    /// Reads tables and their numbers as [`from_value_2`](Tables::from_value_2) does, but moves rows and ids out of the
    /// value instead of copying them.
    ///
    /// # Errors
    /// As [`from_value_2`](Tables::from_value_2).
    pub fn from_owned_value_2(
        alloc: Global,
        hashing: RandomState,
        value: Value,
    ) -> Result<(Tables, Vec<TableNumber>), TableFault>
        ensures ok { IfOk result (λ p. SpellsNumbered (view value) p.0 p.1.items) }
        ensures passes { OnOk result ((f : TableFault) → Causes SpellsWithNumbers (view value) f → ⊥) }
        ensures err { IfErr result (RefusedFor SpellsWithNumbers (view value)) }
    {
        let listed = read_tables(alloc, Version::Second, value)?;
        let numbers = numbers_of(alloc, listed.as_slice())?;
        let tables = Tables::from_listed(alloc, hashing, listed)?;
        Ok((tables, numbers))
    }

    /// The tables that a document lists, or their first fault.
    fn from_listed(
        alloc: Global,
        hashing: RandomState,
        listed: Vec<ListedTable>,
    ) -> Result<Tables, TableFault>
        ensures ok { IfOk result (λ t. (t ≡ tables_of listed.items) × (fault_of (tables_of listed.items) ≡ None)) }
        ensures err { IfErr result (λ f. (f ≡ TableFault.OutOfMemory) ⊎ (fault_of (tables_of listed.items) ≡ Some f)) }
    {
        if let Some(fault) = content_fault(listed.as_slice()) {
            return Err(fault);
        }
        if repeats_name(alloc, hashing, listed.as_slice())? {
            return Err(TableFault::DuplicateTable);
        }
        Tables::from_tested(alloc, hashing, listed)
    }

    /// These tables, which passed the other tests, or the one fault that shows only now: a table has an id twice.
    fn from_tested(
        alloc: Global,
        hashing: RandomState,
        listed: Vec<ListedTable>,
    ) -> Result<Tables, TableFault>
        requires names { repeats (tables_of listed.items) ≡ false }
        requires whole { has_other_number (tables_of listed.items) ≡ false }
        ensures ok { IfOk result (λ t. (t ≡ tables_of listed.items) × (has_repeated_key (tables_of listed.items) ≡ false)) }
        ensures err { IfErr result (λ f. (f ≡ TableFault.OutOfMemory) ⊎ ((f ≡ TableFault.DuplicateKey) × (has_repeated_key (tables_of listed.items) ≡ true))) }
    {
        let mut tables = Tables::new(alloc, hashing)?;
        for table in listed {
            tables.add_listed(alloc, hashing, table)?;
        }
        Ok(tables)
    }

    /// Adds a table under a new name, unless the table has an id twice.
    fn add_listed(
        &mut self,
        alloc: Global,
        hashing: RandomState,
        listed: ListedTable,
    ) -> Result<(), TableFault>
        requires name { lists listed.name self.old ≡ false }
        requires whole { list_any (λ e. is_not_whole e.1) listed.findings ≡ false }
        ensures ok { OnOk result ((self.new ≡ self.old ++ table_of listed ∷ []) × (repeats listed.findings ≡ false)) }
        ensures err { IfErr result (λ f. (f ≡ TableFault.OutOfMemory) ⊎ ((f ≡ TableFault.DuplicateKey) × (repeats listed.findings ≡ true))) }
    {
        let (name, findings) = listed.into_parts();
        let table = Table::from_listed(alloc, hashing, findings)?;
        let table = table.ok_or(TableFault::DuplicateKey)?;
        self.add(name, table)?;
        Ok(())
    }

    fn new(alloc: Global, hashing: RandomState) -> Result<Tables, AllocError>
        ensures { IfOk result (λ t. t ≡ []) }
    {
        let no_table = Message::new(alloc, "no table")?;
        let no_row = Message::new(alloc, "no row")?;
        Ok(Tables {
            tables: IndexMap::with_hasher(alloc, hashing),
            no_table,
            no_row,
        })
    }

    /// Adds a table under a new name. Fails if memory runs out.
    fn add(&mut self, name: String, table: Table) -> Result<(), AllocError>
        requires { lists (string_bytes name) self.old ≡ false }
        ensures { OnOk result (self.new ≡ self.old ++ (string_bytes name, table) ∷ []) }
    {
        self.tables.insert(name, table)?;
        Ok(())
    }

    /// Adds the outcome of each key. At the first key that its table lists under its breaks, it stops and answers that
    /// text. Fails if memory runs out.
    fn add_outcomes(
        &self,
        outcomes: &mut Vec<Outcome>,
        keys: &[FetchKey],
    ) -> Result<Option<Message>, AllocError>
        ensures broken { IfOk result (λ text. text ≡ first_break self.now keys.now) }
        ensures added { result ≡ Ok None → outcomes.new.items ≡ outcomes.old.items ++ outcomes_of self.now keys.now }
    {
        for key in keys {
            let outcome = match self.finding(key) {
                Ok(Finding::Row(value)) => Outcome::Value(value.try_copy()?),
                Ok(Finding::Error(text)) | Err(text) => Outcome::KeyError(text.try_copy()?),
                Ok(Finding::Break(text)) => return Ok(Some(text.try_copy()?)),
            };
            outcomes.push(outcome)?;
        }
        Ok(None)
    }

    /// What the tables list under the key, or why they list nothing.
    fn finding(&self, key: &FetchKey) -> Result<&Finding, &Message>
        ensures { result_copied result ≡ found self.now key.now }
    {
        match self.tables.get(key.table()) {
            None => Err(&self.no_table),
            Some(table) => table.finding(key.id()).ok_or(&self.no_row),
        }
    }
}

impl Source for Tables {
    ghost use Rattle.dl_values.specs.Answering.{function};
    ghost use Rattle.dl_source.specs.Answer.{answer_of};
    ghost use Rattle.dl_source.specs.AnswerFits.{answer_fits};

    ghost answer = { function answer_of };

    ghost fits = { answer_fits };

    /// The text of the first key that its table lists under its breaks. Without one, each key's row or error, or that
    /// it has no row or no table.
    fn fetch(&self, alloc: Global, keys: &[FetchKey]) -> Result<BatchAnswer, AllocError> {
        let mut outcomes = Vec::with_capacity(alloc, keys.len())?;
        match self.add_outcomes(&mut outcomes, keys)? {
            Some(text) => Ok(BatchAnswer::Break(text)),
            None => Ok(BatchAnswer::Each(Outcomes::new(alloc, outcomes)?)),
        }
    }
}
