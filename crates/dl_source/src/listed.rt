//! Tables as their document lists them, moved out of it.

ghost use Rattle.std.specs.Prelude.{◌≡◌, false, option_map, IfOk, string_bytes};
ghost use Rattle.std.specs.List.{list_any};
ghost use Rattle.serde_json.specs.View.{view};
ghost use Rattle.dl_source.specs.Inside.Findings.{spelled, finding_of};
ghost use Rattle.dl_source.specs.Faults.{is_sized, has_bad_id, is_long, is_not_whole, has_bad_name};
ghost use Rattle.dl_source.specs.NumberedTables.{numbered, number_of, table_of};

use crate::table_number::TableNumber;
use crate::table_reader::TEXT_BYTES;
use crate::tables::Finding;
use crate::tree::into_text;
use dl_values::{ID_BYTES, Json, Message, TABLE_BYTES, Text, has_float};
use serde_json::Value;
use std::alloc::{AllocError, Global};
use std::marker::Model;

/// Which of a table's lists.
#[derive(Clone, Copy)]
pub(crate) enum Kind {
    Row,
    Error,
    Break,
}

/// What a list pairs with an id.
#[derive(Drop)]
pub(crate) enum Listed {
    Row(Value),
    Error(String),
    Break(String),
}

impl Kind {
    /// What a list of this kind pairs with an id, if the value may be that.
    #[inline(always)]
    pub(crate) fn listed(self, value: Value) -> Option<Listed>
        ensures { option_map spelled result ≡ finding_of self (view value) }
    {
        match self {
            Kind::Row => Some(Listed::Row(value)),
            Kind::Error => Some(Listed::Error(into_text(value)?)),
            Kind::Break => Some(Listed::Break(into_text(value)?)),
        }
    }
}

impl Listed {
    fn is_long(&self) -> bool
        ensures { result ≡ is_long (spelled self.now) }
    {
        match self {
            Listed::Row(_) => false,
            Listed::Error(text) | Listed::Break(text) => text.len() > TEXT_BYTES,
        }
    }

    fn is_not_whole(&self) -> bool
        ensures { result ≡ is_not_whole (spelled self.now) }
    {
        match self {
            Listed::Row(value) => has_float(value),
            Listed::Error(_) | Listed::Break(_) => false,
        }
    }

    /// The finding that it spells. Fails if memory runs out.
    pub(crate) fn into_finding(self, alloc: Global) -> Result<Finding, AllocError>
        requires { is_not_whole (spelled self) ≡ false }
        ensures { IfOk result (λ e. e ≡ spelled self) }
    {
        match self {
            Listed::Row(value) => Ok(Finding::Row(Json::new(alloc, value)?)),
            Listed::Error(text) => Ok(Finding::Error(Message::new(alloc, text.as_str())?)),
            Listed::Break(text) => Ok(Finding::Break(Message::new(alloc, text.as_str())?)),
        }
    }
}

/// An id and what its list pairs with it. Contracts see the finding that the two spell.
#[derive(Drop)]
pub(crate) struct ListedFinding {
    id: String,
    listed: Listed,
}

impl Model for ListedFinding {
    ghost use Rattle.std.specs.Prelude.{List, ℕ, string_bytes};
    ghost use Rattle.dl_source.specs.declared.tables.Finding.{Finding};
    ghost use Rattle.dl_source.specs.Tables.{finding_code};
    ghost use Rattle.dl_source.specs.Inside.Findings.{spelled};

    ghost Value = { List ℕ × Finding };

    ghost coded = { finding_code };

    ghost view = { λ e. (string_bytes e.id, spelled e.listed) };
}

impl ListedFinding {
    pub(crate) fn new(id: String, listed: Listed) -> ListedFinding
        ensures { result ≡ (string_bytes id, spelled listed) }
    {
        ListedFinding { id, listed }
    }

    /// The id and what its list pairs with it, moved out.
    pub(crate) fn into_parts(self) -> (String, Listed)
        ensures { self ≡ (string_bytes result.0, spelled result.1) }
    {
        let ListedFinding { id, listed } = self;
        (id, listed)
    }

    /// Whether a key can't have the id.
    pub(crate) fn has_bad_id(&self) -> bool
        ensures { result ≡ has_bad_id self.now }
    {
        !is_sized(self.id.as_str(), ID_BYTES)
    }

    /// Whether it is a text longer than [`TEXT_BYTES`].
    pub(crate) fn is_long(&self) -> bool
        ensures { result ≡ is_long self.now.1 }
    {
        self.listed.is_long()
    }

    /// Whether it is a value with a number that isn't whole.
    pub(crate) fn is_not_whole(&self) -> bool
        ensures { result ≡ is_not_whole self.now.1 }
    {
        self.listed.is_not_whole()
    }
}

/// A table's name, its number if it has one, and its findings. Contracts see the table that these spell.
#[derive(Drop)]
pub(crate) struct ListedTable {
    name: String,
    number: Option<i128>,
    findings: Vec<ListedFinding>,
}

impl Model for ListedTable {
    ghost use Rattle.std.specs.Prelude.{string_bytes};
    ghost use Rattle.dl_source.specs.NumberedTables.{NumberedTable, numbered, numbered_table_code};

    ghost Value = { NumberedTable };

    ghost coded = { numbered_table_code };

    ghost view = { λ t. numbered (string_bytes t.name) t.number t.findings.items };
}

impl ListedTable {
    pub(crate) fn new(
        name: String,
        number: Option<i128>,
        findings: Vec<ListedFinding>,
    ) -> ListedTable
        ensures { result ≡ numbered (string_bytes name) number findings.items }
    {
        ListedTable {
            name,
            number,
            findings,
        }
    }

    pub(crate) fn name(&self) -> &str
        ensures { result.now ≡ self.now.name }
    {
        self.name.as_str()
    }

    /// The name and the findings, moved out.
    pub(crate) fn into_parts(self) -> (String, Vec<ListedFinding>)
        ensures { table_of self ≡ (string_bytes result.0, result.1.items) }
    {
        let ListedTable { name, findings, .. } = self;
        (name, findings)
    }

    /// Its number, if it has one, with a copy of its name. Fails if memory runs out.
    pub(crate) fn to_number(&self, alloc: Global) -> Result<Option<TableNumber>, AllocError>
        ensures { IfOk result (λ n. n ≡ number_of self.now) }
    {
        match self.number {
            Some(number) => {
                let table = Text::new(alloc, self.name.as_str())?;
                Ok(Some(TableNumber { table, number }))
            }
            None => Ok(None),
        }
    }

    /// Whether a key can't have the name.
    pub(crate) fn has_bad_name(&self) -> bool
        ensures { result ≡ has_bad_name (table_of self.now) }
    {
        !is_sized(self.name.as_str(), TABLE_BYTES)
    }

    /// Whether there is an id that a key can't have.
    pub(crate) fn has_bad_id(&self) -> bool
        ensures { result ≡ list_any has_bad_id self.now.findings }
    {
        self.findings.iter().any(|finding| finding.has_bad_id())
    }

    /// Whether a text is longer than [`TEXT_BYTES`].
    pub(crate) fn has_long_text(&self) -> bool
        ensures { result ≡ list_any (λ e. is_long e.1) self.now.findings }
    {
        self.findings.iter().any(|finding| finding.is_long())
    }

    /// Whether a value has a number that isn't whole.
    pub(crate) fn has_other_number(&self) -> bool
        ensures { result ≡ list_any (λ e. is_not_whole e.1) self.now.findings }
    {
        self.findings.iter().any(|finding| finding.is_not_whole())
    }
}

fn is_sized(text: &str, most: usize) -> bool
    ensures { result ≡ is_sized most text.now }
{
    (1..=most).contains(&text.len())
}
