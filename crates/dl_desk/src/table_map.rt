//! The newest batches of some of the tables.

ghost use Rattle.std.specs.Prelude.{◌≡◌, Some, [], IsSome, OnOk, OnErr, bytes_eq, if◌then◌else◌};
ghost use Rattle.std.specs.Map.{lookup};
ghost use Rattle.dl_desk.specs.Inside.TableMap.{Tells};

use crate::table_book::Newest;
use crate::table_name::TableName;
use std::alloc::{AllocError, Global};
use std::collections::BTreeMap;
use std::marker::Model;

/// Notes of the newest batches of some of the tables. Contracts see one for each table.
#[derive(Drop)]
pub(crate) struct TableMap {
    newest: BTreeMap<TableName, Newest>,
}

impl Model for TableMap {
    ghost use Rattle.std.specs.Prelude.{List, ℕ};
    ghost use Rattle.dl_desk.specs.declared.table_book.Newest.{Newest};

    ghost Value = { List (List ℕ × Newest) };

    ghost view = { λ t. t.newest.entries };
}

impl TableMap {
    /// No notes.
    pub(crate) fn new(alloc: Global) -> TableMap
        ensures { result ≡ [] }
    {
        TableMap {
            newest: BTreeMap::new(alloc),
        }
    }

    /// The note of the table.
    #[inline(always)]
    pub(crate) fn get(&self, table: &TableName) -> Option<Newest>
        ensures { result ≡ lookup (bytes_eq table.now) self.now }
    {
        self.newest.get(table).copied()
    }

    /// Adds the note of a table. If memory runs out, the call fails and leaves the notes as they were.
    pub(crate) fn insert(&mut self, table: &TableName, newest: Newest) -> Result<(), AllocError>
        ensures tells { OnOk result (Tells self.old table.now newest self.new) }
        ensures err { OnErr result (self.new ≡ self.old) }
    {
        self.newest.insert(table.try_copy()?, newest)?;
        Ok(())
    }

    /// Replaces the note of a table that has one.
    pub(crate) fn replace(&mut self, table: &TableName, newest: Newest)
        requires { IsSome (lookup (bytes_eq table.now) self.old) }
        ensures { Tells self.old table.now newest self.new }
    {
        if let Some(last) = self.newest.get_mut(table) {
            *last = newest;
        }
    }
}
