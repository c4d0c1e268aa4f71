//! Limits that tables have of their own.

ghost use Rattle.std.specs.Prelude.{◌≡◌, ◌⊎◌, None, Some, true, false, bytes_eq, IfOk, IfErr, IfSome};
ghost use Rattle.std.specs.Map.{lookup};
ghost use Rattle.dl_values.specs.Limits.{IsLimit};
ghost use Rattle.dl_values.specs.TableLimits.{pairs, repeats, GiveTheSame, AreTableLimits, has_empty_table, has_long_table, has_other_limit, fault_of};

use crate::fault::TableLimitFault;
use crate::key::TABLE_BYTES;
use crate::limits::is_limit;
use crate::text::Text;
use std::alloc::{AllocError, AllocFailed, Global};
use std::collections::BTreeMap;
use std::marker::Model;
use std::sync::Arc;

/// A table, and the most keys of a batch of that table.
#[derive(Debug, Drop)]
pub struct TableLimit {
    /// The table's name. [`TableLimits::new`] takes 1 to [`TABLE_BYTES`] bytes.
    pub table: Text,
    /// The most keys of a batch. [`TableLimits::new`] takes 1 to [`LARGEST_LIMIT`](crate::LARGEST_LIMIT).
    pub limit: u32,
}

/// The tables that have a limit of their own, for a loader whose batches each have keys of one table. A copy costs one
/// atomic step. Contracts see the tables with their limits, each table once.
#[derive(Debug)]
pub struct TableLimits {
    limits: Arc<BTreeMap<String, u32>>,
}

// Written out: a derived drop is proved anew in each function that lets limits go.
impl Drop for TableLimits {
    fn drop(self) {
        let TableLimits { limits } = self;
        drop(limits);
    }
}

impl Model for TableLimits {
    ghost use Rattle.std.specs.Prelude.{List, ℕ};
    ghost use Rattle.std.specs.Arc.{arc_value};
    ghost use Rattle.dl_values.specs.TableLimits.{named, AreTableLimits};

    ghost Value = { List (List ℕ × ℕ) };

    ghost view = { λ t. named (arc_value t.limits).entries };

    ghost invariant = { λ t. AreTableLimits (named (arc_value t.limits).entries) };
}

impl From<AllocError> for TableLimitFault {
    ghost use Rattle.std.specs.Prelude.{◌≡◌};
    ghost use Rattle.dl_values.specs.declared.fault.TableLimitFault.TheVariants.{OutOfMemory};

    ghost from_gives = { λ _ fault. fault ≡ OutOfMemory };

    fn from(_: AllocError) -> TableLimitFault {
        TableLimitFault::OutOfMemory
    }
}

impl<T: Drop> From<AllocFailed<T>> for TableLimitFault {
    ghost use Rattle.std.specs.Prelude.{◌≡◌};
    ghost use Rattle.dl_values.specs.declared.fault.TableLimitFault.TheVariants.{OutOfMemory};

    ghost from_gives = { λ _ fault. fault ≡ OutOfMemory };

    fn from(_: AllocFailed<T>) -> TableLimitFault {
        TableLimitFault::OutOfMemory
    }
}

impl TableLimits {
    /// Takes the tables and their limits; the list may be empty.
    ///
    /// # Errors
    /// The first cause of [`TableLimitFault`], in its order, that applies anywhere in the list. `OutOfMemory` may come
    /// before `DuplicateTable`, which the call looks for while it takes memory.
    pub fn new(alloc: Global, limits: Vec<TableLimit>) -> Result<TableLimits, TableLimitFault>
        ensures ok { IfOk result (λ t. GiveTheSame t (pairs limits.items) × (fault_of limits.items ≡ None)) }
        ensures err { IfErr result (λ f. (f ≡ TableLimitFault.OutOfMemory) ⊎ (fault_of limits.items ≡ Some f)) }
    {
        if has_empty_table(&limits) {
            return Err(TableLimitFault::EmptyTable);
        }
        if has_long_table(&limits) {
            return Err(TableLimitFault::TableTooLong);
        }
        if has_other_limit(&limits) {
            return Err(TableLimitFault::BatchLimit);
        }
        TableLimits::of(alloc, &limits)
    }

    /// The limits of tables, unless the list names a table twice.
    fn of(alloc: Global, limits: &[TableLimit]) -> Result<TableLimits, TableLimitFault>
        requires { has_other_limit limits.now ≡ false }
        ensures ok { IfOk result (λ t. GiveTheSame t (pairs limits.now) × (repeats (pairs limits.now) ≡ false)) }
        ensures err { IfErr result (λ f. (f ≡ TableLimitFault.OutOfMemory) ⊎ ((f ≡ TableLimitFault.DuplicateTable) × (repeats (pairs limits.now) ≡ true))) }
    {
        let mut map = BTreeMap::new(alloc);
        for limit in limits {
            let name = String::from_str(alloc, limit.table.as_str())?;
            if map.insert(name, limit.limit)?.is_some() {
                return Err(TableLimitFault::DuplicateTable);
            }
        }
        let limits = Arc::new(alloc, map)?;
        Ok(TableLimits { limits })
    }

    /// The limit of a table, if it has one of its own.
    pub fn limit(&self, table: &str) -> Option<u32>
        ensures value { result ≡ lookup (bytes_eq table.now) self.now }
        ensures limit { IfSome result IsLimit }
    {
        self.limits.get(table).copied()
    }

    /// What all limits of tables keep: each is 1 to [`LARGEST_LIMIT`](crate::LARGEST_LIMIT). The call does nothing when
    /// it runs; its clause is for proofs.
    pub fn keeps(&self)
        ensures { AreTableLimits self.now }
    {
        let _ = &self.limits;
    }

    /// The same limits, shared.
    ///
    /// # Errors
    /// `AllocError` if the reference count would overflow.
    pub fn try_copy(&self) -> Result<TableLimits, AllocError>
        ensures { IfOk result (λ t. t ≡ self.now) }
    {
        let limits = Arc::try_clone(&self.limits)?;
        Ok(TableLimits { limits })
    }
}

fn has_empty_table(limits: &[TableLimit]) -> bool
    ensures { result ≡ has_empty_table limits.now }
{
    limits.iter().any(|limit| limit.table.as_str().is_empty())
}

fn has_long_table(limits: &[TableLimit]) -> bool
    ensures { result ≡ has_long_table limits.now }
{
    limits
        .iter()
        .any(|limit| limit.table.as_str().len() > TABLE_BYTES)
}

fn has_other_limit(limits: &[TableLimit]) -> bool
    ensures { result ≡ has_other_limit limits.now }
{
    limits.iter().any(|limit| !is_limit(limit.limit))
}
