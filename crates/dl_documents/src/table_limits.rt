//! Reads the limits of a document and those that tables have of their own.

ghost use Rattle.std.specs.Prelude.{◌≡◌, ◌⊎◌, IfOk, IfErr};
ghost use Rattle.dl_documents.specs.Faults.{HasOutside};
ghost use Rattle.dl_documents.specs.TableNumbers.{AreNamed};
ghost use Rattle.dl_documents.specs.OwnLimits.{AreTheirLimits};
ghost use Rattle.dl_documents.specs.Inside.OwnLimits.{AreOwnNumbers, AreOwnLimits, AreAsLimits, AreAllLimits, IsRefusedNumber, refusal};

use crate::fault::PlanFault;
use crate::head::{Head, Version};
use crate::limits::{self, limit};
use dl_source::TableNumber;
use dl_values::{LimitFault, Limits, TableLimit, TableLimitFault, TableLimits};
use std::alloc::{AllocError, Global};

/// The limits of the numbers in a document's head, and of those that it gives tables.
///
/// # Errors
/// `Limit` with the first number that isn't a limit, and those of tables count as the first; `OutOfMemory`.
pub(crate) fn all_limits(
    alloc: Global,
    head: Head,
    tables: Vec<TableNumber>,
) -> Result<(Limits, Option<TableLimits>), PlanFault>
    requires { AreOwnNumbers head.version tables.items }
    ensures ok { IfOk result (AreAllLimits head tables.items) }
    ensures err { IfErr result (λ f. (f ≡ PlanFault.OutOfMemory) ⊎ IsRefusedNumber head.numbers tables.items f) }
{
    let tables = own_limits(alloc, head.version, tables)?;
    match limits::limits(head.numbers) {
        Ok(limits) => Ok((limits, tables)),
        Err(fault) => Err(PlanFault::Limit(fault)),
    }
}

/// The limits of tables by these numbers, in version 2.
fn own_limits(
    alloc: Global,
    version: Version,
    numbers: Vec<TableNumber>,
) -> Result<Option<TableLimits>, PlanFault>
    requires { AreOwnNumbers version numbers.items }
    ensures ok { IfOk result (AreOwnLimits version numbers.items) }
    ensures err { IfErr result (λ f. (f ≡ PlanFault.OutOfMemory) ⊎ ((f ≡ PlanFault.Limit LimitFault.BatchLimit) × HasOutside numbers.items)) }
{
    match version {
        Version::First => Ok(None),
        Version::Second => {
            let limits = table_limits(alloc, numbers)?;
            Ok(Some(limits))
        }
    }
}

/// The limits of tables by these numbers.
fn table_limits(alloc: Global, numbers: Vec<TableNumber>) -> Result<TableLimits, PlanFault>
    requires { AreNamed numbers.items }
    ensures ok { IfOk result (AreTheirLimits numbers.items) }
    ensures err { IfErr result (λ f. (f ≡ PlanFault.OutOfMemory) ⊎ ((f ≡ PlanFault.Limit LimitFault.BatchLimit) × HasOutside numbers.items)) }
{
    let limits = as_limits(alloc, numbers)?;
    match TableLimits::new(alloc, limits) {
        Ok(limits) => Ok(limits),
        Err(fault) => Err(refusal(fault)),
    }
}

/// The fault of a document whose tables' numbers give no limits. Each of these tables has a name, and none is there
/// twice.
fn refusal(fault: TableLimitFault) -> PlanFault
    ensures { result ≡ refusal fault }
{
    match fault {
        TableLimitFault::OutOfMemory => PlanFault::OutOfMemory,
        _ => PlanFault::Limit(LimitFault::BatchLimit),
    }
}

/// Each number as a `u32`, or 0, which no limit is, if it doesn't fit.
fn as_limits(alloc: Global, numbers: Vec<TableNumber>) -> Result<Vec<TableLimit>, AllocError>
    ensures { IfOk result (λ ls. AreAsLimits numbers.items ls.items) }
{
    let mut limits = Vec::with_capacity(alloc, numbers.len())?;
    for own in numbers {
        let TableNumber { table, number } = own;
        let limit = limit(number);
        limits.push(TableLimit { table, limit })?;
    }
    Ok(limits)
}
