//! Numbers that tables have of their own.

ghost use Rattle.std.specs.Prelude.{◌≡◌, IfOk};
ghost use Rattle.dl_source.specs.NumberedTables.{numbers_of};

use crate::listed::ListedTable;
use dl_values::Text;
use std::alloc::{AllocError, Global};

/// The number that a document gives one of its tables, as `maxBatchSize`. An `i64` or a `u64` holds it; it may be out
/// of range for a limit.
#[derive(Debug, Drop)]
pub struct TableNumber {
    /// The table's name.
    pub table: Text,
    /// Its number.
    pub number: i128,
}

/// The numbers of the tables, in their order. Fails if memory runs out.
pub(crate) fn numbers_of(
    alloc: Global,
    tables: &[ListedTable],
) -> Result<Vec<TableNumber>, AllocError>
    ensures { IfOk result (λ v. v.items ≡ numbers_of tables.now) }
{
    let mut numbers = Vec::new(alloc);
    for table in tables {
        if let Some(number) = table.to_number(alloc)? {
            numbers.push(number)?;
        }
    }
    Ok(numbers)
}
