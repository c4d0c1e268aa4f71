//! Laws of the definitions, which hold for every history whose calls are answered as these say. Each function does
//! nothing: its contract is the law, for your proof.

ghost use Rattle.dl_desk.specs.Laws.{FreshLoadsAreApart, BatchesAreWithinLimits, BatchesByTableAreWithinLimits, LegalPastsAreAnswered, EndsStay, OutcomesStay};

use dl_values::{Limits, TableLimits};

/// Between two fresh loads of one key, something forgets the key: a clear of it, a clear of all keys, or the failure of
/// the first load's batch.
pub fn fresh_loads_are_apart()
    ensures { FreshLoadsAreApart }
{}

/// The members of a batch have distinct keys and are no more than its limit. If tables have limits of their own, they
/// are also of one table.
pub fn batches_are_within_limits()
    ensures { BatchesAreWithinLimits }
{}

/// If each batch has one table, the members of a batch have distinct keys of one table, and are no more than that
/// table's limit or, if it has none of its own, than `max_batch`.
pub fn batches_by_table_are_within_limits(limits: &Limits, tables: &TableLimits)
    ensures { BatchesByTableAreWithinLimits limits.now tables.now }
{
    let _ = limits.max_batch();
    tables.keeps();
}

/// Each call of a legal past of several callers' events is answered as the calls before it say, so the laws above hold
/// of it too.
pub fn legal_pasts_are_answered()
    ensures { LegalPastsAreAnswered }
{}

/// A cell that has ended keeps the place of its end, whatever you call later.
pub fn ends_stay()
    ensures { EndsStay }
{}

/// A cell that has an outcome keeps it, whatever you call later.
pub fn outcomes_stay()
    ensures { OutcomesStay }
{}
