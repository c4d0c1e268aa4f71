//! What you open a loader with.

ghost use Rattle.std.specs.Prelude.{◌≡◌, IfOk, IfErr, OnOk};
ghost use Rattle.dl_cells.specs.Cells.{row_len};
ghost use Rattle.dl_values.specs.Limits.{mixed, by_table, rules_by};
ghost use Rattle.dl_loader.specs.Opening.{AreCallers, RefusedAs};

use dl_cells::CellRow;
use dl_desk::{Limits, TableLimits};
use dl_gather::Policy;
use dl_history::{Ending, Event, Flags, StartFault};
use dl_source::Source;
use std::alloc::Global;
use std::hash::RandomState;
use std::marker::Model;
use std::sync::ledger::Blank;

/// The most callers of a loader.
pub const MOST_CALLERS: u32 = 32;

/// A loader that you have not started yet: its source, its limits, its number of callers, and the rows in which its
/// history and its outcomes will lie.
///
/// To start it, call a function that is generic in `L: LoaderName` at `std::marker::Brand`, and there
/// [`Loader::start`](crate::Loader::start). From then on the type `L` names this loader, so you can't use the pass of
/// one loader with another.
///
/// # Examples
/// Opens a loader for one caller, from `crates/example_loaders/src/one_caller.rt`. Its `with_loader` starts the loader:
///
/// ```rust
/// let limits = Limits::new(64, 1_024, 4_096)?;
/// let opening = Opening::new(alloc, hashing, &users, limits, 1)?;
/// with_loader::<Brand, _, _>(rt, alloc, &users, opening)
/// ```
#[derive(Drop)]
pub struct Opening<'s, S: Source> {
    source: &'s S,
    pub(crate) hashing: RandomState,
    pub(crate) limits: Limits,
    // If each batch is of one table.
    pub(crate) tables: Option<TableLimits>,
    pub(crate) callers: u32,
    pub(crate) policy: Policy,
    pub(crate) log: CellRow<Event>,
    pub(crate) outcomes: CellRow<Ending>,
    pub(crate) flags: Flags,
    pub(crate) blank: Blank,
}

impl<'s, S: Source> Model for Opening<'s, S> {
    ghost use Rattle.dl_values.specs.Limits.{rules_by};
    ghost use Rattle.dl_loader.specs.Opening.{Opening, IsOpening};

    ghost Value = { Opening S };

    ghost view = { λ o. record {
      source = o.source.now;
      rules = rules_by o.limits o.tables;
      callers = o.blank.parts;
      cells = record { log = o.log; outcomes = o.outcomes; flags = o.flags };
      ledger = o.blank.name;
    } };

    ghost invariant = { λ o. IsOpening (record {
      limits = o.limits;
      callers = o.callers;
      parts = o.blank.parts;
      cells = record { log = o.log; outcomes = o.outcomes; flags = o.flags };
    }) };
}

impl<'s, S: Source> Opening<'s, S> {
    /// An opening over a source, for 1 to [`MOST_CALLERS`] callers and batches that may mix tables. The loader hashes
    /// keys by `hashing`, and nothing that you see depends on it.
    ///
    /// # Errors
    /// The first cause of [`StartFault`] that applies, in its order.
    pub fn new(
        alloc: Global,
        hashing: RandomState,
        source: &'s S,
        limits: Limits,
        callers: u32,
    ) -> Result<Opening<'s, S>, StartFault>
        ensures source { IfOk result (λ o. o.source ≡ source.now) }
        ensures rules { IfOk result (λ o. o.rules ≡ mixed limits) }
        ensures callers { IfOk result (λ o. o.callers ≡ callers) }
        ensures accepted { OnOk result (AreCallers callers) }
        ensures refused { IfErr result (RefusedAs callers) }
    {
        Opening::of(alloc, hashing, source, limits, None, callers)
    }

    /// An opening of a loader each of whose batches has keys of one table: at most as many as that table's limit says,
    /// or else `max_batch` of the limits. All else is as in [`new`](Opening::new).
    ///
    /// # Errors
    /// As [`new`](Opening::new).
    pub fn by_table(
        alloc: Global,
        hashing: RandomState,
        source: &'s S,
        limits: Limits,
        tables: TableLimits,
        callers: u32,
    ) -> Result<Opening<'s, S>, StartFault>
        ensures source { IfOk result (λ o. o.source ≡ source.now) }
        ensures rules { IfOk result (λ o. o.rules ≡ by_table limits tables) }
        ensures callers { IfOk result (λ o. o.callers ≡ callers) }
        ensures accepted { OnOk result (AreCallers callers) }
        ensures refused { IfErr result (RefusedAs callers) }
    {
        Opening::of(alloc, hashing, source, limits, Some(tables), callers)
    }

    /// The same, but callers that take part send by this policy. Without this call it is [`Policy::Eager`].
    pub fn sending_by(self, policy: Policy) -> Opening<'s, S>
        ensures { result ≡ self.entry }
    {
        let mut opening = self;
        opening.policy = policy;
        opening
    }

    fn of(
        alloc: Global,
        hashing: RandomState,
        source: &'s S,
        limits: Limits,
        tables: Option<TableLimits>,
        callers: u32,
    ) -> Result<Opening<'s, S>, StartFault>
        ensures source { IfOk result (λ o. o.source ≡ source.now) }
        ensures rules { IfOk result (λ o. o.rules ≡ rules_by limits tables) }
        ensures callers { IfOk result (λ o. o.callers ≡ callers) }
        ensures accepted { OnOk result (AreCallers callers) }
        ensures refused { IfErr result (RefusedAs callers) }
    {
        let (log, outcomes) = rows(alloc, limits, callers)?;
        Ok(Opening {
            source,
            hashing,
            limits,
            tables,
            callers,
            policy: Policy::Eager,
            log,
            outcomes,
            flags: Flags::new(),
            blank: Blank::new(callers as u64),
        })
    }
}

/// The rows in which the history and the outcomes of a loader will lie.
///
/// # Errors
/// `NoCallers` or `TooManyCallers` if a loader can't have as many callers; `OutOfMemory`.
fn rows(
    alloc: Global,
    limits: Limits,
    callers: u32,
) -> Result<(CellRow<Event>, CellRow<Ending>), StartFault>
    ensures log { IfOk result (λ rows. row_len rows.0 ≡ limits.max_calls) }
    ensures outcomes { IfOk result (λ rows. row_len rows.1 ≡ limits.max_cells) }
    ensures accepted { OnOk result (AreCallers callers) }
    ensures refused { IfErr result (RefusedAs callers) }
{
    if callers == 0 {
        return Err(StartFault::NoCallers);
    }
    if callers > MOST_CALLERS {
        return Err(StartFault::TooManyCallers);
    }
    let log = CellRow::new(alloc, limits.max_calls())?;
    let outcomes = CellRow::new(alloc, limits.max_cells())?;
    Ok((log, outcomes))
}
