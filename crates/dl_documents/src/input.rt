//! What a document says.

use dl_desk::DeskCall;
use dl_source::Tables;
use dl_terms::Plan;
use dl_values::{Limits, List, TableLimits};

/// A document that you have read.
#[derive(Drop)]
pub enum Input {
    /// A call script.
    Script(Script),
    /// A plan file.
    Plans(PlanFile),
}

/// Calls, which one desk answers in their order.
#[derive(Debug, Drop)]
pub struct Script {
    /// The desk's limits.
    pub limits: Limits,
    /// In version 2, each batch has keys of one table, and these tables have limits of their own. `None` in version 1.
    pub table_limits: Option<TableLimits>,
    /// The calls.
    pub calls: Calls,
}

/// The calls of a script.
pub type Calls = List<DeskCall>;

/// Plans to serve at once over tables.
#[derive(Drop)]
pub struct PlanFile {
    /// The loader's limits.
    pub limits: Limits,
    /// In version 2, each batch has keys of one table, and these tables have limits of their own. `None` in version 1.
    pub table_limits: Option<TableLimits>,
    /// The tables, from which the keys are fetched.
    pub tables: Tables,
    /// The plans: 1 to [`MOST_PLANS`](crate::MOST_PLANS), each of at most [`MOST_STEPS`](crate::MOST_STEPS) steps, with
    /// terms at most [`MOST_HEIGHT`](crate::MOST_HEIGHT) high.
    pub plans: Vec<Plan>,
}
