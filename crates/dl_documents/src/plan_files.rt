//! Reads plan files.

ghost use Rattle.std.specs.Prelude.{◌≡◌, ◌⊎◌, false, map, IfOk, IfErr, MatchOption};
ghost use Rattle.std.specs.List.{position, AllByRecursion};
ghost use Rattle.serde_json.specs.View.{view};
ghost use Rattle.dl_documents.specs.Document.{SpellsPlans, is_script};
ghost use Rattle.dl_documents.specs.Faults.{IsBadTop};
ghost use Rattle.dl_documents.specs.Steps.{plan_view, step_view};
ghost use Rattle.dl_documents.specs.Inside.Results.{HasHead, RefusedFor};
ghost use Rattle.dl_documents.specs.Inside.PlanFiles.{rows_view, HasLists, HasPlans, AreRows, HasOther, IsPlanOf, IsFirstBadIn, AreRead, IsFirstBadStep};
ghost use Rattle.dl_documents.specs.Inside.PlanFiles.{is_high, is_long, AreLow, IsFirstHigh, Fit, IsMisfit, AreTables, IsTableRefusal, AreRest, IsRefusal};
ghost use Rattle.dl_documents.specs.Inside.Top.{top_data, IsApart};
ghost use Rattle.dl_documents.specs.Inside.Trees.{tree_data, list_data};
ghost use Rattle.dl_documents.specs.Tables.{IsTableFault};

use crate::fault::PlanFault;
use crate::forms::Forms;
use crate::head::{Head, Version};
use crate::input::PlanFile;
use crate::member::into_list;
use crate::steps::read_step;
use crate::table_limits::all_limits;
use crate::top::Top;
use crate::tree::into_items;
use dl_source::{TableFault, TableNumber, Tables};
use dl_terms::{MOST_PLANS, Plan, Step};
use dl_values::{Limits, TableLimits};
use json::Value;
use std::alloc::Global;
use std::hash::RandomState;

/// How high the term of a step may be.
pub const MOST_HEIGHT: u32 = 32;

/// How many steps a plan may have.
pub const MOST_STEPS: usize = 256;

/// The plan file of a document, once its head is read.
///
/// # Errors
/// The first cause that applies, or `OutOfMemory`.
pub(crate) fn plan_file(
    alloc: Global,
    hashing: RandomState,
    top: Top<'_>,
    head: Head,
) -> Result<PlanFile, PlanFault>
    requires kind { is_script (top_data top) ≡ false }
    requires head { HasHead (top_data top) head }
    requires apart { IsApart top }
    ensures ok { IfOk result (SpellsPlans (top_data top.entry)) }
    ensures err { IfErr result (RefusedFor (top_data top.entry)) }
{
    let (lists, tables) = lists_and_tables(alloc, top)?;
    let plans = plans(alloc, head.forms, lists)?;
    let (tables, limits, table_limits) = rest(alloc, hashing, plans.as_slice(), tables, head)?;
    Ok(PlanFile {
        limits,
        table_limits,
        tables,
        plans,
    })
}

// ---- the top

/// The lists of steps of a document's plans, and the value of its tables, moved out of it.
fn lists_and_tables(
    alloc: Global,
    top: Top<'_>,
) -> Result<(Vec<Vec<Value<'_>>>, serde_json::Value), PlanFault>
    requires kind { is_script (top_data top) ≡ false }
    requires apart { IsApart top }
    ensures ok { IfOk result (λ p. HasPlans (top_data top.entry) (rows_view p.0.items) (view p.1)) }
    ensures err { IfErr result (λ f. (f ≡ PlanFault.OutOfMemory) ⊎ ((f ≡ PlanFault.Top) × IsBadTop (top_data top.entry))) }
{
    let Some((plans, tables)) = plans_and_tables(top) else {
        return Err(PlanFault::Top);
    };
    if plans.is_empty() || plans.len() > MOST_PLANS {
        return Err(PlanFault::Top);
    }
    let lists = lists(alloc, plans)?;
    Ok((lists, tables))
}

/// The list of a document's plans, and the value of its tables, moved out of it.
fn plans_and_tables(top: Top<'_>) -> Option<(Vec<Value<'_>>, serde_json::Value)>
    requires kind { is_script (top_data top) ≡ false }
    requires apart { IsApart top }
    ensures { MatchOption result (IsBadTop (top_data top.entry)) (λ p. HasLists (top_data top.entry) (list_data p.0.items) (view p.1)) }
{
    let Top { tables, members } = top;
    let tables = tables?;
    let plans = into_list(members, "plans")?;
    Some((plans, tables))
}

/// The items as lists.
///
/// # Errors
/// `Top` if one isn't a list, and `OutOfMemory`.
fn lists(alloc: Global, items: Vec<Value<'_>>) -> Result<Vec<Vec<Value<'_>>>, PlanFault>
    ensures ok { IfOk result (λ ls. AreRows (map tree_data items.entry.items) (rows_view ls.items)) }
    ensures err { IfErr result (λ f. (f ≡ PlanFault.OutOfMemory) ⊎ ((f ≡ PlanFault.Top) × HasOther (map tree_data items.entry.items))) }
{
    let mut lists = Vec::new(alloc);
    for item in items {
        let list = into_items(item).ok_or(PlanFault::Top)?;
        lists.push(list)?;
    }
    Ok(lists)
}

// ---- steps

/// The plans of these lists of steps, whose terms may have these forms.
///
/// # Errors
/// `Shape` at the first item that isn't a step, and `OutOfMemory`.
fn plans(alloc: Global, forms: Forms, lists: Vec<Vec<Value<'_>>>) -> Result<Vec<Plan>, PlanFault>
    ensures ok { IfOk result (λ ps. AreRead forms (rows_view lists.entry.items) (map plan_view ps.items)) }
    ensures err { IfErr result (λ f. (f ≡ PlanFault.OutOfMemory) ⊎ IsFirstBadStep forms (rows_view lists.entry.items) f) }
{
    let mut plans = Vec::new(alloc);
    for list in lists {
        let plan = plan(alloc, forms, plans.len(), list)?;
        plans.push(plan)?;
    }
    Ok(plans)
}

/// The plan with this number and these steps, whose terms may have these forms.
fn plan(
    alloc: Global,
    forms: Forms,
    number: usize,
    items: Vec<Value<'_>>,
) -> Result<Plan, PlanFault>
    ensures ok { IfOk result (λ p. IsPlanOf forms (map tree_data items.entry.items) (plan_view p)) }
    ensures err { IfErr result (λ f. (f ≡ PlanFault.OutOfMemory) ⊎ IsFirstBadIn forms number (map tree_data items.entry.items) f) }
{
    let mut steps = Vec::with_capacity(alloc, items.len())?;
    for item in items {
        let step = read_step(alloc, forms, item)?;
        let step = step.ok_or(PlanFault::Shape {
            plan: number,
            step: steps.len(),
        })?;
        steps.push(step)?;
    }
    Ok(Plan { steps })
}

// ---- what to test once all steps are read

/// The tables, the limits and those of tables.
///
/// # Errors
/// The fault of the plans, of the tables or of a number, the first that there is, or `OutOfMemory`.
fn rest(
    alloc: Global,
    hashing: RandomState,
    plans: &[Plan],
    tables: serde_json::Value,
    head: Head,
) -> Result<(Tables, Limits, Option<TableLimits>), PlanFault>
    ensures ok { IfOk result (λ p. AreRest (map plan_view plans.now) (view tables) head p) }
    ensures err { IfErr result (λ f. (f ≡ PlanFault.OutOfMemory) ⊎ IsRefusal (map plan_view plans.now) (view tables) head f) }
{
    if let Some(fault) = misfit(plans) {
        return Err(fault);
    }
    let (tables, numbers) = read_tables(alloc, hashing, head.version, tables)?;
    let (limits, table_limits) = all_limits(alloc, head, numbers)?;
    Ok((tables, limits, table_limits))
}

/// The fault of the plans: their first term that is too high, or else the first plan that has too many steps.
fn misfit(plans: &[Plan]) -> Option<PlanFault>
    ensures { MatchOption result (Fit (map plan_view plans.now)) (IsMisfit (map plan_view plans.now)) }
{
    if let Some(fault) = too_deep(plans) {
        return Some(fault);
    }
    match first_long(plans) {
        Some(plan) => Some(PlanFault::TooManySteps { plan }),
        None => None,
    }
}

/// The fault of the first term that is too high.
fn too_deep(plans: &[Plan]) -> Option<PlanFault>
    ensures { MatchOption result (AllByRecursion AreLow (map plan_view plans.now)) (IsFirstHigh (map plan_view plans.now)) }
{
    for (index, plan) in plans.iter().enumerate() {
        if let Some(step) = first_high(plan) {
            return Some(PlanFault::TooDeep { plan: index, step });
        }
    }
    None
}

/// The first step of a plan whose term is too high.
fn first_high(plan: &Plan) -> Option<usize>
    ensures { result ≡ position (λ s. is_high (step_view s)) plan.now.steps.items }
{
    plan.steps.iter().position(|step| is_high(step))
}

/// Whether it is a step with a term that is too high.
fn is_high(step: &Step) -> bool
    ensures { result ≡ is_high (step_view step.now) }
{
    match step {
        Step::Eval(term) => term.height() > MOST_HEIGHT,
        _ => false,
    }
}

/// The first plan that has too many steps.
fn first_long(plans: &[Plan]) -> Option<usize>
    ensures { result ≡ position (λ p. is_long (plan_view p)) plans.now }
{
    plans.iter().position(|plan| is_long(plan))
}

/// Whether the plan has too many steps.
fn is_long(plan: &Plan) -> bool
    ensures { result ≡ is_long (plan_view plan.now) }
{
    plan.steps.len() > MOST_STEPS
}

/// The tables that a value spells, and the numbers that it gives them.
fn read_tables(
    alloc: Global,
    hashing: RandomState,
    version: Version,
    tables: serde_json::Value,
) -> Result<(Tables, Vec<TableNumber>), PlanFault>
    ensures ok { IfOk result (λ p. AreTables version (view tables) p.0 p.1.items) }
    ensures err { IfErr result (λ f. (f ≡ PlanFault.OutOfMemory) ⊎ IsTableRefusal version (view tables) f) }
{
    match spelled(alloc, hashing, version, tables) {
        Ok(tables) => Ok(tables),
        Err(TableFault::OutOfMemory) => Err(PlanFault::OutOfMemory),
        Err(fault) => Err(PlanFault::Table(fault)),
    }
}

/// The tables that a value spells in this version, and the numbers that it gives them: none in the first.
fn spelled(
    alloc: Global,
    hashing: RandomState,
    version: Version,
    tables: serde_json::Value,
) -> Result<(Tables, Vec<TableNumber>), TableFault>
    ensures ok { IfOk result (λ p. AreTables version (view tables) p.0 p.1.items) }
    ensures err { IfErr result (λ f. (f ≡ TableFault.OutOfMemory) ⊎ IsTableFault version (view tables) f) }
{
    match version {
        Version::First => {
            let tables = Tables::from_owned_value(alloc, hashing, tables)?;
            Ok((tables, Vec::new(alloc)))
        }
        Version::Second => {
            let read = Tables::from_owned_value_2(alloc, hashing, tables)?;
            Ok(read)
        }
    }
}
