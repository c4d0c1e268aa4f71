//! The numbers of a picture.

ghost use Rattle.std.specs.Prelude.{IfOk};
ghost use Rattle.dl_documents.specs.declared.input.Script.{Script};
ghost use Rattle.dl_picture.specs.Numbers.{AreHistoryNumbers, ArePlanNumbers};
ghost use Rattle.dl_documents.specs.ScriptRun.{IsRunOf};
ghost use Rattle.dl_picture.specs.Script.{AreScriptNumbers};

use crate::batches::{BatchNumbers, batch_numbers, desk_numbers};
use crate::loads::{LoadNumbers, answer_numbers, load_numbers, rounds};
use dl_documents::ScriptRun;
use dl_history::History;
use std::alloc::AllocError;

/// The numbers of a history.
#[derive(Clone, Copy)]
pub struct HistoryNumbers {
    /// The numbers of all its loads.
    pub loads: LoadNumbers,
    /// The numbers of all its batches.
    pub batches: BatchNumbers,
}

/// The numbers of one plan of a history.
#[derive(Clone, Copy)]
pub struct PlanNumbers {
    /// How many rounds it took.
    pub rounds: usize,
    /// The numbers of its own loads.
    pub loads: LoadNumbers,
}

/// Counts the loads and batches of a history.
///
/// # Errors
/// `AllocError` if there are more than a number can count, which no memory holds.
pub fn history_numbers(history: &History) -> Result<HistoryNumbers, AllocError>
    ensures { IfOk result (AreHistoryNumbers history.now.events) }
{
    Ok(HistoryNumbers {
        loads: load_numbers(history.events(), None)?,
        batches: batch_numbers(&history.batches())?,
    })
}

/// Counts the rounds and loads of a plan, by the number of its caller.
///
/// # Errors
/// `AllocError` if there are more than a number can count, which no memory holds.
pub fn plan_numbers(history: &History, plan: u32) -> Result<PlanNumbers, AllocError>
    ensures { IfOk result (ArePlanNumbers history.now.events plan) }
{
    Ok(PlanNumbers {
        rounds: rounds(history.events(), plan),
        loads: load_numbers(history.events(), Some(plan))?,
    })
}

/// The numbers of a script's run, which may not have sent all its batches.
///
/// # Errors
/// `AllocError` if there are more than a number can count, which no memory holds.
pub(crate) fn script_numbers(run: &ScriptRun) -> Result<HistoryNumbers, AllocError>
    ensures { IfOk result (λ numbers. (script : Script) → IsRunOf script run.now → AreScriptNumbers script numbers) }
{
    Ok(HistoryNumbers {
        loads: answer_numbers(run.answers.as_slice())?,
        batches: desk_numbers(&run.desk)?,
    })
}
