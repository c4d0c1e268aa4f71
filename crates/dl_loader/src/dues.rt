//! What the cells of a batch's members get when the batch ends.

ghost use Rattle.std.specs.Prelude.{◌≡◌, ℕ, ◌+◌, ◌<◌, ◌≤◌, IfOk, IsSome, Some, length, map};
ghost use Rattle.dl_loader.specs.Inside.Dues.{AreDue, AreGiven, CanEnd, outcome_by};
ghost use Rattle.dl_loader.specs.Inside.DueLists.{due_list};
ghost use Rattle.dl_history.specs.Journal.{refusals};

use dl_desk::Outcome;
use dl_history::{Call, CellRows, Ending, Journal, LoaderName};
use std::alloc::{AllocError, Global};

/// The end that a cell is due.
#[derive(Drop)]
pub(crate) struct Due {
    cell: u32,
    ending: Ending,
}

impl Due {
    /// The due of a cell: the outcome that a call at a place of the history brings its member. Fails if a reference
    /// count of the outcome would overflow.
    fn new(at: u16, cell: u32, call: &Call, place: usize) -> Result<Due, AllocError>
        requires { IsSome (outcome_by call.now place) }
        ensures cell { IfOk result (λ due. due.cell ≡ cell) }
        ensures at { IfOk result (λ due. due.ending.at ≡ at) }
        ensures outcome { IfOk result (λ due. outcome_by call.now place ≡ Some due.ending.outcome) }
    {
        let outcome = outcome_at(call, place)?;
        Ok(Due {
            cell,
            ending: Ending { at, outcome },
        })
    }
}

/// The dues of the cells of a batch's members, in order, by a call at a place of the history that ends the batch. Fails
/// if memory runs out.
pub(crate) fn dues(
    alloc: Global,
    at: u16,
    cells: &[u32],
    call: &Call,
) -> Result<Vec<Due>, AllocError>
    requires { (i : ℕ) → i < length cells.now → IsSome (outcome_by call.now i) }
    ensures { IfOk result (λ dues. AreDue call.now at cells.now dues.items) }
{
    let mut dues = Vec::with_capacity(alloc, cells.len())?;
    for place in 0..cells.len() {
        dues.push_reserved(Due::new(at, cells[place], call, place)?);
    }
    Ok(dues)
}

/// How many dues there are.
#[inline(always)]
pub(crate) fn count(dues: &Option<Vec<Due>>) -> usize
    ensures { result ≡ length (due_list dues.now) }
{
    match dues {
        None => 0,
        Some(dues) => dues.len(),
    }
}

/// Gives the cells their dues, if there are any, and counts those that refuse.
// Inlined for the sake of calls that end no cell.
#[inline(always)]
pub(crate) fn give<L: LoaderName>(
    journal: &mut Journal<L>,
    rows: &CellRows<L>,
    dues: Option<Vec<Due>>,
) -> usize
    requires fits { length journal.old.cells ≤ L.service.rules.limits.max_cells }
    requires can { CanEnd (map (λ d. d.cell) (due_list dues)) journal.old.cells }
    ensures history { journal.new.history ≡ journal.old.history }
    ensures given { AreGiven (due_list dues) journal.old.cells journal.new.cells }
    ensures refused { refusals journal.new.cells ≡ refusals journal.old.cells + result }
    ensures few { result ≤ length (due_list dues) }
{
    match dues {
        None => 0,
        Some(dues) => give_each(journal, rows, dues),
    }
}

/// Gives each of the cells its due, and counts those that refuse.
#[tactic(auto, using(crate::proofs::DueLemmas::given_none))]
fn give_each<L: LoaderName>(journal: &mut Journal<L>, rows: &CellRows<L>, dues: Vec<Due>) -> usize
    requires fits { length journal.old.cells ≤ L.service.rules.limits.max_cells }
    requires can { CanEnd (map (λ d. d.cell) dues.items) journal.old.cells }
    ensures history { journal.new.history ≡ journal.old.history }
    ensures given { AreGiven dues.items journal.old.cells journal.new.cells }
    ensures refused { refusals journal.new.cells ≡ refusals journal.old.cells + result }
    ensures few { result ≤ length dues.items }
{
    let mut refused = 0;
    for due in dues {
        let Due { cell, ending } = due;
        if !journal.end(rows, cell, ending) {
            refused += 1;
        }
    }
    refused
}

/// The outcome that the end of a batch brings its member at a place.
fn outcome_at(call: &Call, place: usize) -> Result<Outcome, AllocError>
    requires { IsSome (outcome_by call.now place) }
    ensures { IfOk result (λ outcome. outcome_by call.now place ≡ Some outcome) }
{
    match call {
        Call::Prime(_, outcome) => (**outcome).try_copy(),
        Call::Settle { outcomes, .. } => outcomes.as_slice()[place].try_copy(),
        Call::Fail { fault, .. } => Ok(Outcome::BatchFailed(fault.try_copy()?)),
        _ => unreachable!(),
    }
}
