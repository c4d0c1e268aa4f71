//! What became of the cells of a history.

use crate::mark::{Badges, Mark};
use dl_desk::{BatchFault, BatchState, Desk, LoadReply, Outcome};
use dl_documents::ScriptRun;
use dl_history::{Events, History, Reply};
use std::alloc::{AllocError, Global};

/// What became of a cell: how it began, and how it ended.
#[derive(Drop)]
pub(crate) struct Fate {
    is_primed: bool,
    end: End,
}

/// How a cell ended.
#[derive(Drop)]
enum End {
    /// It didn't, or it isn't known how, and its batch didn't fail.
    Open,
    /// By this outcome.
    Outcome(Outcome),
    /// Its batch failed, and it isn't known why.
    Failed,
}

impl Fate {
    /// The marks of a load of the cell, of which the first says what the load did.
    pub(crate) fn badges(&self, mark: Mark) -> Badges {
        Badges {
            mark,
            is_primed: self.is_primed,
            failure: self.failure(),
        }
    }

    /// The mark of its failure, if it failed.
    pub(crate) fn failure(&self) -> Option<Mark> {
        match &self.end {
            End::Outcome(Outcome::KeyError(_)) => Some(Mark::KeyError),
            End::Outcome(Outcome::BatchFailed(_)) | End::Failed => Some(Mark::Failed),
            End::Outcome(Outcome::Value(_)) | End::Open => None,
        }
    }

    /// The text of its error, if it has one.
    pub(crate) fn why(&self) -> Option<&str> {
        match &self.end {
            End::Outcome(outcome) => why_of(outcome),
            End::Open | End::Failed => None,
        }
    }
}

/// The text of an outcome's error, if it is one.
pub(crate) fn why_of(outcome: &Outcome) -> Option<&str> {
    match outcome {
        Outcome::Value(_) => None,
        Outcome::KeyError(text) => Some(text.as_str()),
        Outcome::BatchFailed(fault) => Some(why_failed(fault)),
    }
}

/// Why a batch failed.
pub(crate) fn why_failed(fault: &BatchFault) -> &str {
    match fault {
        BatchFault::Source(text) => text.as_str(),
        BatchFault::Memory => "memory",
        BatchFault::Unsent => "unsent",
    }
}

/// What became of each cell of a history, in order. Fails if memory runs out.
pub(crate) fn cell_fates(alloc: Global, history: &History) -> Result<Vec<Fate>, AllocError> {
    let mut cells = Vec::new(alloc);
    let events = history.events();
    for at in 0..events.len() {
        if let Some(event) = events.get(at) {
            push_cells(&mut cells, history, &event.reply)?;
        }
    }
    Ok(cells)
}

/// The cells that a call begins.
fn push_cells(cells: &mut Vec<Fate>, history: &History, reply: &Reply) -> Result<(), AllocError> {
    if let Reply::Primed(cell) = reply {
        push_cell(cells, history, *cell, true)?;
    }
    for reply in replies_of(reply) {
        if let LoadReply::Fresh { cell, .. } = reply {
            push_cell(cells, history, *cell, false)?;
        }
    }
    Ok(())
}

/// A cell that a prime or a load begins.
fn push_cell(
    cells: &mut Vec<Fate>,
    history: &History,
    cell: u32,
    is_primed: bool,
) -> Result<(), AllocError> {
    let end = match history.outcome(cell) {
        Some(outcome) => End::Outcome(outcome.try_copy()?),
        None => End::Open,
    };
    cells.push(Fate { is_primed, end })?;
    Ok(())
}

/// What became of each cell of a script, in order: a prime began it, or its batch failed. Fails if memory runs out.
pub(crate) fn script_fates(alloc: Global, run: &ScriptRun) -> Result<Vec<Fate>, AllocError> {
    let mut cells = Vec::new(alloc);
    for answer in &run.answers {
        if let Ok(reply) = answer {
            push_script_cells(&mut cells, &run.desk, reply)?;
        }
    }
    Ok(cells)
}

/// The cells that a call of a script begins.
fn push_script_cells(cells: &mut Vec<Fate>, desk: &Desk, reply: &Reply) -> Result<(), AllocError> {
    if let Reply::Primed(_) = reply {
        cells.push(Fate {
            is_primed: true,
            end: End::Open,
        })?;
    }
    for reply in replies_of(reply) {
        if let LoadReply::Fresh { batch, .. } = reply {
            cells.push(Fate {
                is_primed: false,
                end: batch_end(desk, *batch),
            })?;
        }
    }
    Ok(())
}

/// How the cells of a batch of a script ended.
fn batch_end(desk: &Desk, batch: u32) -> End {
    match desk.batch(batch) {
        Some(batch) => match batch.state() {
            BatchState::Failed => End::Failed,
            _ => End::Open,
        },
        None => End::Open,
    }
}

/// The replies to the loads of a call.
pub(crate) fn replies_of(reply: &Reply) -> &[LoadReply] {
    match reply {
        Reply::Loaded(reply) => std::slice::from_ref(reply),
        Reply::Many(replies) => replies.as_slice(),
        Reply::Primed(_) | Reply::Kept | Reply::Done | Reply::Sent(_) => &[],
    }
}
