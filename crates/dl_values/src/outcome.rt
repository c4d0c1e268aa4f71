//! What the load of a key ends with, and what a source answers.

ghost use Rattle.std.specs.Prelude.{◌≡◌, IfOk};

use crate::json::Json;
use crate::list::List;
use crate::message::Message;
use std::alloc::AllocError;
use std::fmt;

/// What the load of a key ends with.
#[derive(Debug)]
pub enum Outcome {
    /// The key's value.
    Value(Json),
    /// Why this key has no value. A memo keeps it as it keeps a value.
    KeyError(Message),
    /// Why the key's whole batch failed. A memo forgets the batch's keys.
    BatchFailed(BatchFault),
}

impl Drop for Outcome {
    fn drop(self) {
        match self {
            Outcome::Value(value) => drop(value),
            Outcome::KeyError(text) => drop(text),
            Outcome::BatchFailed(fault) => drop(fault),
        }
    }
}

/// Why a whole batch failed.
#[derive(Debug)]
pub enum BatchFault {
    /// The source broke, with this text.
    Source(Message),
    /// Memory ran out: the batch has no answer, or its outcomes couldn't be kept.
    Memory,
    /// The batch never got to a worker.
    Unsent,
}

impl Drop for BatchFault {
    fn drop(self) {
        match self {
            BatchFault::Source(text) => drop(text),
            BatchFault::Memory | BatchFault::Unsent => {}
        }
    }
}

/// A value as compact JSON, or why there is none.
impl fmt::Display for Outcome {
    fn fmt<W: fmt::Write>(&self, f: &mut fmt::Formatter<W>) -> fmt::Result {
        match self {
            Outcome::Value(value) => write!(f, "{}", value.value()),
            Outcome::KeyError(text) => write!(f, "error {text:?}"),
            Outcome::BatchFailed(fault) => write!(f, "failed: {fault}"),
        }
    }
}

impl fmt::Display for BatchFault {
    fn fmt<W: fmt::Write>(&self, f: &mut fmt::Formatter<W>) -> fmt::Result {
        match self {
            BatchFault::Source(text) => write!(f, "{text:?}"),
            BatchFault::Memory => f.write_str("out of memory"),
            BatchFault::Unsent => f.write_str("unsent"),
        }
    }
}

impl Outcome {
    /// The same outcome, shared.
    ///
    /// # Errors
    /// `AllocError` if a reference count would overflow.
    pub fn try_copy(&self) -> Result<Outcome, AllocError>
        ensures { IfOk result (λ o. o ≡ self.now) }
    {
        match self {
            Outcome::Value(value) => Ok(Outcome::Value(value.try_copy()?)),
            Outcome::KeyError(text) => Ok(Outcome::KeyError(text.try_copy()?)),
            Outcome::BatchFailed(fault) => Ok(Outcome::BatchFailed(fault.try_copy()?)),
        }
    }
}

impl BatchFault {
    /// The same fault, shared.
    ///
    /// # Errors
    /// `AllocError` if a reference count would overflow.
    pub fn try_copy(&self) -> Result<BatchFault, AllocError>
        ensures { IfOk result (λ f. f ≡ self.now) }
    {
        match self {
            BatchFault::Source(text) => Ok(BatchFault::Source(text.try_copy()?)),
            BatchFault::Memory => Ok(BatchFault::Memory),
            BatchFault::Unsent => Ok(BatchFault::Unsent),
        }
    }
}

/// Outcomes, in the order of their keys.
pub type Outcomes = List<Outcome>;

/// What a source answers to a list of keys.
#[derive(Debug, Drop)]
pub enum BatchAnswer {
    /// An outcome for each key, in the order of the keys.
    Each(Outcomes),
    /// Why the whole list has no answer.
    Break(Message),
}
