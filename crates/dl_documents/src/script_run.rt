//! Runs scripts.

ghost use Rattle.std.specs.Prelude.{◌≡◌, [], IfOk};
ghost use Rattle.dl_values.specs.Limits.{rules_by};
ghost use Rattle.dl_desk.specs.BatchBook.{StandsFor};
ghost use Rattle.dl_documents.specs.ScriptRun.{IsRunOf};

use crate::input::Script;
use dl_desk::{Desk, DeskFault, Reply};
use std::alloc::{AllocError, Global};
use std::hash::RandomState;

/// What the calls of a script leave: the answer of each, in order, and the desk that gave them.
#[derive(Drop)]
pub struct ScriptRun {
    /// The reply of each call, or its refusal, which changes nothing.
    pub answers: Vec<Result<Reply, DeskFault>>,
    /// The desk, after the last call.
    pub desk: Desk,
}

impl Script {
    /// Makes the calls in order, on one desk with the script's limits. `hashing` hashes the desk's keys, and nothing
    /// that you see depends on it.
    ///
    /// # Errors
    /// `AllocError` if memory runs out.
    pub fn play(&self, alloc: Global, hashing: RandomState) -> Result<ScriptRun, AllocError>
        ensures { IfOk result (IsRunOf self.now) }
    {
        let mut desk = self.desk(alloc, hashing)?;
        let answers = desk.play(alloc, self.calls.as_slice())?;
        Ok(ScriptRun { answers, desk })
    }

    /// A desk with the script's limits. Fails if a reference count would overflow.
    fn desk(&self, alloc: Global, hashing: RandomState) -> Result<Desk, AllocError>
        ensures rules { IfOk result (λ desk. desk.book.rules ≡ rules_by self.now.limits self.now.table_limits) }
        ensures stands { IfOk result (λ desk. StandsFor desk.book []) }
    {
        match &self.table_limits {
            None => Ok(Desk::new(alloc, hashing, self.limits)),
            Some(tables) => Ok(Desk::by_table(alloc, hashing, self.limits, tables.try_copy()?)),
        }
    }
}
