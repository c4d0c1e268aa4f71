//! The tables that answer a plan file: its own, and those of a database.

ghost use Rattle.std.specs.Prelude.{◌≡◌, ◌++◌, ◌∷◌, [], None, IfOk, IfSome, OnOk};
ghost use Rattle.dl_source.specs.Answer.{answer_of, first_break, outcomes_of};
ghost use Rattle.dl_plans.specs.JoinedTables.{joined, AreNames};

use crate::table_names::Names;
use dl_desk::{FetchKey, Message, Outcome, Outcomes};
use dl_source::{BatchAnswer, Source, Tables};
use std::alloc::{AllocError, Global};
use std::marker::Model;
use std::slice;

/// The tables of a plan file, and behind them those of a database: of two with one name the first counts. Contracts see
/// them all.
#[derive(Drop)]
pub(crate) struct JoinedTables<'s> {
    own: &'s Tables,
    names: &'s Names,
    database: &'s Option<Tables>,
}

impl<'s> Model for JoinedTables<'s> {
    ghost use Rattle.std.specs.Prelude.{IfSome};
    ghost use Rattle.dl_source.specs.Tables.{Tables, tables_code};
    ghost use Rattle.dl_plans.specs.JoinedTables.{joined, AreNames};

    ghost Value = { Tables };

    ghost coded = { tables_code };

    ghost view = { λ t. joined t.own.now t.database.now };

    ghost invariant = { λ t. IfSome t.database.now (λ _. AreNames t.names.now t.own.now) };
}

impl<'s> JoinedTables<'s> {
    /// The tables of a plan file with these names, and those of the database.
    pub(crate) fn new(
        own: &'s Tables,
        names: &'s Names,
        database: &'s Option<Tables>,
    ) -> JoinedTables<'s>
        requires { IfSome database.now (λ _. AreNames names.now own.now) }
        ensures { result ≡ joined own.now database.now }
    {
        JoinedTables {
            own,
            names,
            database,
        }
    }

    /// What the tables answer, key by key. Fails if memory runs out.
    fn fetch_each(&self, alloc: Global, keys: &[FetchKey]) -> Result<BatchAnswer, AllocError>
        ensures { IfOk result (λ answer. answer_of self.now keys.now ≡ answer) }
    {
        let mut outcomes = Vec::with_capacity(alloc, keys.len())?;
        match self.add_outcomes(alloc, &mut outcomes, keys)? {
            Some(text) => Ok(BatchAnswer::Break(text)),
            None => Ok(BatchAnswer::Each(Outcomes::new(alloc, outcomes)?)),
        }
    }

    /// Adds the outcome of each key. At the first key that breaks, it stops and answers that text. Fails if memory runs
    /// out.
    fn add_outcomes(
        &self,
        alloc: Global,
        outcomes: &mut Vec<Outcome>,
        keys: &[FetchKey],
    ) -> Result<Option<Message>, AllocError>
        ensures broken { IfOk result (λ text. text ≡ first_break self.now keys.now) }
        ensures added { result ≡ Ok None → outcomes.new.items ≡ outcomes.old.items ++ outcomes_of self.now keys.now }
    {
        for key in keys {
            match self.fetch_one(alloc, key)? {
                BatchAnswer::Each(answer) => push_copies(outcomes, answer.as_slice())?,
                BatchAnswer::Break(text) => return Ok(Some(text)),
            }
        }
        Ok(None)
    }

    /// What the tables answer to this key alone. Fails if memory runs out.
    fn fetch_one(&self, alloc: Global, key: &FetchKey) -> Result<BatchAnswer, AllocError>
        ensures { IfOk result (λ answer. answer_of self.now (key.now ∷ []) ≡ answer) }
    {
        let keys = slice::from_ref(key);
        if self.names.contains(key.table()) {
            return self.own.fetch(alloc, keys);
        }
        match self.database {
            Some(database) => database.fetch(alloc, keys),
            None => self.own.fetch(alloc, keys),
        }
    }
}

impl<'s> Source for JoinedTables<'s> {
    ghost use Rattle.dl_values.specs.Answering.{function};
    ghost use Rattle.dl_source.specs.Answer.{answer_of};
    ghost use Rattle.dl_source.specs.AnswerFits.{answer_fits};

    ghost answer = { function answer_of };

    ghost fits = { answer_fits };

    /// What the tables of the plan file answer. With a database, each key has the answer of the first table that has its
    /// name.
    fn fetch(&self, alloc: Global, keys: &[FetchKey]) -> Result<BatchAnswer, AllocError> {
        match self.database {
            None => self.own.fetch(alloc, keys),
            Some(_) => self.fetch_each(alloc, keys),
        }
    }
}

/// Adds copies of the outcomes. Fails if memory runs out.
fn push_copies(outcomes: &mut Vec<Outcome>, more: &[Outcome]) -> Result<(), AllocError>
    ensures { OnOk result (outcomes.new.items ≡ outcomes.old.items ++ more.now) }
{
    for outcome in more {
        outcomes.push(outcome.try_copy()?)?;
    }
    Ok(())
}
