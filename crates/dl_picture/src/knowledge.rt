//! What a term knows: the outcomes of the loads that were read.

ghost use Rattle.std.specs.Prelude.{◌≡◌, IfOk, option_copied};
ghost use Rattle.serde_json.specs.View.{view};
ghost use Rattle.dl_picture.specs.Asking.{known_of, listed_as, target_of};
ghost use Rattle.dl_terms.specs.TermAnswers.{listed, value_target};
ghost use Rattle.dl_terms.specs.declared.answer.Answer.TheVariants as answer;

use dl_desk::{FetchKey, Outcome};
use dl_history::History;
use dl_terms::{AnswerValue, EvalFault};
use dl_values::{KeyFault, Text};
use indexmap::IndexMap;
use serde_json::Value;
use std::alloc::{AllocError, Global};
use std::hash::RandomState;

/// The most items of a list of ids, or of items to go over.
pub(crate) const MOST_ITEMS: usize = 1_024;

/// What a term knows: the cells of the keys that it has read, and the history with their outcomes.
#[derive(Clone, Copy)]
pub(crate) struct Knowledge<'h, 'c> {
    pub(crate) alloc: Global,
    pub(crate) history: &'h History,
    pub(crate) cells: &'c IndexMap<FetchKey, u32, RandomState>,
}

impl<'h> Knowledge<'h, '_> {
    /// The outcome of a key, if it was read.
    pub(crate) fn outcome(&self, key: &FetchKey) -> Option<&'h Outcome>
        ensures { option_copied result ≡ known_of self.now key.now }
    {
        match self.cells.get(key) {
            Some(cell) => self.history.outcome(*cell),
            None => None,
        }
    }

    /// The key that a value names in a table, if the value is an id.
    pub(crate) fn key_in(&self, table: &Text, id: &Value) -> Result<Option<FetchKey>, AllocError>
        ensures { IfOk result (λ k. target_of k ≡ value_target table.now (view id.now)) }
    {
        match id.as_str() {
            None => Ok(None),
            Some(id) => match FetchKey::new(self.alloc, table.as_str(), id) {
                Ok(key) => Ok(Some(key)),
                Err(KeyFault::OutOfMemory) => Err(AllocError),
                Err(
                    KeyFault::EmptyTable
                    | KeyFault::TableTooLong
                    | KeyFault::EmptyId
                    | KeyFault::IdTooLong,
                ) => Ok(None),
            },
        }
    }

    /// The items of a value to go over, or the fault in their place.
    pub(crate) fn items(
        &self,
        value: AnswerValue,
    ) -> Result<Result<Vec<AnswerValue>, EvalFault>, AllocError>
        ensures { IfOk result (λ r. listed_as r ≡ listed (answer.Value value)) }
    {
        match value.into_items(self.alloc)? {
            None => Ok(Err(EvalFault::NotAList)),
            Some(items) => {
                if items.len() > MOST_ITEMS {
                    return Ok(Err(EvalFault::TooMany));
                }
                Ok(Ok(items))
            }
        }
    }
}
