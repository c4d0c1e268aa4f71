//! The keys that a run of a term asks for.

ghost use Rattle.std.specs.Prelude.{◌≤◌, length};

use crate::answer::Answer;
use crate::room::{Room, take_text};
use dl_values::{FetchKey, Outcome};
use indexmap::IndexSet;
use std::alloc::{AllocError, Global};
use std::hash::RandomState;

/// The keys that a run of a term has asked for, each once, in the order in which it first asked. The first of them have
/// outcomes, which this value borrows. It *wants* the others: load them, and hand in their outcomes by
/// [`learn`](Asked::learn).
pub struct Asked<'l> {
    keys: IndexSet<FetchKey, RandomState>,
    // Those of the first keys.
    outcomes: Vec<&'l Outcome>,
    // What the run may still make; without a room there is no bound.
    room: Option<&'l Room>,
    ghost within: { length outcomes.items ≤ length keys.keys },
}

impl<'l> Asked<'l> {
    ghost use Rattle.std.specs.Prelude.{◌≡◌, ◌≢◌, [], IfOk, IfSome, IsOk, None, OnOk, Some, option_map};
    ghost use Rattle.dl_values.specs.Key.{key_eq};
    ghost use Rattle.indexmap.specs.IndexSet.{insert_all};
    ghost use Rattle.dl_terms.specs.TermAnswers.{load_waits};
    ghost use Rattle.dl_terms.specs.Asked.{LearnsFirst, known_of, pairs_of, wanted_of};

    /// No keys yet. `hashing` will hash them, and nothing that you see depends on it.
    pub fn new(alloc: Global, hashing: RandomState) -> Asked<'l>
        ensures pairs { pairs_of result ≡ [] }
        ensures wanted { wanted_of result ≡ [] }
    {
        Asked::in_room(alloc, hashing, None)
    }

    /// No keys yet, and a room that the run takes from, if there is one.
    pub fn in_room(alloc: Global, hashing: RandomState, room: Option<&'l Room>) -> Asked<'l>
        ensures pairs { pairs_of result ≡ [] }
        ensures wanted { wanted_of result ≡ [] }
    {
        Asked {
            keys: IndexSet::with_hasher(alloc, hashing),
            outcomes: Vec::new(alloc),
            room,
        }
    }

    /// The keys without an outcome, in the order in which to hand these in.
    pub fn wanted(&self) -> &[FetchKey]
        ensures { result.now ≡ wanted_of self.now }
    {
        &self.keys.as_slice()[self.outcomes.len()..]
    }

    /// Hands in the outcome of the first wanted key. There must be one.
    ///
    /// # Errors
    /// `AllocError` if memory runs out.
    pub fn learn(&mut self, outcome: &'l Outcome) -> Result<(), AllocError>
        requires { wanted_of self.old ≢ [] }
        ensures { OnOk result (LearnsFirst self.old self.new outcome.now) }
    {
        self.outcomes.push(outcome)?;
        Ok(())
    }

    /// Takes the text of the answer's value from the room of the run, if the run has given its answer.
    /// [`explore`](crate::explore) doesn't, since an answer shares its rows and is smaller than its text.
    ///
    /// # Errors
    /// `AllocError` if the room has less, and never without a room.
    pub fn spend(&self, answer: Option<&Answer>) -> Result<(), AllocError>
        ensures { self.now.room ≡ None → IsOk result }
    {
        match answer {
            Some(Answer::Value(value)) => take_text(self.room, value),
            Some(Answer::Fault(_)) | None => Ok(()),
        }
    }

    /// The room of the run, if there is one.
    pub(crate) fn room(&self) -> Option<&'l Room>
        ensures { result ≡ self.now.room }
    {
        self.room
    }

    /// Asks for a key. You get its place and, if it has one, its outcome. A key without an outcome is wanted from then
    /// on.
    pub(crate) fn ask(&mut self, key: &FetchKey) -> Result<(usize, Option<&'l Outcome>), AllocError>
        ensures outcome { IfOk result (λ r. option_map (λ o. o.now) r.1 ≡ known_of self.old key.now) }
        ensures wanted { OnOk result (wanted_of self.new
            ≡ insert_all key_eq (wanted_of self.old) (load_waits (known_of self.old) key.now)) }
        ensures pairs { OnOk result (pairs_of self.new ≡ pairs_of self.old) }
    {
        let (place, _) = self.keys.insert_full(key.try_copy()?)?;
        Ok((place, self.outcomes.get(place).copied()))
    }

    /// The outcome of a key, if it has one and this is its place. It takes no hash.
    pub(crate) fn outcome_at(&self, place: usize, key: &FetchKey) -> Option<&'l Outcome>
        ensures { IfSome result (λ o. known_of self.now key.now ≡ Some o.now) }
    {
        let outcome = self.outcomes.get(place).copied()?;
        match self.keys.as_slice().get(place) {
            Some(held) if held == key => Some(outcome),
            _ => None,
        }
    }
}

impl Drop for Asked<'_> {
    fn drop(self) {
        let Asked {
            keys,
            outcomes,
            room: _,
        } = self;
        drop(keys);
        drop(outcomes);
    }
}
