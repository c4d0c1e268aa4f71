//! Sources, which answer the keys of a batch.

ghost use Rattle.std.specs.Prelude.{IfOk};
ghost use Rattle.dl_values.specs.Answering.{Answering, Fits, MayAnswer};

use dl_values::{BatchAnswer, FetchKey};
use std::alloc::{AllocError, Global};

/// Where outcomes come from. For data of your own you write three things: `answer`, a definition of what the source may
/// answer to any list of keys; `fits`, a proof that this has as many outcomes as there are keys, or breaks; and `fetch`,
/// which gives such an answer.
///
/// Most sources answer by a `function`: the same keys always get the same answer. If yours may answer the same keys
/// differently each time, as a database does that others write to, give a `test` of keys and answer instead. `fetch` then
/// has to pass it, and the test is all that a proof knows of an answer.
///
/// # Examples
/// A source with a function of its own, from `crates/example_own_source`. Its `specs/Domains.antt` has `answer_of` and
/// `answer_fits`:
///
/// ```rust
/// impl Source for Domains {
///     ghost use Rattle.dl_values.specs.Answering.{function};
///     ghost use Rattle.example_own_source.specs.Domains.{answer_of, answer_fits};
///
///     ghost answer = { function answer_of };
///
///     ghost fits = { answer_fits };
///
///     /// The batch function: an outcome for each key, in the order of the keys.
///     fn fetch(&self, alloc: Global, keys: &[FetchKey]) -> Result<BatchAnswer, AllocError> {
///         let mut outcomes = Vec::with_capacity(alloc, keys.len())?;
///         for key in keys {
///             outcomes.push(outcome(alloc, key.id())?)?;
///         }
///         Ok(BatchAnswer::Each(Outcomes::new(alloc, outcomes)?))
///     }
/// }
/// ```
pub trait Source {
    // What the source may answer to a list of keys: what its one function gives, or what its test allows.
    ghost answer: { Self → Answering };

    /// Answers these keys, in their order. If one key fails, say so in its outcome; if all of them fail together,
    /// answer `Break`.
    ///
    /// # Errors
    /// `AllocError` if memory runs out.
    fn fetch(&self, alloc: Global, keys: &[FetchKey]) -> Result<BatchAnswer, AllocError>
        ensures { IfOk result (MayAnswer (answer self.now) keys.now) };

    // Each answer has as many outcomes as there are keys, or breaks.
    ghost fits: { (s : Self) → Fits (answer s) };
}
