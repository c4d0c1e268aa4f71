//! A source over any code.

ghost use Rattle.std.specs.Prelude.{◌≡◌};
ghost use Rattle.dl_source.specs.WeakestTest.{is_for};

use crate::source::Source;
use dl_values::{BatchAnswer, FetchKey, Message};
use std::alloc::{AllocError, Global};

/// Code that fetches for a [`Checked`] source. Nobody has to prove what it answers.
pub trait Fetch {
    /// Answers these keys, in their order. If one key fails, say so in its outcome; if all of them fail together,
    /// answer `Break`.
    ///
    /// # Errors
    /// `AllocError` if memory runs out.
    fn fetch(&self, alloc: Global, keys: &[FetchKey]) -> Result<BatchAnswer, AllocError>;
}

/// A source over code of yours, by a test: a proof knows of its answers that they have as many outcomes as there are
/// keys, or break. It counts the outcomes, and breaks with the text `wrong number of outcomes` if they are more or less.
#[derive(Drop)]
pub struct Checked<F>(pub F);

impl<F: Fetch> Source for Checked<F> {
    ghost use Rattle.dl_values.specs.Answering.{test};
    ghost use Rattle.dl_source.specs.WeakestTest.{is_for, is_for_fits};

    ghost answer = { test (λ _. is_for) };

    ghost fits = { λ _. is_for_fits };

    /// What the code answers, if it has as many outcomes as there are keys.
    fn fetch(&self, alloc: Global, keys: &[FetchKey]) -> Result<BatchAnswer, AllocError> {
        let answer = self.0.fetch(alloc, keys)?;
        if is_for(keys, &answer) {
            return Ok(answer);
        }
        let text = Message::new(alloc, "wrong number of outcomes")?;
        Ok(BatchAnswer::Break(text))
    }
}

/// Whether the answer has as many outcomes as there are keys, or breaks.
fn is_for(keys: &[FetchKey], answer: &BatchAnswer) -> bool
    ensures { result ≡ is_for keys.now answer.now }
{
    match answer {
        BatchAnswer::Each(outcomes) => outcomes.as_slice().len() == keys.len(),
        BatchAnswer::Break(_) => true,
    }
}
