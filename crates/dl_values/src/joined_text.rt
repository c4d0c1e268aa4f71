//! Two texts joined into one, which takes no memory of its own if it is short.

ghost use Rattle.std.specs.Prelude.{◌≡◌, ◌<◌, ◌∷◌, ◌++◌, IfOk, string_bytes};
ghost use Rattle.std.specs.Str.{bytes_eq};
ghost use Rattle.std.specs.Cmp.Rules.{comparing};
ghost use Rattle.std.proofs.Common.{rules};
ghost use Rattle.dl_values.specs.Inside.HashedText.{hashed};
ghost use Rattle.dl_values.specs.Inside.JoinedText.{bytes_of, IsInForm};

use crate::short_text::ShortText;
use std::alloc::{AllocError, Global};

/// A mark and two texts, one right after the other.
#[derive(Drop)]
pub(crate) enum JoinedText {
    Short(ShortText),
    Long(String),
}

impl JoinedText {
    /// The text itself.
    #[inline(always)]
    pub(crate) fn as_str(&self) -> &str
        ensures { result.now ≡ bytes_of self.now }
    {
        match self {
            JoinedText::Short(text) => text.as_str(),
            JoinedText::Long(text) => text.as_str(),
        }
    }

    /// What a hash reads of the text.
    #[inline(always)]
    pub(crate) fn hashed(&self) -> &[u8]
        requires { IsInForm self.now }
        ensures { result.now ≡ hashed (bytes_of self.now) }
    {
        match self {
            JoinedText::Short(text) => text.words(),
            JoinedText::Long(text) => text.as_str().as_bytes(),
        }
    }

    /// Whether the texts are the same, short or long.
    #[cold]
    fn is_same(&self, other: &JoinedText) -> bool
        ensures { result ≡ bytes_eq (bytes_of self.now) (bytes_of other.now) }
    {
        self.as_str() == other.as_str()
    }
}

/// An ASCII character, given by its code, and then two texts, joined without a gap. Fails if memory runs out.
pub(crate) fn marked(
    alloc: Global,
    mark: u8,
    first: &str,
    second: &str,
) -> Result<String, AllocError>
    requires { mark < 128 }
    ensures { IfOk result (λ s. string_bytes s ≡ mark ∷ (first.now ++ second.now)) }
{
    let mut text = String::with_capacity(alloc, 1 + first.len() + second.len())?;
    text.push(char::from(mark))?;
    text.push_str(first)?;
    text.push_str(second)?;
    Ok(text)
}

/// Compares two short texts by their blocks.
impl PartialEq for JoinedText {
    ghost eq = { λ a b. bytes_eq (bytes_of a) (bytes_of b) };

    ghost laws = { Prim.search (comparing, rules) };

    #[inline(always)]
    fn eq(&self, other: &JoinedText) -> bool {
        match (self, other) {
            (JoinedText::Short(text), JoinedText::Short(other)) => text.eq(other),
            _ => self.is_same(other),
        }
    }
}
