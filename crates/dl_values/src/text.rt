//! Texts that own their bytes.

ghost use Rattle.std.specs.Prelude.{◌≡◌, IfOk, bytes_eq};
ghost use Rattle.std.proofs.Common.{rules};
ghost use Rattle.std.specs.Ordering.{nat_cmp, as_partial_cmp};
ghost use Rattle.std.specs.Hash as fed;
ghost use Rattle.std.specs.Cmp.{partial_order_from_own_ties};
ghost use Rattle.std.specs.Cmp.Lexicographic.{slice_cmp};
ghost use Rattle.std.specs.Cmp.Rules.{comparing, hashing};

use arrayvec::ArrayString;
use std::alloc::{AllocError, Global};
use std::cmp::Ordering;
use std::fmt;
use std::hash::{Hash, Hasher};
use std::marker::Model;

/// The most bytes of a text that takes no block of memory. Most names of tables and fields are as short.
const INLINE_BYTES: usize = 16;

/// A text that owns its bytes. A short one takes no block of memory. Contracts see the bytes.
pub struct Text {
    bytes: Bytes,
}

/// The bytes of a text.
enum Bytes {
    /// In the value itself.
    Inline(ArrayString<INLINE_BYTES>),
    /// In a block of memory.
    Block(String),
}

impl Drop for Text {
    fn drop(self) {
        let Text { bytes } = self;
        match bytes {
            Bytes::Inline(_) => {}
            Bytes::Block(text) => drop(text),
        }
    }
}

impl Model for Text {
    ghost use Rattle.std.specs.Prelude.{List, ℕ};
    ghost use Rattle.dl_values.specs.Inside.Text.{held};

    ghost Value = { List ℕ };

    ghost view = { λ t. held t.bytes };
}

impl fmt::Debug for Text {
    fn fmt<W: fmt::Write>(&self, f: &mut fmt::Formatter<W>) -> fmt::Result {
        write!(f, "{:?}", self.as_str())
    }
}

impl Text {
    /// Copies a text.
    ///
    /// # Errors
    /// `AllocError` if memory runs out.
    pub fn new(alloc: Global, text: &str) -> Result<Text, AllocError>
        ensures { IfOk result (λ t. t ≡ text.now) }
    {
        let bytes = match ArrayString::from(text) {
            Ok(text) => Bytes::Inline(text),
            Err(_) => Bytes::Block(String::from_str(alloc, text)?),
        };
        Ok(Text { bytes })
    }

    /// The text itself.
    pub fn as_str(&self) -> &str
        ensures { result.now ≡ self.now }
    {
        match &self.bytes {
            Bytes::Inline(text) => text.as_str(),
            Bytes::Block(text) => text.as_str(),
        }
    }

    /// An equal text that owns its bytes too.
    ///
    /// # Errors
    /// `AllocError` if memory runs out.
    pub fn try_copy(&self) -> Result<Text, AllocError>
        ensures { IfOk result (λ t. t ≡ self.now) }
    {
        let bytes = match &self.bytes {
            Bytes::Inline(text) => Bytes::Inline(*text),
            Bytes::Block(text) => Bytes::Block(text.clone()?),
        };
        Ok(Text { bytes })
    }
}

impl PartialEq for Text {
    ghost eq = { bytes_eq };

    ghost laws = { Prim.search (comparing, rules) };

    fn eq(&self, other: &Text) -> bool {
        self.as_str() == other.as_str()
    }
}

impl Eq for Text {
    ghost laws = { Prim.search (comparing, rules) };
}

impl PartialOrd for Text {
    ghost partial_cmp = { as_partial_cmp (slice_cmp nat_cmp) };

    ghost laws = { partial_order_from_own_ties (Prim.search (comparing, rules))
        (Prim.search (comparing, rules)) };

    fn partial_cmp(&self, other: &Text) -> Option<Ordering> {
        Some(self.cmp(other))
    }
}

impl Ord for Text {
    ghost cmp = { slice_cmp nat_cmp };

    ghost total = { Prim.search (comparing, rules) };

    ghost matches_partial_cmp = { Prim.search (comparing, rules) };

    ghost matches_eq = { Prim.search (comparing, rules) };

    fn cmp(&self, other: &Text) -> Ordering {
        self.as_str().cmp(other.as_str())
    }
}

impl Hash for Text {
    ghost hash_input = { fed.str };

    ghost respects_eq = { Prim.search (hashing, rules) };

    fn hash<H: Hasher>(&self, state: &mut H) {
        self.as_str().hash(state);
    }
}
