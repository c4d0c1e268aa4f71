//! Texts that are short enough to lie in their own value.

ghost use Rattle.std.specs.Prelude.{◌≡◌, ◌+◌, ◌<◌, ◌≤◌, ◌↔◌, ◌∷◌, ◌++◌, length, IfSome, IfNone, IsTrue};
ghost use Rattle.std.specs.Int.{w64, from_le_bytes};
ghost use Rattle.std.specs.Str.{IsUtf8, IsCharBoundary, bytes_eq};
ghost use Rattle.std.specs.Cmp.Rules.{comparing};
ghost use Rattle.std.proofs.Common.{rules};
ghost use Rattle.dl_values.specs.KeyTexts.{AreTexts, short_bytes};
ghost use Rattle.dl_values.specs.Inside.HashedText.{filled, word_end};
ghost use Rattle.dl_values.specs.Inside.ShortText.{block_bytes};

use std::marker::Model;
use std::str;

/// How many bytes hold a short text: with the counts of an `Arc` it takes a block of 80 bytes.
const BLOCK_BYTES: usize = 40;

/// The most bytes of a short text. One more byte follows it in its block.
pub(crate) const SHORT_BYTES: usize = BLOCK_BYTES - 1;

/// A byte that no text has.
const BEHIND: u8 = 255;

/// A text of at most [`SHORT_BYTES`] bytes. Contracts see its bytes.
#[derive(Drop)]
pub(crate) struct ShortText {
    // The text, then a byte that no text has, and then zeros.
    bytes: [u8; BLOCK_BYTES],
    len: usize,
}

impl Model for ShortText {
    ghost use Rattle.std.specs.Prelude.{List, ℕ, take};
    ghost use Rattle.dl_values.specs.Inside.ShortText.{IsShort};

    ghost Value = { List ℕ };

    ghost view = { λ t. take t.len t.bytes };

    ghost invariant = { λ t. IsShort t.bytes t.len };
}

impl ShortText {
    /// An ASCII character, and then two texts, joined without a gap.
    #[inline(always)]
    pub(crate) fn joined(mark: u8, first: &str, second: &str) -> ShortText
        requires mark { mark < 128 }
        requires room { 1 + length first.now + length second.now ≤ short_bytes }
        ensures { result ≡ mark ∷ (first.now ++ second.now) }
    {
        ShortText {
            bytes: block_of(mark, first.as_bytes(), second.as_bytes()),
            len: 1 + first.len() + second.len(),
        }
    }

    /// The same from bytes, if they are two texts of UTF-8.
    #[inline(always)]
    pub(crate) fn read(mark: u8, first: &[u8], second: &[u8]) -> Option<ShortText>
        requires mark { mark < 128 }
        requires room { 1 + length first.now + length second.now ≤ short_bytes }
        ensures some { IfSome result (λ t. (t ≡ mark ∷ (first.now ++ second.now)) × AreTexts first.now second.now) }
        ensures none { IfNone result (¬ (AreTexts first.now second.now)) }
    {
        let bytes = block_of(mark, first, second);
        let len = 1 + first.len() + second.len();
        if is_cut(&bytes[..len], 1 + first.len()) {
            Some(ShortText { bytes, len })
        } else {
            None
        }
    }

    /// The text itself.
    #[inline(always)]
    pub(crate) fn as_str(&self) -> &str
        ensures { result.now ≡ self.now }
    {
        unsafe { str::from_utf8_unchecked(&self.bytes[..self.len]) }
    }

    /// The text and its filling, up to the end of a word of eight bytes.
    #[inline(always)]
    pub(crate) fn words(&self) -> &[u8]
        ensures { result.now ≡ filled (word_end (length self.now)) self.now }
    {
        &self.bytes[..8 * (self.len / 8) + 8]
    }
}

/// Compares two texts by their blocks, without a look at their lengths. Two blocks are equal exactly if the texts are:
/// after the text a block has one byte that isn't zero, and then only zeros, so the last byte that isn't zero marks the
/// end of the text.
impl PartialEq for ShortText {
    ghost eq = { bytes_eq };

    ghost laws = { Prim.search (comparing, rules) };

    #[inline(always)]
    fn eq(&self, other: &ShortText) -> bool {
        is_same_block(&self.bytes, &other.bytes)
    }
}

/// Whether two blocks have the same bytes. Each is five words of eight.
#[inline(always)]
fn is_same_block(a: &[u8; BLOCK_BYTES], b: &[u8; BLOCK_BYTES]) -> bool
    ensures { result ≡ bytes_eq a.now b.now }
{
    is_same_word(&a[..8], &b[..8])
        & is_same_word(&a[8..16], &b[8..16])
        & is_same_word(&a[16..24], &b[16..24])
        & is_same_word(&a[24..32], &b[24..32])
        & is_same_word(&a[32..], &b[32..])
}

/// Compares eight bytes with eight others, as numbers.
#[inline(always)]
fn is_same_word(a: &[u8], b: &[u8]) -> bool
    requires first { length a.now ≡ 8 }
    requires second { length b.now ≡ 8 }
    ensures { result ≡ bytes_eq a.now b.now }
{
    word_of(a) == word_of(b)
}

/// Eight bytes as a number.
#[inline(always)]
fn word_of(bytes: &[u8]) -> u64
    requires { length bytes.now ≡ 8 }
    ensures { result ≡ from_le_bytes w64 bytes.now }
{
    u64::from_le_bytes([
        bytes[0], bytes[1], bytes[2], bytes[3], bytes[4], bytes[5], bytes[6], bytes[7],
    ])
}

/// A block with a mark and two pieces, joined without a gap.
#[inline(always)]
fn block_of(mark: u8, first: &[u8], second: &[u8]) -> [u8; BLOCK_BYTES]
    requires { 1 + length first.now + length second.now ≤ short_bytes }
    ensures { result ≡ filled block_bytes (mark ∷ (first.now ++ second.now)) }
{
    let seam = 1 + first.len();
    let end = seam + second.len();
    let mut bytes = [0; BLOCK_BYTES];
    bytes[0] = mark;
    bytes[1..seam].copy_from_slice(first);
    bytes[seam..end].copy_from_slice(second);
    bytes[end] = BEHIND;
    bytes
}

/// Whether the bytes are a text that you may cut at the seam.
#[inline(always)]
fn is_cut(bytes: &[u8], seam: usize) -> bool
    requires { seam ≤ length bytes.now }
    ensures { IsTrue result ↔ (IsUtf8 bytes.now × IsCharBoundary bytes.now seam) }
{
    // ASCII is a text that may be cut anywhere.
    bytes.is_ascii() || is_cut_of_any(bytes, seam)
}

/// The same for bytes that aren't all ASCII.
#[cold]
fn is_cut_of_any(bytes: &[u8], seam: usize) -> bool
    ensures { IsTrue result ↔ (IsUtf8 bytes.now × IsCharBoundary bytes.now seam) }
{
    match str::from_utf8(bytes) {
        Ok(text) => text.is_char_boundary(seam),
        Err(_) => false,
    }
}
