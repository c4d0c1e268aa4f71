//! Keys, and lists of keys.

ghost use Rattle.std.specs.Prelude.{◌≡◌, ◌+◌, ◌<◌, ◌≤◌, IfOk, IfErr, OnErr, IfSome, IfNone, length, IsTrue, ◌↔◌};
ghost use Rattle.std.proofs.Common.{rules};
ghost use Rattle.std.specs.Ordering.{as_partial_cmp};
ghost use Rattle.std.specs.Cmp.{partial_order_from_own_ties};
ghost use Rattle.std.specs.Cmp.Rules.{comparing, hashing};
ghost use Rattle.dl_values.specs.Key.{IsKey, key_eq};
ghost use Rattle.dl_values.specs.KeyOrder.{key_cmp, key_input};
ghost use Rattle.dl_values.specs.KeyFaults.{RefusedAs};
ghost use Rattle.dl_values.specs.KeyTexts.{IsKeyText, short_bytes};
ghost use Rattle.std.specs.Arc.{arc_value};

use crate::fault::KeyFault;
use crate::joined_text::{JoinedText, marked};
use crate::list::List;
use crate::short_text::{SHORT_BYTES, ShortText};
use std::alloc::{AllocError, Global};
use std::cmp::Ordering;
use std::hash::{Hash, Hasher};
use std::marker::Model;
use std::sync::Arc;
use std::{fmt, mem, str};

/// The most bytes of a key's table.
pub const TABLE_BYTES: usize = 64;

/// The most bytes of a key's id.
pub const ID_BYTES: usize = 256;

/// The two texts of a key in one: a character whose code is the number of the table's bytes, then the table, then the
/// id. So no two keys have the same text, and a hash reads both in one go.
#[derive(Drop)]
struct KeyText {
    text: JoinedText,
}

impl Model for KeyText {
    ghost use Rattle.dl_values.specs.Key.{Key};
    ghost use Rattle.dl_values.specs.Inside.JoinedText.{bytes_of, IsInForm};
    ghost use Rattle.dl_values.specs.Inside.KeyText.{unmarked, IsMarked};

    ghost Value = { Key };

    ghost view = { λ k. unmarked (bytes_of k.text) };

    ghost invariant = { λ k. IsMarked (bytes_of k.text) × IsInForm k.text };
}

impl KeyText {
    /// Joins a table and an id that together are short.
    #[inline(always)]
    fn short(table: &str, id: &str) -> KeyText
        requires key { IsKey (record { table = table.now; id = id.now }) }
        requires room { 1 + length table.now + length id.now ≤ short_bytes }
        ensures { result ≡ record { table = table.now; id = id.now } }
    {
        let text = ShortText::joined(table.len() as u8, table, id);
        KeyText {
            text: JoinedText::Short(text),
        }
    }

    /// Joins two pieces that together are short, if they are UTF-8.
    #[inline(always)]
    fn read_short(table: &[u8], id: &[u8]) -> Option<KeyText>
        requires key { IsKey (record { table = table.now; id = id.now }) }
        requires room { 1 + length table.now + length id.now ≤ short_bytes }
        ensures some { IfSome result (λ k. (k ≡ record { table = table.now; id = id.now }) × IsKeyText k) }
        ensures none { IfNone result (¬ (IsKeyText (record { table = table.now; id = id.now }))) }
    {
        let text = ShortText::read(table.len() as u8, table, id)?;
        Some(KeyText {
            text: JoinedText::Short(text),
        })
    }

    /// Joins a table and an id that together are long. The text gets memory of its own, and the call fails if memory
    /// runs out.
    fn long(alloc: Global, table: &str, id: &str) -> Result<KeyText, AllocError>
        requires key { IsKey (record { table = table.now; id = id.now }) }
        requires long { short_bytes < 1 + length table.now + length id.now }
        ensures { IfOk result (λ k. k ≡ record { table = table.now; id = id.now }) }
    {
        let text = marked(alloc, table.len() as u8, table, id)?;
        Ok(KeyText {
            text: JoinedText::Long(text),
        })
    }

    /// The table and the id.
    fn parts(&self) -> (&str, &str)
        ensures table { result.0.now ≡ self.now.table }
        ensures id { result.1.now ≡ self.now.id }
        ensures key { IsKey self.now }
    {
        let (mark, both) = self.text.as_str().split_at(1);
        both.split_at(mark.as_bytes()[0] as usize)
    }
}

impl PartialEq for KeyText {
    ghost eq = { key_eq };

    ghost laws = { Prim.search (comparing, rules) };

    #[inline(always)]
    fn eq(&self, other: &KeyText) -> bool {
        self.text.eq(&other.text)
    }
}

impl Eq for KeyText {
    ghost laws = { Prim.search (comparing, rules) };
}

impl Hash for KeyText {
    ghost hash_input = { key_input };

    ghost respects_eq = { Prim.search (hashing, rules) };

    fn hash<H: Hasher>(&self, state: &mut H) {
        state.write(self.text.hashed());
    }
}

impl fmt::Debug for KeyText {
    fn fmt<W: fmt::Write>(&self, f: &mut fmt::Formatter<W>) -> fmt::Result {
        let (table, id) = self.parts();
        f.debug_struct("KeyText")
            .field("table", &table)
            .field("id", &id)
            .finish()
    }
}

/// Whether a key may have a table and an id of these lengths.
fn have_lengths(table: &[u8], id: &[u8]) -> bool
    ensures { IsTrue result ↔ IsKey (record { table = table.now; id = id.now }) }
{
    !table.is_empty() && table.len() <= TABLE_BYTES && !id.is_empty() && id.len() <= ID_BYTES
}

/// What you ask a loader for: a table and an id in it. A copy shares the texts and costs one atomic step.
///
/// Equality and order go by the table and then by the id, byte by byte. A hash reads both in one go.
///
/// # Examples
/// Makes a key and loads it, from `crates/example_loaders/src/one_caller.rt`:
///
/// ```rust
/// let key = FetchKey::new(alloc, "user", "u1")?;
/// let mut ticket = loader.load(rt, alloc, pass, &key)?;
/// ```
#[derive(Debug)]
pub struct FetchKey {
    both: Arc<KeyText>,
}

impl Drop for FetchKey {
    fn drop(self) {
        let FetchKey { both } = self;
        drop(both);
    }
}

impl Model for FetchKey {
    ghost use Rattle.dl_values.specs.Key.{Key, IsKey};
    ghost use Rattle.std.specs.Arc.{arc_value};

    ghost Value = { Key };

    ghost view = { λ k. arc_value k.both };

    ghost invariant = { λ k. IsKey (arc_value k.both) };
}

/// The table, a slash and the id, such as `user/u1`, on one line: what doesn't print is escaped.
impl fmt::Display for FetchKey {
    fn fmt<W: fmt::Write>(&self, f: &mut fmt::Formatter<W>) -> fmt::Result {
        let (table, id) = (self.table().escape_debug(), self.id().escape_debug());
        write!(f, "{table}/{id}")
    }
}

impl FetchKey {
    /// A key from a table of 1 to [`TABLE_BYTES`] bytes and an id of 1 to [`ID_BYTES`].
    ///
    /// # Errors
    /// The first cause of [`KeyFault`] that applies, in its order. `OutOfMemory` comes only if the two texts are a key.
    pub fn new(alloc: Global, table: &str, id: &str) -> Result<FetchKey, KeyFault>
        ensures ok { IfOk result (λ k. (k ≡ record { table = table.now; id = id.now }) × IsKey k) }
        ensures err { IfErr result (RefusedAs table.now id.now) }
    {
        if table.is_empty() {
            return Err(KeyFault::EmptyTable);
        }
        if table.len() > TABLE_BYTES {
            return Err(KeyFault::TableTooLong);
        }
        if id.is_empty() {
            return Err(KeyFault::EmptyId);
        }
        if id.len() > ID_BYTES {
            return Err(KeyFault::IdTooLong);
        }
        if 1 + table.len() + id.len() > SHORT_BYTES {
            return FetchKey::long(alloc, table, id).map_err(|_| KeyFault::OutOfMemory);
        }
        let both = Arc::new(alloc, KeyText::short(table, id)).map_err(|_| KeyFault::OutOfMemory)?;
        Ok(FetchKey { both })
    }

    /// The key of two texts that together are long. Fails if memory runs out.
    #[cold]
    fn long(alloc: Global, table: &str, id: &str) -> Result<FetchKey, AllocError>
        requires key { IsKey (record { table = table.now; id = id.now }) }
        requires long { short_bytes < 1 + length table.now + length id.now }
        ensures { IfOk result (λ k. k ≡ record { table = table.now; id = id.now }) }
    {
        let both = Arc::new(alloc, KeyText::long(alloc, table, id)?)?;
        Ok(FetchKey { both })
    }

    /// A key from two pieces of bytes. You get `None` if they aren't UTF-8 or don't have the lengths of a key's texts.
    ///
    /// The call reuses the memory of the spare key, if you give one that nobody else shares.
    ///
    /// # Errors
    /// `AllocError` if memory runs out, which only happens if the bytes are a key's.
    // Inlined for the sake of the C libraries' loads that find their key.
    #[inline(always)]
    pub fn read(
        alloc: Global,
        spare: Option<FetchKey>,
        table: &[u8],
        id: &[u8],
    ) -> Result<Option<FetchKey>, AllocError>
        ensures some { IfOk result (λ key. IfSome key (λ k. (k ≡ record { table = table.now; id = id.now }) × IsKeyText k)) }
        ensures none { IfOk result (λ key. IfNone key (¬ (IsKeyText (record { table = table.now; id = id.now })))) }
        ensures err { OnErr result (IsKeyText (record { table = table.now; id = id.now })) }
    {
        if !have_lengths(table, id) {
            return Ok(None);
        }
        if 1 + table.len() + id.len() > SHORT_BYTES {
            return FetchKey::read_long(alloc, spare, table, id);
        }
        let Some(both) = KeyText::read_short(table, id) else {
            return Ok(None);
        };
        let key = FetchKey::of(alloc, spare, both)?;
        Ok(Some(key))
    }

    /// The key of two pieces of bytes that together are long.
    #[cold]
    fn read_long(
        alloc: Global,
        spare: Option<FetchKey>,
        table: &[u8],
        id: &[u8],
    ) -> Result<Option<FetchKey>, AllocError>
        requires key { IsKey (record { table = table.now; id = id.now }) }
        requires long { short_bytes < 1 + length table.now + length id.now }
        ensures some { IfOk result (λ key. IfSome key (λ k. (k ≡ record { table = table.now; id = id.now }) × IsKeyText k)) }
        ensures none { IfOk result (λ key. IfNone key (¬ (IsKeyText (record { table = table.now; id = id.now })))) }
        ensures err { OnErr result (IsKeyText (record { table = table.now; id = id.now })) }
    {
        let (Ok(table), Ok(id)) = (str::from_utf8(table), str::from_utf8(id)) else {
            return Ok(None);
        };
        let both = KeyText::long(alloc, table, id)?;
        let key = FetchKey::of(alloc, spare, both)?;
        Ok(Some(key))
    }

    /// The key of a text, in the memory of the spare key if nobody else shares that. Fails if memory runs out.
    #[inline(always)]
    fn of(alloc: Global, spare: Option<FetchKey>, both: KeyText) -> Result<FetchKey, AllocError>
        requires { IsKey both }
        ensures { IfOk result (λ k. k ≡ both) }
    {
        if let Some(mut key) = spare {
            if let Some(place) = Arc::get_mut(&mut key.both) {
                drop(mem::replace(place, both));
                return Ok(key);
            }
        }
        let both = Arc::new(alloc, both)?;
        Ok(FetchKey { both })
    }

    /// The table's name.
    pub fn table(&self) -> &str
        ensures text { result.now ≡ self.now.table }
        ensures key { IsKey self.now }
    {
        self.both.parts().0
    }

    /// The id in the table.
    pub fn id(&self) -> &str
        ensures text { result.now ≡ self.now.id }
        ensures key { IsKey self.now }
    {
        self.both.parts().1
    }

    /// The same key. It shares the texts.
    ///
    /// # Errors
    /// `AllocError` if the reference count would overflow.
    pub fn try_copy(&self) -> Result<FetchKey, AllocError>
        ensures { IfOk result (λ k. k ≡ self.now) }
    {
        let both = Arc::try_clone(&self.both)?;
        Ok(FetchKey { both })
    }
}

impl Clone for FetchKey {
    ghost is_clone = { λ a b. b ≡ a };

    fn clone(&self) -> Result<FetchKey, AllocError> {
        self.try_copy()
    }
}

impl PartialEq for FetchKey {
    ghost eq = { key_eq };

    ghost laws = { Prim.search (comparing, rules) };

    #[inline(always)]
    fn eq(&self, other: &FetchKey) -> bool {
        *self.both == *other.both
    }
}

impl Eq for FetchKey {
    ghost laws = { Prim.search (comparing, rules) };
}

impl PartialOrd for FetchKey {
    ghost partial_cmp = { as_partial_cmp key_cmp };

    ghost laws = { partial_order_from_own_ties (Prim.search (comparing, rules))
        (Prim.search (comparing, rules)) };

    fn partial_cmp(&self, other: &FetchKey) -> Option<Ordering> {
        Some(self.cmp(other))
    }
}

impl Ord for FetchKey {
    ghost cmp = { key_cmp };

    ghost total = { Prim.search (comparing, rules) };

    ghost matches_partial_cmp = { Prim.search (comparing, rules) };

    ghost matches_eq = { Prim.search (comparing, rules) };

    fn cmp(&self, other: &FetchKey) -> Ordering {
        self.table()
            .cmp(other.table())
            .then_with(|| self.id().cmp(other.id()))
    }
}

impl Hash for FetchKey {
    ghost hash_input = { key_input };

    ghost respects_eq = { Prim.search (hashing, rules) };

    fn hash<H: Hasher>(&self, state: &mut H) {
        (*self.both).hash(state);
    }
}

/// Keys that several places share, in order.
pub type Keys = List<FetchKey>;

impl List<FetchKey> {
    /// A list of copies, which share their texts with the keys.
    ///
    /// # Errors
    /// `AllocError` if memory runs out, or if a reference count would overflow.
    pub fn copy_of(alloc: Global, keys: &[FetchKey]) -> Result<Keys, AllocError>
        ensures { IfOk result (λ k. k ≡ keys.now) }
    {
        List::new(alloc, keys.to_vec(alloc)?)
    }
}
