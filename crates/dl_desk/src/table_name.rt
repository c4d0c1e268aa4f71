//! The names of tables, in the form by which a desk finds them.

ghost use Rattle.std.specs.Prelude.{◌≡◌, IfOk};
ghost use Rattle.std.proofs.Common.{rules};
ghost use Rattle.std.specs.Ordering.{as_partial_cmp, eq_by_cmp};
ghost use Rattle.std.specs.Cmp.{partial_order_from_own_ties};
ghost use Rattle.std.specs.Cmp.Rules.{comparing};
ghost use Rattle.dl_desk.specs.Inside.TableName.{with_byte, number_of, place_of, name_cmp};

use dl_values::FetchKey;
use std::alloc::AllocError;
use std::cmp::Ordering;
use std::marker::Model;

/// An odd factor of many bits, so that each byte of a name changes the number.
const FACTOR: u64 = 1_099_511_628_211;

/// The number of places for tables.
pub(crate) const PLACES: usize = 32;

/// The name of a table, with a number that its bytes make. Names have the order of their numbers and, if these are
/// equal, of their bytes. So a search compares numbers, and hardly ever two names.
pub(crate) struct TableName {
    number: u64,
    // A key of the table, of which a copy takes no memory.
    key: FetchKey,
}

// Written out: `TableBook::join` lets a name go on each of its ways out.
impl Drop for TableName {
    fn drop(self) {
        let TableName { number: _, key } = self;
        drop(key);
    }
}

impl Model for TableName {
    ghost use Rattle.std.specs.Prelude.{◌≡◌, List, ℕ};
    ghost use Rattle.dl_desk.specs.Inside.TableName.{number_of};

    ghost Value = { List ℕ };

    ghost view = { λ n. n.key.table };

    ghost invariant = { λ n. n.number ≡ number_of n.key.table };
}

impl TableName {
    /// The name of the key's table. Fails if a reference count would overflow.
    pub(crate) fn of(key: &FetchKey) -> Result<TableName, AllocError>
        ensures { IfOk result (λ n. n ≡ key.now.table) }
    {
        Ok(TableName {
            number: number_of(key.table()),
            key: key.try_copy()?,
        })
    }

    /// The name itself.
    pub(crate) fn as_str(&self) -> &str
        ensures { result.now ≡ self.now }
    {
        self.key.table()
    }

    /// The place of the table.
    #[inline(always)]
    pub(crate) fn place(&self) -> usize
        ensures { result ≡ place_of self.now }
    {
        (self.number % PLACES as u64) as usize
    }

    /// The same name, shared. Fails if a reference count would overflow.
    pub(crate) fn try_copy(&self) -> Result<TableName, AllocError>
        ensures { IfOk result (λ n. n ≡ self.now) }
    {
        Ok(TableName {
            number: self.number,
            key: self.key.try_copy()?,
        })
    }
}

impl PartialEq for TableName {
    ghost eq = { eq_by_cmp name_cmp };

    ghost laws = { Prim.search (comparing, rules) };

    fn eq(&self, other: &TableName) -> bool {
        self.cmp(other).is_eq()
    }
}

impl Eq for TableName {
    ghost laws = { Prim.search (comparing, rules) };
}

impl PartialOrd for TableName {
    ghost partial_cmp = { as_partial_cmp name_cmp };

    ghost laws = { partial_order_from_own_ties (Prim.search (comparing, rules))
        (Prim.search (comparing, rules)) };

    fn partial_cmp(&self, other: &TableName) -> Option<Ordering> {
        Some(self.cmp(other))
    }
}

impl Ord for TableName {
    ghost cmp = { name_cmp };

    ghost total = { Prim.search (comparing, rules) };

    ghost matches_partial_cmp = { Prim.search (comparing, rules) };

    ghost matches_eq = { Prim.search (comparing, rules) };

    // A search goes through these branches in half the steps that it takes by the numbers' own `cmp`.
    fn cmp(&self, other: &TableName) -> Ordering {
        if self.number > other.number {
            return Ordering::Greater;
        }
        if self.number < other.number {
            return Ordering::Less;
        }
        self.as_str().cmp(other.as_str())
    }
}

/// The number that the bytes of a name make.
fn number_of(name: &str) -> u64
    ensures { result ≡ number_of name.now }
{
    name.as_bytes()
        .iter()
        .fold(0, |number, byte| with_byte(number, *byte))
}

/// The number with one more byte.
fn with_byte(number: u64, byte: u8) -> u64
    ensures { result ≡ with_byte number byte }
{
    number.wrapping_mul(FACTOR).wrapping_add(u64::from(byte))
}
