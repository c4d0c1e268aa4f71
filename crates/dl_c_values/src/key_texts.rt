//! Keys as C hands them in and reads them back.

ghost use Rattle.std.specs.Prelude.{◌≡◌, IfOk, OnOk, IfErr};
ghost use Rattle.dl_c_values.specs.Keys.{IsKeyFault, Spells};
ghost use Rattle.dl_values.specs.KeyTexts.{IsKeyText};

use crate::codes::{BAD_KEY, OUT_OF_MEMORY};
use dl_desk::{FetchKey, ID_BYTES, TABLE_BYTES};
use std::alloc::Global;

/// A key's two texts, with their lengths in bytes. What comes after those bytes means nothing.
#[repr(C)]
pub struct KeyTexts {
    pub table_len: usize,
    pub id_len: usize,
    pub table: [u8; TABLE_BYTES],
    pub id: [u8; ID_BYTES],
}

/// The lengths in bytes of the table and the id of a key.
#[repr(C)]
#[derive(Clone, Copy, Debug, PartialEq, Eq)]
pub struct KeyLengths {
    pub table: u32,
    pub id: u32,
}

/// The key of a table and an id, in the memory of the spare key if nobody shares that. Fails with a code: `BAD_KEY` if
/// a text isn't UTF-8, is empty or is too long; else `OUT_OF_MEMORY`.
// Inlined for the sake of loads that find their key.
#[inline(always)]
pub fn key_of(
    alloc: Global,
    spare: Option<FetchKey>,
    table: &[u8],
    id: &[u8],
) -> Result<FetchKey, u32>
    ensures key { IfOk result (λ key. key ≡ record { table = table.now; id = id.now }) }
    ensures is_key { OnOk result (IsKeyText (record { table = table.now; id = id.now })) }
    ensures fault { IfErr result (λ code. IsKeyFault (record { table = table.now; id = id.now }) code) }
{
    match FetchKey::read(alloc, spare, table, id) {
        Ok(Some(key)) => Ok(key),
        Ok(None) => Err(BAD_KEY),
        Err(_) => Err(OUT_OF_MEMORY),
    }
}

impl KeyTexts {
    /// Copies the texts of a key.
    pub fn copy_from(&mut self, key: &FetchKey)
        ensures { Spells self.new key.now }
    {
        let table = key.table().as_bytes();
        let id = key.id().as_bytes();
        self.table_len = table.len();
        self.id_len = id.len();
        self.table[..table.len()].copy_from_slice(table);
        self.id[..id.len()].copy_from_slice(id);
    }
}
