//! The keys that C hands in one after another.

ghost use Rattle.std.specs.Prelude.{◌≡◌, ◌≤◌, ◌+◌, length, drop, OnOk, IfOk, IfErr};
ghost use Rattle.std.specs.List.{All};
ghost use Rattle.dl_values.specs.KeyTexts.{IsKeyText};
ghost use Rattle.dl_c_values.specs.KeyLists.{IsCutFault, IsFrontFault, front_key, cut, total};

use crate::codes::{BAD_LENGTHS, OUT_OF_MEMORY};
use crate::key_texts::{KeyLengths, key_of};
use dl_desk::FetchKey;
use std::alloc::Global;

/// The keys that the lengths cut the texts into. Fails with a code, for the first key that has a fault.
pub fn keys_of(alloc: Global, texts: &[u8], lengths: &[KeyLengths]) -> Result<Vec<FetchKey>, u32>
    ensures keys { IfOk result (λ keys. keys.items ≡ cut texts.now lengths.now) }
    ensures are_keys { OnOk result (All IsKeyText (cut texts.now lengths.now)) }
    ensures whole { OnOk result (total lengths.now ≡ length texts.now) }
    ensures fault { IfErr result (λ code. IsCutFault texts.now lengths.now code) }
{
    let Ok(mut keys) = Vec::with_capacity(alloc, lengths.len()) else {
        return Err(OUT_OF_MEMORY);
    };
    let mut rest = texts;
    for key_lengths in lengths {
        let (key, after) = next_key(alloc, rest, *key_lengths)?;
        let Ok(()) = keys.push(key) else {
            return Err(OUT_OF_MEMORY);
        };
        rest = after;
    }
    if rest.is_empty() {
        Ok(keys)
    } else {
        Err(BAD_LENGTHS)
    }
}

/// The key at the front of the texts, and the texts after it. Fails with a code.
fn next_key(alloc: Global, texts: &[u8], lengths: KeyLengths) -> Result<(FetchKey, &[u8]), u32>
    ensures key { IfOk result (λ next. next.0 ≡ front_key texts.now lengths) }
    ensures is_key { OnOk result (IsKeyText (front_key texts.now lengths)) }
    ensures rest { IfOk result (λ next. next.1.now ≡ drop (lengths.table + lengths.id) texts.now) }
    ensures room { OnOk result (lengths.table + lengths.id ≤ length texts.now) }
    ensures fault { IfErr result (λ code. IsFrontFault texts.now lengths code) }
{
    let Some((table, rest)) = texts.split_at_checked(lengths.table as usize) else {
        return Err(BAD_LENGTHS);
    };
    let Some((id, rest)) = rest.split_at_checked(lengths.id as usize) else {
        return Err(BAD_LENGTHS);
    };
    Ok((key_of(alloc, None, table, id)?, rest))
}
