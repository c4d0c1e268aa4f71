//! Many keys.

use dl_values::FetchKey;
use std::alloc::Global;

/// `count` keys of the table `t`, with the numbers from 0 on as ids, if there is memory for them.
pub fn numbered_keys(alloc: Global, count: u32) -> Option<Vec<FetchKey>> {
    let mut keys = Vec::new(alloc);
    for number in 0..count {
        keys.push(numbered_key(alloc, number)?).ok()?;
    }
    Some(keys)
}

fn numbered_key(alloc: Global, number: u32) -> Option<FetchKey> {
    let id = format!(in alloc; "{number}").ok()?;
    FetchKey::new(alloc, "t", id.as_str()).ok()
}
