//! Keys from their texts, and outcomes as texts.

use crate::{ADA, outcome_text};
use dl_desk::{FetchKey, Outcome};
use std::alloc::Global;
use std::process::Abort;

/// The key of a user.
pub(super) fn user(rt: &impl Abort, alloc: Global, id: &str) -> FetchKey {
    FetchKey::new(alloc, "user", id).expect(rt, "no key")
}

/// The keys of users.
pub(super) fn users(rt: &impl Abort, alloc: Global, ids: &str) -> Vec<FetchKey> {
    let mut keys = Vec::new(alloc);
    for id in ids.split_whitespace() {
        keys.push(user(rt, alloc, id)).expect(rt, "no memory");
    }
    keys
}

/// The outcome, if there is one. For the row of the user `u1` it is the name.
pub(super) fn looked_text(rt: &impl Abort, alloc: Global, outcome: Option<&Outcome>) -> String {
    let text = match outcome {
        Some(outcome) => outcome_text(alloc, outcome),
        None => String::from_str(alloc, "nothing"),
    };
    let text = text.expect(rt, "no memory");
    if text.as_str() == ADA {
        return String::from_str(alloc, "Ada").expect(rt, "no memory");
    }
    text
}
