//! The source of a host, which keeps the outcomes itself.

ghost use Rattle.std.specs.Prelude.{◌≡◌, IfOk};
ghost use Rattle.dl_loader.specs.HostSource.{mark};

use dl_desk::{FetchKey, Json, Outcome, Outcomes};
use dl_source::{BatchAnswer, Source};
use serde_json::Value;
use std::alloc::{AllocError, Global};

/// A source that answers each key with the same mark, in place of what your host has for the key's cell.
#[derive(Drop)]
pub struct HostSource;

impl Source for HostSource {
    ghost use Rattle.dl_values.specs.Answering.{function};
    ghost use Rattle.dl_loader.specs.HostSource.{answer_of, answer_fits};

    ghost answer = { function answer_of };

    ghost fits = { answer_fits };

    fn fetch(&self, alloc: Global, keys: &[FetchKey]) -> Result<BatchAnswer, AllocError> {
        let mark = mark(alloc)?;
        let mut outcomes = Vec::with_capacity(alloc, keys.len())?;
        for _ in keys {
            outcomes.push_reserved(mark.try_copy()?);
        }
        Ok(BatchAnswer::Each(Outcomes::new(alloc, outcomes)?))
    }
}

/// The mark. Fails if memory runs out.
pub fn mark(alloc: Global) -> Result<Outcome, AllocError>
    ensures { IfOk result (λ outcome. outcome ≡ mark) }
{
    Ok(Outcome::Value(Json::new(alloc, Value::Null)?))
}
