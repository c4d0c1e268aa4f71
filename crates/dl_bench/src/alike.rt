//! A source that answers every key alike.

use anyhow::{Result, bail};
use dl_desk::{FetchKey, Json, Outcome, Outcomes, has_float};
use dl_source::{BatchAnswer, Source};
use serde_json::Value;
use std::alloc::{AllocError, Global};

/// A source with one and the same outcome for each key.
#[derive(Drop)]
pub(crate) struct Alike {
    value: Json,
}

impl Alike {
    /// The source that answers `null`. Fails if memory runs out.
    pub(crate) fn null(alloc: Global) -> Result<Alike, AllocError> {
        let value = Json::new(alloc, Value::Null)?;
        Ok(Alike { value })
    }

    /// The source that answers a row whose field `next` is the id `1`.
    pub(crate) fn row(alloc: Global) -> Result<Alike> {
        let value = Value::from_str(alloc, r#"{"next":"1"}"#)?;
        if has_float(&value) {
            bail!("a row with a fraction");
        }
        let value = Json::new(alloc, value)?;
        Ok(Alike { value })
    }
}

impl Source for Alike {
    ghost use Rattle.dl_values.specs.Answering.{function};
    ghost use Rattle.dl_bench.specs.Alike.{answer_alike, answer_fits};

    ghost answer = { function answer_alike };

    ghost fits = { answer_fits };

    /// The value for each key, shared.
    fn fetch(&self, alloc: Global, keys: &[FetchKey]) -> Result<BatchAnswer, AllocError> {
        let mut outcomes = Vec::with_capacity(alloc, keys.len())?;
        for _key in keys {
            outcomes.push(Outcome::Value(self.value.try_copy()?))?;
        }
        Ok(BatchAnswer::Each(Outcomes::new(alloc, outcomes)?))
    }
}
