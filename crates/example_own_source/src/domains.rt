//! A source that computes what it answers, and two requests over it.

ghost use Rattle.std.specs.Prelude.{◌≡◌, IfOk};
ghost use Rattle.example_own_source.specs.Domains.{outcome_of};

use dl_desk::{FetchKey, Json, Message, Outcome, Outcomes, Text};
use dl_scope::{Plan, Step};
use dl_source::{BatchAnswer, Source};
use dl_terms::Term;
use serde_json::json;
use std::alloc::{AllocError, Global};

/// A source of domains: it knows the domain that each one is part of.
#[derive(Drop)]
pub(crate) struct Domains;

impl Source for Domains {
    ghost use Rattle.dl_values.specs.Answering.{function};
    ghost use Rattle.example_own_source.specs.Domains.{answer_of, answer_fits};

    ghost answer = { function answer_of };

    ghost fits = { answer_fits };

    /// The batch function: an outcome for each key, in the order of the keys.
    fn fetch(&self, alloc: Global, keys: &[FetchKey]) -> Result<BatchAnswer, AllocError> {
        let mut outcomes = Vec::with_capacity(alloc, keys.len())?;
        for key in keys {
            outcomes.push(outcome(alloc, key.id())?)?;
        }
        Ok(BatchAnswer::Each(Outcomes::new(alloc, outcomes)?))
    }
}

/// The outcome of a domain: for `www.example.org` the row `{"parent":"example.org"}`.
fn outcome(alloc: Global, id: &str) -> Result<Outcome, AllocError>
    ensures { IfOk result (λ o. o ≡ outcome_of id.now) }
{
    match id.split_once('.') {
        Some((_, parent)) => {
            let row = json!(in alloc; {"parent": parent})?;
            Ok(Outcome::Value(Json::new(alloc, row)?))
        }
        None => Ok(Outcome::KeyError(Message::new(alloc, "no parent")?)),
    }
}

/// The plans of two requests.
pub(crate) fn requests(alloc: Global) -> anyhow::Result<Vec<Plan>> {
    Ok(vec![in alloc;
        request(alloc, "www.example.org")?,
        request(alloc, "localhost")?,
    ]?)
}

/// The plan of a request: the parent of a domain's parent, which takes two rounds of loads.
fn request(alloc: Global, id: &str) -> anyhow::Result<Plan> {
    let domain = Term::Load(FetchKey::new(alloc, "domain", id)?);
    let parent = Term::Follow {
        part: Box::new(alloc, domain)?,
        field: Text::new(alloc, "parent")?,
        table: Text::new(alloc, "domain")?,
    };
    let answer = Term::Pick {
        part: Box::new(alloc, parent)?,
        field: Text::new(alloc, "parent")?,
    };
    let steps = vec![in alloc; Step::Eval(answer)]?;
    Ok(Plan { steps })
}
