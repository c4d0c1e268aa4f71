//! Two requests that `serve` runs at once.
#![tactic(auto)]

use dl_desk::{FetchKey, Limits};
use dl_scope::{Plan, Policy, Setup, Step, serve};
use dl_source::Tables;
use dl_terms::Term;
use dl_workers::NoGate;
use serde_json::Value;
use std::alloc::Global;

fn main(rt: HostRuntime) -> anyhow::Result<()> {
    let (alloc, hashing) = (rt.alloc(), std::hash::RandomState::new(&rt)?);
    let setup = Setup {
        limits: Limits::new(64, 1_024, 4_096)?,
        tables: None,
        workers: 2,
        policy: Policy::Eager,
        queue: 16,
        max_answer: None,
    };
    let rows = r#"[{"name": "user", "rows": [["u1", "Ada"], ["u2", "Bob"]]}]"#;
    let users = Tables::from_owned_value(alloc, hashing, Value::from_str(alloc, rows)?)?;
    let plans = vec![in alloc; load_user(alloc, "u1")?, load_user(alloc, "u2")?]?;
    let report = serve(&rt, alloc, hashing, &users, setup, plans, &NoGate)?;
    for (request, answers) in report.answers().iter().enumerate() {
        for given in answers {
            println!(rt; "{request} {:?}", given.answer)?;
        }
    }
    println!(rt; "{} batch", report.tally().sent)?;
    Ok(())
}

/// The plan whose one step is the load of a user.
fn load_user(alloc: Global, id: &str) -> anyhow::Result<Plan> {
    let user = Term::Load(FetchKey::new(alloc, "user", id)?);
    let steps = vec![in alloc; Step::Eval(user)]?;
    Ok(Plan { steps })
}
