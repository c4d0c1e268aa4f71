//! One caller with a loader of its own: you open it, load a key, read the outcome, and close it.

ghost use Rattle.std.specs.Prelude.{◌≡◌};
ghost use Rattle.dl_desk.specs.Service.{Answers};
ghost use Rattle.dl_loader.specs.Opening.{Names};

use anyhow::{Result, bail};
use dl_desk::{FetchKey, Limits, Outcome};
use dl_loader::{Loader, LoaderName, Opening, Pass, end_jobs};
use dl_source::{Source, Tables};
use serde_json::Value;
use std::alloc::Global;
use std::hash::RandomState;
use std::marker::Brand;
use std::sync::Wait;

/// Opens a loader for one caller over a table of users, and uses it.
pub(crate) fn run<R: Wait + Print>(rt: &R, alloc: Global, hashing: RandomState) -> Result<()> {
    let users = users(alloc, hashing)?;
    let limits = Limits::new(64, 1_024, 4_096)?;
    let opening = Opening::new(alloc, hashing, &users, limits, 1)?;
    with_loader::<Brand, _, _>(rt, alloc, &users, opening)
}

/// The source: a table of users.
fn users(alloc: Global, hashing: RandomState) -> Result<Tables> {
    let text = r#"[{"name": "user", "rows": [["u1", "Ada"], ["u2", "Bob"]]}]"#;
    let rows = Value::from_str(alloc, text)?;
    Ok(Tables::from_value(alloc, hashing, &rows)?)
}

/// Starts the loader that `L` names, makes calls, and closes it.
fn with_loader<L: LoaderName, S: Source, R: Wait + Print>(
    rt: &R,
    alloc: Global,
    source: &S,
    opening: Opening<'_, S>,
) -> Result<()>
    requires source { opening.source ≡ source.now }
    requires names { Names S.answer opening L.service L.parts L.cells L.name }
{
    let (loader, mut passes) = Loader::<L>::start(alloc, opening)?;
    for pass in &mut passes {
        load_and_print(rt, alloc, source, &loader, pass)?;
    }
    match loader.close(alloc, passes) {
        Ok(history) => print!(rt; "{history}")?,
        Err((fault, _, _)) => return Err(fault.into()),
    }
    Ok(())
}

/// Loads a user, sends the batch, ends its job, and prints the outcome and the pass's entries.
fn load_and_print<L: LoaderName, S: Source, R: Wait + Print>(
    rt: &R,
    alloc: Global,
    source: &S,
    loader: &Loader<L>,
    pass: &mut Pass<L>,
) -> Result<()>
    requires { Answers (S.answer source.now) L.service }
{
    let key = FetchKey::new(alloc, "user", "u1")?;
    let mut ticket = loader.load(rt, alloc, pass, &key)?;
    let jobs = loader.dispatch(rt, alloc, pass)?;
    end_jobs(rt, alloc, loader, source, pass, jobs)?;
    loader.wait(rt, pass, &mut ticket)?;
    match ticket.look() {
        Some(Outcome::Value(name)) => println!(rt; "{}", name.to_text(alloc)?)?,
        _ => bail!("no user"),
    }
    for entry in pass.entries() {
        println!(rt; "{entry}")?;
    }
    Ok(())
}
