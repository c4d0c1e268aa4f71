//! Two callers and a fetch worker over a queue, each table with a limit of its own. They take turns on one thread, so
//! that the history is always the same.

ghost use Rattle.std.specs.Prelude.{◌≡◌};
ghost use Rattle.dl_desk.specs.Service.{Answers};
ghost use Rattle.dl_loader.specs.Opening.{Names};
ghost use Rattle.dl_workers.specs.Seats.{IsSenderOf};

use anyhow::{Result, bail};
use dl_desk::{FetchKey, Limits, TableLimit, TableLimits, Text};
use dl_loader::{Loader, LoaderName, Opening, Pass};
use dl_source::{Source, Tables};
use dl_workers::{JobQueue, NoGate, Sender, work};
use serde_json::Value;
use std::alloc::Global;
use std::hash::RandomState;
use std::marker::Brand;
use std::sync::Wait;

/// Opens a loader for two callers and a worker over the tables of a blog, and uses it.
pub(crate) fn run<R: Wait + Print>(rt: &R, alloc: Global, hashing: RandomState) -> Result<()> {
    let blog = blog(alloc, hashing)?;
    let limits = Limits::new(64, 1_024, 4_096)?;
    let tables = one_post_each(alloc)?;
    let opening = Opening::by_table(alloc, hashing, &blog, limits, tables, 3)?;
    with_loader::<Brand, _, _>(rt, alloc, &blog, opening)
}

/// The source: the posts of a blog, and who wrote them.
fn blog(alloc: Global, hashing: RandomState) -> Result<Tables> {
    let text = r#"[{"name": "post", "rows": [["p1", "Notes"], ["p2", "A compiler"]]},
        {"name": "user", "rows": [["u1", "Ada"], ["u2", "Bob"]]}]"#;
    let rows = Value::from_str(alloc, text)?;
    Ok(Tables::from_value(alloc, hashing, &rows)?)
}

/// A batch has one post, or as many keys of another table as the limits of the loader say.
fn one_post_each(alloc: Global) -> Result<TableLimits> {
    let post = TableLimit {
        table: Text::new(alloc, "post")?,
        limit: 1,
    };
    Ok(TableLimits::new(alloc, vec![in alloc; post]?)?)
}

/// Starts the loader that `L` names, lets its callers and its worker use it, closes it, and prints the history.
fn with_loader<L: LoaderName, S: Source, R: Wait + Print>(
    rt: &R,
    alloc: Global,
    source: &S,
    opening: Opening<'_, S>,
) -> Result<()>
    requires source { opening.source ≡ source.now }
    requires names { Names S.answer opening L.service L.parts L.cells L.name }
{
    let (loader, mut passes) = Loader::<L>::start(alloc, opening)?;
    take_turns(rt, alloc, source, &loader, &mut passes)?;
    match loader.close(alloc, passes) {
        Ok(history) => print!(rt; "{history}")?,
        Err((fault, _, _)) => return Err(fault.into()),
    }
    Ok(())
}

/// The callers load and send their jobs. Then the worker, which has the last pass, ends the batch of each job.
fn take_turns<L: LoaderName, S: Source, R: Wait + Print>(
    rt: &R,
    alloc: Global,
    source: &S,
    loader: &Loader<L>,
    passes: &mut Vec<Pass<L>>,
) -> Result<()>
    requires { Answers (S.answer source.now) L.service }
{
    let (queue, mut senders, mut takers) = JobQueue::new(alloc, 16, 1, 1)?;
    let Some(mut worker) = passes.pop() else {
        bail!("no pass for the worker");
    };
    call_all(rt, alloc, loader, passes, &queue, &mut senders[0])?;
    queue.shut(rt, &mut senders[0]);
    let (taker, gate) = (&mut takers[0], &NoGate);
    let end = work(rt, alloc, loader, source, &mut worker, &queue, taker, gate);
    passes.push(worker)?;
    let tally = queue.finish(rt, senders, takers);
    println!(rt; "{end:?}, {tally:?}")?;
    Ok(())
}

/// Each caller loads the posts and a user, and sends the jobs of its dispatch.
fn call_all<L: LoaderName, R: Wait>(
    rt: &R,
    alloc: Global,
    loader: &Loader<L>,
    passes: &mut [Pass<L>],
    queue: &JobQueue,
    sender: &mut Sender,
) -> Result<()>
    requires { IsSenderOf queue.now sender.old }
    ensures { IsSenderOf queue.now sender.new }
{
    for pass in passes {
        let mut keys = Vec::new(alloc);
        for (table, id) in [("post", "p1"), ("post", "p2"), ("user", "u1")] {
            keys.push(FetchKey::new(alloc, table, id)?)?;
        }
        drop(loader.load_many(rt, alloc, pass, &keys)?);
        send(rt, alloc, loader, pass, queue, sender)?;
    }
    Ok(())
}

/// Dispatches once, after all loads, and sends each job to the worker, which waits for them. A dispatch is an event of
/// the history even if it sends nothing, so nobody asks by one whether there is something to do.
fn send<L: LoaderName, R: Wait>(
    rt: &R,
    alloc: Global,
    loader: &Loader<L>,
    pass: &mut Pass<L>,
    queue: &JobQueue,
    sender: &mut Sender,
) -> Result<()>
    requires { IsSenderOf queue.now sender.old }
    ensures { IsSenderOf queue.now sender.new }
{
    for job in loader.dispatch(rt, alloc, pass)? {
        if queue.send(rt, sender, job).is_err() {
            bail!("the queue is shut");
        }
    }
    Ok(())
}
