//! How a program uses the shared loader: callers on threads of their own load one key, and then the program closes the
//! loader.

ghost use Rattle.std.specs.Prelude.{◌≡◌};
ghost use Rattle.dl_desk.specs.Service.{Answers};
ghost use Rattle.dl_loader.specs.Opening.{Names};

use super::texts::looked_text;
use crate::assert_is;
use dl_desk::FetchKey;
use dl_loader::{
    CallFault, EntryKind, History, Loader, LoaderName, MOST_CALLERS, Opening, Pass, end_jobs,
};
use dl_source::Source;
use std::alloc::Global;
use std::io::Eprint;
use std::process::Abort;
use std::sync::Wait;
use std::thread;
use std::thread::Threads;

/// Opens a loader, has each of its callers load the key on a thread of its own, and closes it. You get its history.
pub(super) fn load_by_each<
    L: LoaderName + Send + Sync,
    S: Source + Sync,
    R: Abort + Threads + Wait + Sync,
>(rt: &R, alloc: Global, source: &S, opening: Opening<'_, S>, key: &FetchKey) -> History
    requires source { opening.source ≡ source.now }
    requires names { Names S.answer opening L.service L.parts L.cells L.name }
{
    let (loader, mut passes) = Loader::<L>::start(alloc, opening).expect(rt, "no loader");
    start_threads(rt, alloc, source, &loader, passes.as_mut_slice(), key);
    match loader.close(alloc, passes) {
        Ok(history) => history,
        Err((fault, _, _)) => panic!(rt; "{fault:?}"),
    }
}

/// Each caller loads the key on a thread of its own.
fn start_threads<L: LoaderName + Send + Sync, S: Source + Sync, R: Threads + Wait + Sync>(
    rt: &R,
    alloc: Global,
    source: &S,
    loader: &Loader<L>,
    passes: &mut [Pass<L>],
    key: &FetchKey,
)
    requires { Answers (S.answer source.now) L.service }
{
    thread::for_each_mut(
        rt,
        passes,
        MOST_CALLERS as usize,
        &|_: usize, pass: &mut Pass<L>|
            requires { Answers (S.answer source.now) L.service }
        { load_or_stop(rt, alloc, source, loader, pass, key) },
    );
}

/// One caller takes part, loads the key, and takes part no more. If a call fails, it stops the loader, so that no other
/// caller waits for ever.
fn load_or_stop<L: LoaderName, S: Source, R: Wait>(
    rt: &R,
    alloc: Global,
    source: &S,
    loader: &Loader<L>,
    pass: &mut Pass<L>,
    key: &FetchKey,
)
    requires { Answers (S.answer source.now) L.service }
{
    loader.enter(rt, pass);
    if load(rt, alloc, source, loader, pass, key).is_err() {
        loader.stop(rt);
    }
    loader.leave(rt, pass);
}

/// Loads the key, sends what is collected once nobody runs, ends what went out, and waits for the key's outcome.
fn load<L: LoaderName, S: Source, R: Wait>(
    rt: &R,
    alloc: Global,
    source: &S,
    loader: &Loader<L>,
    pass: &mut Pass<L>,
    key: &FetchKey,
) -> Result<(), CallFault>
    requires { Answers (S.answer source.now) L.service }
{
    let mut ticket = loader.load(rt, alloc, pass, key)?;
    let jobs = loader.gather(rt, alloc, pass)?;
    end_jobs(rt, alloc, loader, source, pass, jobs)?;
    loader.wait(rt, pass, &mut ticket)?;
    Ok(())
}

/// The history has one settled batch, and both callers have read the outcome.
pub(super) fn assert_history(rt: &(impl Abort + Eprint), alloc: Global, history: &History) {
    let batches = history.batches();
    let batch = batches.get(0).expect(rt, "no batch");
    assert!(rt; batch.is_settled() && batches.get(1).is_none());
    let text = looked_text(rt, alloc, history.outcome(0));
    assert_is!(rt, &text.as_str(), &"Ada", "the outcome");
    for caller in 0..2 {
        let last = history.entries(caller).last().expect(rt, "no entry");
        assert!(rt; matches!(last, EntryKind::Saw { cell: 0, .. }));
    }
}
