//! A log of the most events.

ghost use Rattle.std.specs.Prelude.{◌≡◌};
ghost use Rattle.dl_loader.specs.Opening.{Names};

use crate::assert_is;
use dl_loader::{CallFault, History, Loader, LoaderName, Opening, Pass};
use dl_source::Source;
use std::alloc::Global;
use std::io::Eprint;
use std::process::Abort;
use std::sync::Wait;

/// The most keys of a batch, cells and calls.
pub(super) const MOST: u32 = 65_536;

/// Opens a loader, has its first caller make as many calls as the limits allow, and closes it. You get its history.
pub(super) fn fill<L: LoaderName, S: Source, R: Abort + Eprint + Wait>(
    rt: &R,
    alloc: Global,
    opening: Opening<'_, S>,
) -> History
    requires names { Names S.answer opening L.service L.parts L.cells L.name }
{
    let (loader, mut passes) = Loader::<L>::start(alloc, opening).expect(rt, "no loader");
    let pass = passes.first_mut().expect(rt, "no pass");
    clear_often(rt, alloc, &loader, pass);
    match loader.close(alloc, passes) {
        Ok(history) => history,
        Err((fault, _, _)) => panic!(rt; "{fault:?}"),
    }
}

/// Makes as many calls as the limits allow, and one more.
fn clear_often<L: LoaderName, R: Abort + Eprint + Wait>(
    rt: &R,
    alloc: Global,
    loader: &Loader<L>,
    pass: &mut Pass<L>,
) {
    for _ in 0..MOST {
        let reply = loader.clear_all(rt, alloc, pass);
        assert_is!(rt, &reply, &Ok(()), "call");
    }
    let full = Err(CallFault::LogFull { limit: MOST });
    assert_is!(rt, &loader.clear_all(rt, alloc, pass), &full, "next call");
}
