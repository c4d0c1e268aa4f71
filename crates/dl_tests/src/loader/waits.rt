//! Callers that wait at once, each on a thread of its own: for one batch or for several, while another caller ends the
//! batches or stops the loader, and after that.

ghost use Rattle.std.specs.Prelude.{◌≡◌};
ghost use Rattle.dl_desk.specs.Service.{Answers};
ghost use Rattle.dl_loader.specs.Opening.{Names};

use super::player::Scene;
use super::texts::{looked_text, user};
use crate::{Refusal, assert_is};
use dl_loader::{CloseFault, Loader, LoaderName, MOST_CALLERS, Opening, Pass};
use dl_source::Source;
use std::alloc::Global;
use std::io::Eprint;
use std::process::Abort;
use std::sync::Wait;
use std::sync::atomic::{AtomicU32, Ordering};
use std::thread;
use std::thread::Threads;

/// The number of callers.
pub(super) const CALLERS: u32 = 6;

/// A caller looks this often whether the others have come, and then gives up.
const MOST_LOOKS: u32 = 10_000_000;

/// How the first caller releases the others from their waiting.
pub(super) enum Release {
    /// It sends the batches, and ends each by what the source answers.
    Ends,
    /// It makes these calls, each with what it must answer.
    By(&'static [(&'static str, &'static str)]),
    /// It stops the loader.
    Stops,
}

/// Callers that wait.
pub(super) struct Crowd {
    /// The most keys of a batch.
    pub(super) max_batch: u32,
    /// The users that the callers load, in turn, with the outcomes that they must read.
    pub(super) loads: &'static [(&'static str, &'static str)],
    /// What the first caller does once all have loaded.
    pub(super) release: Release,
    /// Whether the other callers wait only after that.
    pub(super) is_late: bool,
}

impl Crowd {
    /// What a caller must read if this is the outcome: nothing if the loader is stopped.
    fn shown<'a>(&self, text: &'a str) -> &'a str {
        match self.release {
            Release::Stops => "nothing",
            _ => text,
        }
    }
}

/// A crowd, and the number of steps that its callers have taken: each but the first has loaded, or the first has ended
/// the waiting.
#[derive(Drop)]
struct Meeting {
    crowd: &'static Crowd,
    steps: AtomicU32,
}

impl Meeting {
    /// Returns once callers have taken `count` steps.
    fn await_steps(&self, rt: &impl Abort, count: u32) {
        for _ in 0..MOST_LOOKS {
            if self.steps.load(Ordering::SeqCst) == count {
                return;
            }
            thread::yield_now();
        }
        panic!(rt; "a caller has not come");
    }
}

/// Opens a loader, has its callers wait at once, and closes it.
pub(super) fn wait_at_once<
    L: LoaderName + Send + Sync,
    S: Source + Sync,
    R: Abort + Eprint + Threads + Wait + Sync,
>(rt: &R, alloc: Global, source: &S, opening: Opening<'_, S>, crowd: &'static Crowd)
    requires source { opening.source ≡ source.now }
    requires names { Names S.answer opening L.service L.parts L.cells L.name }
{
    let (loader, mut passes) = Loader::<L>::start(alloc, opening).expect(rt, "no loader");
    let meeting = Meeting {
        crowd,
        steps: AtomicU32::new(0),
    };
    start_threads(rt, alloc, source, &loader, passes.as_mut_slice(), &meeting);
    let fault = match loader.close(alloc, passes) {
        Ok(_) => None,
        Err((fault, _, _)) => Some(fault),
    };
    let want = match crowd.release {
        Release::Stops => Some(CloseFault::Unsettled { batch: 0 }),
        _ => None,
    };
    assert_is!(rt, &fault, &want, "close");
}

/// Each caller takes part on a thread of its own.
fn start_threads<
    L: LoaderName + Send + Sync,
    S: Source + Sync,
    R: Abort + Eprint + Threads + Wait + Sync,
>(rt: &R, alloc: Global, source: &S, loader: &Loader<L>, passes: &mut [Pass<L>], meeting: &Meeting)
    requires { Answers (S.answer source.now) L.service }
{
    thread::for_each_mut(
        rt,
        passes,
        MOST_CALLERS as usize,
        &|_: usize, pass: &mut Pass<L>|
            requires { Answers (S.answer source.now) L.service }
        { take_part(rt, alloc, source, loader, pass, meeting) },
    );
}

/// A caller loads its user, and waits for the outcome. The first one ends the waiting once all have loaded, and looks.
fn take_part<L: LoaderName, S: Source, R: Abort + Eprint + Wait>(
    rt: &R,
    alloc: Global,
    source: &S,
    loader: &Loader<L>,
    pass: &mut Pass<L>,
    meeting: &Meeting,
)
    requires { Answers (S.answer source.now) L.service }
{
    let nothing = Refusal::of_nothing(alloc);
    let scene = Scene {
        rt,
        alloc,
        refusal: &nothing,
        source,
        loader,
    };
    let (caller, crowd) = (pass.caller() as usize, meeting.crowd);
    let user_of_caller = crowd.loads.iter().cycle().nth(caller).copied();
    let (id, text) = user_of_caller.expect(rt, "no user");
    let key = user(rt, alloc, id);
    let mut ticket = loader.load(rt, alloc, pass, &key).expect(rt, "no ticket");
    if caller == 0 {
        meeting.await_steps(rt, CALLERS - 1);
        let_go(&scene, pass, &crowd.release);
        meeting.steps.fetch_add(1, Ordering::SeqCst);
        let seen = looked_text(rt, alloc, ticket.look());
        assert_is!(rt, &seen.as_str(), &crowd.shown(text), id);
        return;
    }
    meeting.steps.fetch_add(1, Ordering::SeqCst);
    if crowd.is_late {
        meeting.await_steps(rt, CALLERS);
    }
    let read = scene.read(pass, &mut ticket);
    assert_is!(rt, &read.as_str(), &crowd.shown(text), id);
}

/// Lets the other callers go on.
fn let_go<L: LoaderName, S: Source, R: Abort + Eprint + Wait>(
    scene: &Scene<'_, L, S, R>,
    pass: &mut Pass<L>,
    release: &Release,
)
    requires { Answers (S.answer scene.now.source.now) L.service }
{
    match release {
        Release::Ends => scene.end_all(pass),
        Release::By(steps) => {
            for (call, want) in *steps {
                scene.make(pass, call, want);
            }
        }
        Release::Stops => scene.loader.stop(scene.rt),
    }
}
