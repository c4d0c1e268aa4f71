//! Fetch workers: worked rows of the jobs that one takes.

ghost use Rattle.std.specs.Prelude.{◌≡◌, false};
ghost use Rattle.dl_desk.specs.Service.{Answers};
ghost use Rattle.dl_loader.specs.Opening.{Names};
ghost use Rattle.dl_loader.specs.Pass.{GaveTicket};
ghost use Rattle.dl_workers.specs.Seats.{IsSenderOf, IsTakerOf};

use crate::loader::{hashing, users};
use crate::{ADA, BOB, assert_is, numbered_keys, outcome_text};
use dl_desk::{FetchKey, Limits};
use dl_loader::{CallFault, CloseFault, History, Loader, LoaderName, Opening, Pass, Ticket};
use dl_source::{Source, Tables};
use dl_workers::{Gate, JobQueue, Sender, Tally, WorkerEnd, work};
use std::alloc::Global;
use std::hash::RandomState;
use std::io::Eprint;
use std::marker::Brand;
use std::process::Abort;
use std::sync::Wait;
use std::sync::atomic::{AtomicU32, Ordering};

/// A caller loads, dispatches and sends its jobs, and shuts the queue. Then a worker works, the caller waits for the
/// outcome of its last load, and makes one more call.
struct Row {
    about: &'static str,
    /// The number of jobs that the queue has room for.
    capacity: u32,
    /// The most keys of a batch, cells and calls.
    most: (u32, u32, u32),
    /// The number of keys of no table that the caller loads first.
    crowd: u32,
    /// The users that it loads then.
    ids: &'static [&'static str],
    /// The number of jobs. The worker takes all of them.
    jobs: u64,
    end: WorkerEnd,
    /// What the gate hears, with a digit for each call: 2 b + 1 before the fetch of batch b, and 2 b + 2 once it has
    /// ended.
    told: u32,
    /// The text of the outcome that the caller waits for, or that the loader is stopped.
    waited: &'static str,
    /// What a clear of all keys answers at the end.
    next: Result<(), CallFault>,
    /// For each batch whether it was settled, or why the loader doesn't close.
    closed: Result<&'static [bool], CloseFault>,
}

/// A row of one load. The others differ from it.
const ROW: Row = Row {
    about: "a batch of one key",
    capacity: 2,
    most: (2, 8, 32),
    crowd: 0,
    ids: &["u1"],
    jobs: 1,
    end: WorkerEnd::Done { batches: 1 },
    told: 12,
    waited: ADA,
    next: Ok(()),
    closed: Ok(&[true]),
};

static ROWS: [Row; 5] = [
    ROW,
    Row {
        about: "three batches, of which one breaks the source",
        capacity: 4,
        most: (1, 8, 32),
        ids: &["u1", "u13", "u2"],
        jobs: 3,
        end: WorkerEnd::Done { batches: 3 },
        told: 123_456,
        waited: BOB,
        closed: Ok(&[true, false, true]),
        ..ROW
    },
    Row {
        about: "a log that is full",
        most: (2, 8, 2),
        end: WorkerEnd::GaveUp { batch: 0 },
        told: 1,
        waited: "stopped",
        next: Err(CallFault::Stopped),
        closed: Err(CloseFault::Unsettled { batch: 0 }),
        ..ROW
    },
    Row {
        about: "a log that is full after one of three batches",
        capacity: 4,
        most: (1, 8, 5),
        ids: &["u1", "u2", "u3"],
        jobs: 3,
        end: WorkerEnd::GaveUp { batch: 1 },
        told: 123,
        waited: "stopped",
        next: Err(CallFault::Stopped),
        closed: Err(CloseFault::Unsettled { batch: 1 }),
        ..ROW
    },
    Row {
        about: "forty jobs behind one that can't be ended",
        capacity: 64,
        most: (1, 64, 42),
        crowd: 40,
        jobs: 41,
        end: WorkerEnd::GaveUp { batch: 0 },
        told: 1,
        waited: "stopped",
        next: Err(CallFault::Stopped),
        closed: Err(CloseFault::Unsettled { batch: 0 }),
        ..ROW
    },
];

/// A gate that notes what it hears, as the rows write it.
#[derive(Drop)]
struct Told {
    digits: AtomicU32,
}

impl Told {
    fn note(&self, digit: u32) {
        let digits = self.digits.load(Ordering::SeqCst);
        let noted = digits.saturating_mul(10).saturating_add(digit);
        self.digits.store(noted, Ordering::SeqCst);
    }
}

impl Gate for Told {
    fn before_fetch(&self, batch: u32) {
        self.note(batch.saturating_mul(2).saturating_add(1));
    }

    fn after_settle(&self, batch: u32) {
        self.note(batch.saturating_mul(2).saturating_add(2));
    }
}

#[test]
fn jobs_and_their_ends(rt: HostRuntime) {
    let users = users(&rt, rt.alloc());
    for row in &ROWS {
        try_row(&rt, rt.alloc(), hashing(&rt), &users, row);
    }
}

/// Plays a row on a loader of two callers over these tables.
fn try_row<R: Abort + Eprint + Wait>(
    rt: &R,
    alloc: Global,
    hashing: RandomState,
    users: &Tables,
    row: &Row,
) {
    let (max_batch, max_cells, max_calls) = row.most;
    let limits = Limits::new(max_batch, max_cells, max_calls).expect(rt, "no limits");
    let opening = Opening::new(alloc, hashing, users, limits, 2).expect(rt, "no opening");
    play::<Brand, _, _>(rt, alloc, users, opening, row);
}

/// Plays a row on the loader of an opening, which `L` names, and closes it.
fn play<L: LoaderName, S: Source, R: Abort + Eprint + Wait>(
    rt: &R,
    alloc: Global,
    source: &S,
    opening: Opening<'_, S>,
    row: &Row,
)
    requires source { opening.source ≡ source.now }
    requires names { Names S.answer opening L.service L.parts L.cells L.name }
{
    let (loader, mut passes) = Loader::<L>::start(alloc, opening).expect(rt, "no loader");
    use_loader(rt, alloc, &loader, source, &mut passes, row);
    match loader.close(alloc, passes) {
        Ok(history) => assert_batches(rt, &history, row),
        Err((fault, _, _)) => assert_is!(rt, &Some(fault), &row.closed.err(), row.about),
    }
}

/// The history has the batches of the row, settled or not, as the row says.
fn assert_batches(rt: &(impl Abort + Eprint), history: &History, row: &Row) {
    let want = row.closed.expect(rt, row.about);
    let batches = history.batches();
    for (number, is_settled) in want.iter().enumerate() {
        let number = u32::try_from(number).expect(rt, "no number of a batch");
        let batch = batches.get(number).expect(rt, "a batch too few");
        assert_is!(rt, &batch.is_settled(), is_settled, row.about);
    }
}

/// Plays a caller and a worker by these passes.
fn use_loader<L: LoaderName, S: Source, R: Abort + Eprint + Wait>(
    rt: &R,
    alloc: Global,
    loader: &Loader<L>,
    source: &S,
    passes: &mut Vec<Pass<L>>,
    row: &Row,
)
    requires { Answers (S.answer source.now) L.service }
{
    let made = JobQueue::new(alloc, row.capacity, 1, 1);
    let (queue, mut senders, mut takers) = made.expect(rt, "no queue");
    let mut worker = passes.pop().expect(rt, "no pass");
    let mut caller = passes.pop().expect(rt, "no pass");
    let ticket = load(rt, alloc, loader, &mut caller, row);
    send(rt, alloc, loader, &mut caller, &queue, &mut senders[0]);
    queue.shut(rt, &mut senders[0]);
    let gate = Told {
        digits: AtomicU32::new(0),
    };
    let taker = &mut takers[0];
    let end = work(rt, alloc, loader, source, &mut worker, &queue, taker, &gate);
    assert_worked(rt, end, &gate, row);
    let text = wait(rt, alloc, loader, &mut caller, ticket);
    assert_is!(rt, &text.as_str(), &row.waited, row.about);
    let next = loader.clear_all(rt, alloc, &mut caller);
    assert_is!(rt, &next, &row.next, row.about);
    let tally = Tally {
        sent: row.jobs,
        taken: row.jobs,
        left: 0,
    };
    assert_is!(rt, &queue.finish(rt, senders, takers), &tally, row.about);
    passes.push(caller).expect(rt, "no room");
    passes.push(worker).expect(rt, "no room");
}

/// A worker ended, and its gate heard, as the row says.
fn assert_worked(rt: &(impl Abort + Eprint), end: WorkerEnd, gate: &Told, row: &Row) {
    let told = gate.digits.load(Ordering::SeqCst);
    assert_is!(rt, &end, &row.end, row.about);
    assert_is!(rt, &told, &row.told, row.about);
}

/// Loads the crowd and the users, each by a call of its own. The ticket is that of the last user.
fn load<'a, L: LoaderName, R: Abort + Wait>(
    rt: &R,
    alloc: Global,
    loader: &'a Loader<L>,
    pass: &mut Pass<L>,
    row: &Row,
) -> Ticket<'a, L>
    ensures { GaveTicket pass.new.trace result false }
{
    let mut keys = numbered_keys(alloc, row.crowd).expect(rt, "no keys");
    for id in row.ids {
        let key = FetchKey::new(alloc, "user", id).expect(rt, "no key");
        keys.push(key).expect(rt, "no room");
    }
    let last = keys.pop().expect(rt, "no user");
    for key in keys.iter() {
        drop(loader.load(rt, alloc, pass, key).expect(rt, "no ticket"));
    }
    loader.load(rt, alloc, pass, &last).expect(rt, "no ticket")
}

/// Dispatches, and sends each job. The queue takes each of them.
fn send<L: LoaderName, R: Abort + Wait>(
    rt: &R,
    alloc: Global,
    loader: &Loader<L>,
    pass: &mut Pass<L>,
    queue: &JobQueue,
    sender: &mut Sender,
)
    requires { IsSenderOf queue.now sender.old }
    ensures seat { IsSenderOf queue.now sender.new }
    ensures tickets { pass.new.trace.tickets ≡ pass.old.trace.tickets }
{
    for job in loader.dispatch(rt, alloc, pass).expect(rt, "no jobs") {
        assert!(rt; queue.send(rt, sender, job).is_ok(), "a job came back");
    }
}

/// Waits for a ticket's outcome, and answers its text, or that the loader is stopped.
fn wait<L: LoaderName, R: Abort + Wait>(
    rt: &R,
    alloc: Global,
    loader: &Loader<L>,
    pass: &mut Pass<L>,
    mut ticket: Ticket<'_, L>,
) -> String
    requires { GaveTicket pass.old.trace ticket false }
{
    let text = if loader.wait(rt, pass, &mut ticket).is_err() {
        String::from_str(alloc, "stopped")
    } else {
        outcome_text(alloc, ticket.look().expect(rt, "no outcome"))
    };
    text.expect(rt, "no memory")
}
