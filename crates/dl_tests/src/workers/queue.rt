//! The job queue of `dl_workers` on one thread: the worked rows, and what no clause says of a call that waits.

ghost use Rattle.dl_workers.specs.Seats.{IsSenderOf, IsTakerOf};

use crate::assert_is;
use dl_desk::{FetchKey, Job, Keys};
use dl_workers::{JobQueue, QueueFault, Sender, Taker, Tally};
use std::alloc::Global;
use std::io::Eprint;
use std::process::Abort;
use std::sync::Wait;

/// A job of one key.
fn job(rt: &impl Abort, alloc: Global, batch: u32) -> Job {
    let key = FetchKey::new(alloc, "t", "a").expect(rt, "no key");
    let keys = Keys::copy_of(alloc, &[key]).expect(rt, "no memory");
    Job { batch, keys }
}

/// Capacities and numbers of senders and takers: the bounds, and what is past them.
static NUMBERS: [(u32, u32, u32, Option<QueueFault>); 12] = [
    (0, 1, 1, Some(QueueFault::BadCapacity)),
    (1_025, 1, 1, Some(QueueFault::BadCapacity)),
    (0, 0, 0, Some(QueueFault::BadCapacity)),
    (1, 0, 1, Some(QueueFault::BadCounts)),
    (1, 33, 1, Some(QueueFault::BadCounts)),
    (1, 1, 0, Some(QueueFault::BadCounts)),
    (1, 1, 33, Some(QueueFault::BadCounts)),
    (1, 1, 1, None),
    (1_024, 1, 1, None),
    (1, 32, 1, None),
    (1, 1, 32, None),
    (1_024, 32, 32, None),
];

#[test]
fn numbers_out_of_range(rt: HostRuntime) {
    for (capacity, senders, takers, fault) in &NUMBERS {
        let made = JobQueue::new(rt.alloc(), *capacity, *senders, *takers);
        assert_is!(&rt, &made.err(), fault, "the numbers of a queue");
    }
}

/// A sender sends the job of this number, which comes back or not, as `is_back` says.
fn send<R: Abort + Eprint + Wait>(
    rt: &R,
    alloc: Global,
    queue: &JobQueue,
    sender: &mut Sender,
    batch: u32,
    is_back: bool,
)
    requires { IsSenderOf queue.now sender.old }
    ensures { IsSenderOf queue.now sender.new }
{
    let back = queue.send(rt, sender, job(rt, alloc, batch)).err();
    let want = if is_back { Some(batch) } else { None };
    assert_is!(
        rt,
        &back.map(|job| job.batch),
        &want,
        "the job that came back",
    );
}

/// A taker takes the job of this number.
fn take<R: Abort + Eprint + Wait>(rt: &R, queue: &JobQueue, taker: &mut Taker, want: Option<u32>)
    requires { IsTakerOf queue.now taker.old }
    ensures { IsTakerOf queue.now taker.new }
{
    let job = queue.take(rt, taker);
    assert_is!(
        rt,
        &job.map(|job| job.batch),
        &want,
        "the job that was taken",
    );
}

#[test]
fn one_job_left(rt: HostRuntime) {
    let alloc = rt.alloc();
    let (queue, mut senders, takers) = JobQueue::new(alloc, 2, 1, 1).expect(&rt, "no queue");
    send(&rt, alloc, &queue, &mut senders[0], 0, false);
    let tally = Tally {
        sent: 1,
        taken: 0,
        left: 1,
    };
    assert_is!(
        &rt,
        &queue.finish(&rt, senders, takers),
        &tally,
        "a job is left",
    );
}

/// Three jobs and two end marks fill the queue: a second `shut` that sent marks would wait for ever. Each sender's jobs
/// come back then. The takers first get what the queue still has, and then the end, which comes again.
#[test]
fn what_is_left_comes_before_the_end(rt: HostRuntime) {
    let alloc = rt.alloc();
    let (queue, mut senders, mut takers) = JobQueue::new(alloc, 3, 2, 2).expect(&rt, "no queue");
    send(&rt, alloc, &queue, &mut senders[0], 0, false);
    send(&rt, alloc, &queue, &mut senders[1], 1, false);
    send(&rt, alloc, &queue, &mut senders[0], 2, false);
    queue.shut(&rt, &mut senders[1]);
    queue.shut(&rt, &mut senders[0]);
    send(&rt, alloc, &queue, &mut senders[0], 3, true);
    send(&rt, alloc, &queue, &mut senders[1], 4, true);
    take(&rt, &queue, &mut takers[0], Some(0));
    take(&rt, &queue, &mut takers[0], Some(1));
    take(&rt, &queue, &mut takers[1], Some(2));
    take(&rt, &queue, &mut takers[1], None);
    take(&rt, &queue, &mut takers[1], None);
    take(&rt, &queue, &mut takers[0], None);
    let tally = Tally {
        sent: 3,
        taken: 3,
        left: 0,
    };
    assert_is!(
        &rt,
        &queue.finish(&rt, senders, takers),
        &tally,
        "three jobs",
    );
}

/// One sender sends a job and shuts the queue, and one taker takes it.
#[test]
fn a_job_goes_through(rt: HostRuntime) {
    let made = JobQueue::new(rt.alloc(), 64, 1, 1);
    let (queue, mut senders, mut takers) = made.expect(&rt, "no queue");
    let job = job(&rt, rt.alloc(), 7);
    let sent = queue.send(&rt, &mut senders[0], job);
    queue.shut(&rt, &mut senders[0]);
    let taken = queue.take(&rt, &mut takers[0]);
    let tally = queue.finish(&rt, senders, takers);
    assert!(rt; sent.is_ok());
    assert_eq!(rt; taken.map(|job| job.batch), Some(7));
    assert_eq!(rt; tally.left, 0);
}
