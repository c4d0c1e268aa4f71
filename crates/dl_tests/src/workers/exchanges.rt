//! Exchanges of jobs: senders and takers use one queue, each on a thread of its own.

ghost use Rattle.std.specs.Prelude.{◌≡◌, All, length};
ghost use Rattle.dl_workers.specs.Seats.{AreSeatsOf, IsSenderOf, IsTakerOf};

use crate::assert_is;
use dl_desk::{FetchKey, Job, Keys};
use dl_workers::{JobQueue, MOST_SEATS, Sender, Taker, Tally};
use std::alloc::Global;
use std::io::Eprint;
use std::process::Abort;
use std::sync::Wait;
use std::sync::atomic::{AtomicBool, AtomicU32, Ordering};
use std::thread::{self, Threads, join};

/// How an exchange uses a queue: the room and the seats of the queue, and the number of jobs that each sender has for
/// it.
struct Exchange {
    capacity: u32,
    senders: u32,
    takers: u32,
    jobs: u32,
    /// Each of the first two senders shuts the queue after this many jobs. If that is all of them, one shuts it after
    /// every sender has sent all.
    shut_after: u32,
    /// The number of times that the exchange happens.
    times: u32,
}

/// The jobs of an exchange, and which of them a taker took or a sender got back. Each has a number: all senders have
/// equally many, and the jobs of the first sender come first.
#[derive(Drop)]
struct Jobs {
    keys: Keys,
    is_noted: Vec<AtomicBool>,
    noted: AtomicU32,
}

impl Jobs {
    /// `count` jobs of one key.
    fn new(rt: &impl Abort, alloc: Global, count: u32) -> Jobs {
        let key = FetchKey::new(alloc, "t", "a").expect(rt, "no key");
        let mut is_noted = Vec::new(alloc);
        for _ in 0..count {
            let pushed = is_noted.push(AtomicBool::new(false));
            pushed.expect(rt, "no memory");
        }
        Jobs {
            keys: Keys::copy_of(alloc, &[key]).expect(rt, "no memory"),
            is_noted,
            noted: AtomicU32::new(0),
        }
    }

    /// Notes that a taker took a job or that it came back, for the first time.
    fn note(&self, rt: &impl Abort, job: &Job) {
        let is_noted = self.is_noted.get(job.batch as usize);
        let was_noted = is_noted
            .expect(rt, "no such job")
            .swap(true, Ordering::SeqCst);
        assert!(rt; !was_noted, "a job twice");
        self.noted.fetch_add(1, Ordering::SeqCst);
    }

    /// Sends the job of this number. If it comes back, notes that and answers `true`.
    fn send<R: Abort + Eprint + Wait>(
        &self,
        rt: &R,
        queue: &JobQueue,
        sender: &mut Sender,
        batch: u32,
    ) -> bool
        requires { IsSenderOf queue.now sender.old }
        ensures { IsSenderOf queue.now sender.new }
    {
        let keys = self.keys.try_copy().expect(rt, "no memory");
        match queue.send(rt, sender, Job { batch, keys }) {
            Ok(()) => false,
            Err(job) => {
                self.note(rt, &job);
                true
            }
        }
    }
}

/// Sends the jobs of the sender of this number. After it shuts the queue, it gets each of them back.
fn send_all<R: Abort + Eprint + Wait>(
    rt: &R,
    queue: &JobQueue,
    sender: &mut Sender,
    number: usize,
    exchange: &Exchange,
    jobs: &Jobs,
)
    requires { IsSenderOf queue.now sender.old }
    ensures { IsSenderOf queue.now sender.new }
{
    let first = if number < 2 {
        exchange.shut_after
    } else {
        exchange.jobs
    };
    let number = u32::try_from(number).expect(rt, "no number of a sender");
    let least = number.saturating_mul(exchange.jobs);
    for turn in 0..first {
        jobs.send(rt, queue, sender, least.saturating_add(turn));
    }
    if first < exchange.jobs {
        queue.shut(rt, sender);
    }
    for turn in first..exchange.jobs {
        let back = jobs.send(rt, queue, sender, least.saturating_add(turn));
        assert!(rt; back);
    }
}

/// Takes jobs until the queue is shut and empty.
fn take_all<R: Abort + Eprint + Wait>(rt: &R, queue: &JobQueue, taker: &mut Taker, jobs: &Jobs)
    requires { IsTakerOf queue.now taker.old }
    ensures { IsTakerOf queue.now taker.new }
{
    for _ in rt.forever() {
        let Some(job) = queue.take(rt, taker) else {
            return;
        };
        jobs.note(rt, &job);
    }
}

/// Each sender sends its jobs on a thread of its own. Then the first of them shuts the queue.
fn send_by_each<R: Abort + Eprint + Threads + Wait + Sync>(
    rt: &R,
    queue: &JobQueue,
    mut senders: Vec<Sender>,
    exchange: &Exchange,
    jobs: &Jobs,
) -> Vec<Sender>
    requires { All (IsSenderOf queue.now) senders.items }
    ensures seats { All (IsSenderOf queue.now) result.items }
    ensures each { length result.items ≡ length senders.items }
{
    thread::for_each_mut(
        rt,
        senders.as_mut_slice(),
        MOST_SEATS as usize,
        &|number: usize, sender: &mut Sender|
            requires { IsSenderOf queue.now sender.old }
            ensures { IsSenderOf queue.entry.now sender.new }
        { send_all(rt, queue, sender, number, exchange, jobs) },
    );
    if !senders.is_empty() {
        queue.shut(rt, &mut senders[0]);
    }
    senders
}

/// Each taker takes jobs on a thread of its own, until the queue is shut and empty.
fn take_by_each<R: Abort + Eprint + Threads + Wait + Sync>(
    rt: &R,
    queue: &JobQueue,
    mut takers: Vec<Taker>,
    jobs: &Jobs,
) -> Vec<Taker>
    requires { All (IsTakerOf queue.now) takers.items }
    ensures seats { All (IsTakerOf queue.now) result.items }
    ensures each { length result.items ≡ length takers.items }
{
    thread::for_each_mut(
        rt,
        takers.as_mut_slice(),
        MOST_SEATS as usize,
        &|_: usize, taker: &mut Taker|
            requires { IsTakerOf queue.now taker.old }
            ensures { IsTakerOf queue.entry.now taker.new }
        { take_all(rt, queue, taker, jobs) },
    );
    takers
}

/// All senders and takers use the queue at once. Their seats come back.
fn use_seats<R: Abort + Eprint + Threads + Wait + Sync>(
    rt: &R,
    queue: &JobQueue,
    senders: Vec<Sender>,
    takers: Vec<Taker>,
    exchange: &Exchange,
    jobs: &Jobs,
) -> (Vec<Sender>, Vec<Taker>)
    requires { AreSeatsOf queue.now senders.items takers.items }
    ensures { AreSeatsOf queue.now result.0.items result.1.items }
{
    join(
        rt,
        move || -> Vec<Sender>
            requires { All (IsSenderOf queue.now) senders.items }
            ensures { All (IsSenderOf queue.entry.now) result.items × (length result.items ≡ length senders.items) }
        { send_by_each(rt, queue, senders, exchange, jobs) },
        move || -> Vec<Taker>
            requires { All (IsTakerOf queue.now) takers.items }
            ensures { All (IsTakerOf queue.entry.now) result.items × (length result.items ≡ length takers.items) }
        { take_by_each(rt, queue, takers, jobs) },
    )
}

/// Makes an exchange on a queue of its own. A taker takes each of its jobs or it comes back, once, but for those that
/// the queue keeps.
fn make<R: Abort + Eprint + Threads + Wait + Sync>(
    rt: &R,
    alloc: Global,
    exchange: &Exchange,
) -> Tally {
    let count = exchange.senders.saturating_mul(exchange.jobs);
    let jobs = Jobs::new(rt, alloc, count);
    let made = JobQueue::new(alloc, exchange.capacity, exchange.senders, exchange.takers);
    let (queue, senders, takers) = made.expect(rt, "no queue");
    let (senders, takers) = use_seats(rt, &queue, senders, takers, exchange, &jobs);
    let tally = queue.finish(rt, senders, takers);
    let noted = jobs.noted.load(Ordering::SeqCst);
    let all = u64::from(noted).saturating_add(tally.left);
    assert_is!(rt, &all, &u64::from(count), "jobs");
    tally
}

/// A sender shuts the queue after all jobs are in.
static ALL_SENT: [Exchange; 4] = [
    Exchange {
        capacity: 4,
        senders: 2,
        takers: 2,
        jobs: 100,
        shut_after: 100,
        times: 100,
    },
    Exchange {
        capacity: 1,
        senders: 1,
        takers: 3,
        jobs: 100,
        shut_after: 100,
        times: 100,
    },
    Exchange {
        capacity: 1,
        senders: 3,
        takers: 1,
        jobs: 30,
        shut_after: 30,
        times: 100,
    },
    Exchange {
        capacity: 8,
        senders: 32,
        takers: 32,
        jobs: 10,
        shut_after: 10,
        times: 25,
    },
];

#[test]
fn each_job_is_taken_once(rt: HostRuntime) {
    for exchange in &ALL_SENT {
        let all = u64::from(exchange.senders.saturating_mul(exchange.jobs));
        let want = Tally {
            sent: all,
            taken: all,
            left: 0,
        };
        for _ in 0..exchange.times {
            assert_is!(
                &rt,
                &make(&rt, rt.alloc(), exchange),
                &want,
                "all jobs are taken",
            );
        }
    }
}

/// Two senders shut the queue while the others send. A send that has begun by then may put its job after the end marks,
/// and the queue keeps it. So each queue has a place for the job of every other sender: if a sender found none, it
/// would wait for ever.
static SHUT_MEANWHILE: [Exchange; 4] = [
    Exchange {
        capacity: 1,
        senders: 2,
        takers: 1,
        jobs: 40,
        shut_after: 20,
        times: 100,
    },
    Exchange {
        capacity: 2,
        senders: 4,
        takers: 2,
        jobs: 40,
        shut_after: 10,
        times: 100,
    },
    Exchange {
        capacity: 8,
        senders: 8,
        takers: 1,
        jobs: 20,
        shut_after: 5,
        times: 100,
    },
    Exchange {
        capacity: 1,
        senders: 32,
        takers: 32,
        jobs: 10,
        shut_after: 5,
        times: 25,
    },
];

#[test]
fn each_job_is_taken_or_comes_back(rt: HostRuntime) {
    for exchange in &SHUT_MEANWHILE {
        for _ in 0..exchange.times {
            make(&rt, rt.alloc(), exchange);
        }
    }
}
