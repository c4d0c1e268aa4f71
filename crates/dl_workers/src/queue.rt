//! The queue of jobs: a bounded channel under the rule that it loses, doubles and makes up no item.

ghost use Rattle.std.specs.Prelude.{◌≡◌, ◌<◌, ◌≤◌};
ghost use Rattle.crossbeam_channel.specs.Ends.{sends_on, receives_on};
ghost use Rattle.dl_workers.specs.QueueFaults.{most_seats};

use crate::fault::QueueFault;
use crate::new_seats::{deal_senders, deal_takers, widen};
use crate::rule::{Gather, Item, Lossless, Sends, Takes, Traffic, Whole};
use crate::seats::{Sender, Taker};
use crossbeam_channel::{Pass, RuledReceiver, RuledSender, bounded_with};
use dl_values::Job;
use std::alloc::{AllocError, Global};
use std::sync::Wait;
use std::sync::atomic::{AtomicBool, Ordering};

/// The most jobs that you may give a queue room for.
pub const LARGEST_CAPACITY: u32 = 1024;

/// The most senders, and the most takers, of a queue.
pub const MOST_SEATS: u32 = 32;

/// How many jobs went through a queue.
#[derive(Clone, Copy, Debug, PartialEq, Eq)]
pub struct Tally {
    /// The jobs that all senders sent.
    pub sent: u64,
    /// The jobs that all takers took.
    pub taken: u64,
    /// The jobs that senders sent and nobody took.
    pub left: u64,
}

/// A queue that carries jobs from the threads that hold a [`Sender`] to those that hold a [`Taker`]. Threads share it
/// by reference. It loses, doubles and makes up no job: [`finish`](JobQueue::finish) says so, once you give all seats
/// back.
///
/// # Examples
/// Sends a job and takes it, all on one thread, from `crates/dl_tests`. In a program `dl_workers::work` takes
/// the jobs until you shut the queue.
///
/// ```rust
/// let made = JobQueue::new(rt.alloc(), 64, 1, 1);
/// let (queue, mut senders, mut takers) = made.expect(&rt, "no queue");
/// let job = job(&rt, rt.alloc(), 7);
/// let sent = queue.send(&rt, &mut senders[0], job);
/// queue.shut(&rt, &mut senders[0]);
/// let taken = queue.take(&rt, &mut takers[0]);
/// let tally = queue.finish(&rt, senders, takers);
/// ```
pub struct JobQueue {
    sends: RuledSender<Item, Traffic, Lossless>,
    receives: RuledReceiver<Item, Traffic, Lossless>,
    is_shut: AtomicBool,
    senders: u32,
    takers: u32,
    ghost one_channel: { receives_on receives ≡ sends_on sends },
    ghost some_senders: { 0 < senders },
    ghost few_senders: { senders ≤ most_seats },
    ghost few_takers: { takers ≤ most_seats },
}

impl Drop for JobQueue {
    fn drop(self) {
        let JobQueue {
            sends,
            receives,
            is_shut: _,
            senders: _,
            takers: _,
        } = self;
        drop(sends);
        drop(receives);
    }
}

impl JobQueue {
    ghost use Rattle.std.specs.Prelude.{◌+◌, ◌*◌, ◌^◌, [], ◌∷◌, ◌++◌, length, All, IfNone, MatchOption, MatchResult, OnOk, IfOk, IfErr, flat_map, vec_len};
    ghost use Rattle.crossbeam_channel.specs.Claims.{view, IsSeatAt};
    ghost use Rattle.dl_workers.specs.QueueFaults.{IsCapacity, IsCount, RefusedAs};
    ghost use Rattle.dl_workers.specs.Seats.{IsSenderOf, IsTakerOf, AreSeatsOf, HasEnded, sent_items, sent_jobs, taken_items, taken_jobs, queue_room};
    ghost use Rattle.dl_workers.specs.Balance.{Balances};
    ghost use Rattle.dl_workers.specs.LosslessRule.{traffic};

    /// A queue with room for `capacity` jobs, and its seats. It takes its memory here: no other call of the queue
    /// allocates.
    ///
    /// # Errors
    /// The first cause of [`QueueFault`] that applies, in its order.
    pub fn new(
        alloc: Global,
        capacity: u32,
        senders: u32,
        takers: u32,
    ) -> Result<(JobQueue, Vec<Sender>, Vec<Taker>), QueueFault>
        ensures seats { IfOk result (λ r. AreSeatsOf r.0 r.1.items r.2.items) }
        ensures senders { IfOk result (λ r. vec_len r.1 ≡ senders) }
        ensures takers { IfOk result (λ r. vec_len r.2 ≡ takers) }
        ensures none_sent { IfOk result (λ r. All (λ s. sent_jobs s ≡ []) r.1.items) }
        ensures none_taken { IfOk result (λ r. All (λ t. taken_jobs t ≡ []) r.2.items) }

        // The end marks have places of their own, one for each taker.
        ensures places { IfOk result (λ r. queue_room r.0 ≡ capacity + takers) }
        ensures accepted { OnOk result (IsCapacity capacity × IsCount senders × IsCount takers) }
        ensures refused { IfErr result (RefusedAs capacity senders takers) }
    {
        if capacity == 0 || capacity > LARGEST_CAPACITY {
            return Err(QueueFault::BadCapacity);
        }
        if senders == 0 || senders > MOST_SEATS || takers == 0 || takers > MOST_SEATS {
            return Err(QueueFault::BadCounts);
        }
        match JobQueue::open(alloc, capacity, senders, takers) {
            Ok(opened) => Ok(opened),
            Err(AllocError) => Err(QueueFault::OutOfMemory),
        }
    }

    /// A queue of these numbers, which are in range.
    fn open(
        alloc: Global,
        capacity: u32,
        senders: u32,
        takers: u32,
    ) -> Result<(JobQueue, Vec<Sender>, Vec<Taker>), AllocError>
        requires capacity { IsCapacity capacity }
        requires senders { IsCount senders }
        requires takers { IsCount takers }
        ensures seats { IfOk result (λ r. AreSeatsOf r.0 r.1.items r.2.items) }
        ensures senders { IfOk result (λ r. vec_len r.1 ≡ senders) }
        ensures takers { IfOk result (λ r. vec_len r.2 ≡ takers) }
        ensures none_sent { IfOk result (λ r. All (λ s. sent_jobs s ≡ []) r.1.items) }
        ensures none_taken { IfOk result (λ r. All (λ t. taken_jobs t ≡ []) r.2.items) }
        ensures places { IfOk result (λ r. queue_room r.0 ≡ capacity + takers) }
    {
        let places = (capacity + takers) as usize;
        let (sends, receives, mut whole) = bounded_with::<Item, Traffic, Lossless, Global>(
            alloc, places,
        )?;
        widen(&sends, &mut whole, senders + takers - 1);
        let sender_seats = deal_senders(&sends, alloc, &mut whole, senders)?;
        let taker_seats = deal_takers(&sends, alloc, whole, takers)?;
        let queue = JobQueue {
            sends,
            receives,
            is_shut: AtomicBool::new(false),
            senders,
            takers,
        };
        Ok((queue, sender_seats, taker_seats))
    }

    /// Sends a job. The call waits while the queue is full.
    ///
    /// # Errors
    /// You get the job back if the queue is shut, or if the seat has sent `u32::MAX` jobs.
    pub fn send<R: Wait>(&self, rt: &R, sender: &mut Sender, job: Job) -> Result<(), Job>
        requires { IsSenderOf self.now sender.old }
        ensures seat { IsSenderOf self.now sender.new }
        ensures ok { OnOk result (sent_jobs sender.new ≡ sent_jobs sender.old ++ job ∷ []) }
        ensures err { IfErr result (λ back. (back ≡ job) × (sent_jobs sender.new ≡ sent_jobs sender.old)) }
        ensures bound { length (sent_jobs sender.new) < 2 ^ 32 }
    {
        if sender.sent == u32::MAX || self.is_shut.load(Ordering::SeqCst) {
            return Err(job);
        }
        match self.put(rt, &mut sender.pass, Item::Work(job)) {
            Ok(()) => {
                sender.sent += 1;
                Ok(())
            }
            Err(Item::Work(job)) => Err(job),
            Err(Item::End) => unreachable!(),
        }
    }

    /// Takes a job. The call waits while there is none.
    ///
    /// Returns `None` if the queue is shut and this taker has got its end mark, and from then on. It also returns
    /// `None` if the seat has taken `u32::MAX` jobs.
    pub fn take<R: Wait>(&self, rt: &R, taker: &mut Taker) -> Option<Job>
        requires { IsTakerOf self.now taker.old }
        ensures seat { IsTakerOf self.now taker.new }
        ensures taken { MatchOption result (taken_jobs taker.new ≡ taken_jobs taker.old) (λ job. taken_jobs taker.new ≡ taken_jobs taker.old ++ job ∷ []) }
        ensures ended { IfNone result (HasEnded taker.new) }
        ensures bound { length (taken_jobs taker.new) < 2 ^ 32 }
    {
        if taker.taken == u32::MAX || taker.ended {
            return None;
        }
        match self.receive(rt, &mut taker.pass) {
            Item::Work(job) => {
                taker.taken += 1;
                Some(job)
            }
            Item::End => {
                taker.ended = true;
                None
            }
        }
    }

    /// Takes the next item, and waits while there is none. The channel gives an error if it has no sender left, which
    /// never happens: the queue is a sender itself.
    fn receive<R: Wait>(&self, rt: &R, pass: &mut Pass<Item, Traffic>) -> Item
        requires seat { IsSeatAt (sends_on self.now.sends) pass.old }
        requires some_seat { 0 < (view pass.old).seats }
        ensures seat { IsSeatAt (sends_on self.now.sends) pass.new }
        ensures taken { view pass.new ≡ traffic (view pass.old).seats (view pass.old).all (view pass.old).sent
            ((view pass.old).taken ++ result ∷ []) }
    {
        for _ in rt.forever() {
            if let Ok(item) = self.receives.recv_as::<Takes, R>(rt, pass) {
                return item;
            }
        }
        unreachable!()
    }

    /// Shuts the queue: a send that begins after this has returned gives its job back, and each taker gets first the
    /// jobs that are left and then an end mark. A second call does nothing.
    ///
    /// A send that began before may still put its job behind the end marks, and then nobody takes it; or, if there is
    /// no room, it may wait for ever. So shut a queue after all sends have returned, or make it with room for one job
    /// more for each other sender.
    pub fn shut<R: Wait>(&self, rt: &R, sender: &mut Sender)
        requires { IsSenderOf self.now sender.old }
        ensures seat { IsSenderOf self.now sender.new }
        ensures same { sent_jobs sender.new ≡ sent_jobs sender.old }
    {
        if self.is_shut.swap(true, Ordering::SeqCst) {
            return;
        }
        for _ in 0..self.takers {
            self.mark(rt, sender);
        }
    }

    /// Sends an end mark.
    fn mark<R: Wait>(&self, rt: &R, sender: &mut Sender)
        requires { IsSenderOf self.now sender.old }
        ensures seat { IsSenderOf self.now sender.new }
        ensures same { sent_jobs sender.new ≡ sent_jobs sender.old }
    {
        let _ = self.put(rt, &mut sender.pass, Item::End);
    }

    /// Puts an item into the channel, and waits while that is full. You get back an item that the channel can't take.
    fn put<R: Wait>(&self, rt: &R, pass: &mut Pass<Item, Traffic>, item: Item) -> Result<(), Item>
        requires seat { IsSeatAt (sends_on self.now.sends) pass.old }
        requires some_seat { 0 < (view pass.old).seats }
        ensures seat { IsSeatAt (sends_on self.now.sends) pass.new }
        ensures put { MatchResult
            result (λ _. view pass.new ≡ traffic (view pass.old).seats (view pass.old).all ((view pass.old).sent ++ item ∷ []) (view pass.old).taken)
            (λ back. (back ≡ item) × (view pass.new ≡ view pass.old)) }
    {
        match self.sends.send_as::<Sends, R>(rt, pass, item) {
            Ok(()) => Ok(()),
            Err(refused) => Err(refused.into_inner()),
        }
    }

    /// Ends the queue and counts its jobs. Give all its seats back: the jobs that the takers took, with those that are
    /// left, are the jobs that the senders sent, each as often. The call doesn't wait; it takes the handle as the other
    /// calls do.
    pub fn finish<R: Wait>(self, _rt: &R, mut senders: Vec<Sender>, takers: Vec<Taker>) -> Tally
        requires seats { AreSeatsOf self senders.items takers.items }
        ensures balance { Balances senders.items takers.items result }
        ensures sum { result.sent ≡ result.taken + result.left }
    {
        let Some(last) = senders.pop() else {
            unreachable!()
        };
        let own = last.sent;
        let mut whole = last.into_pass();
        let sent = u64::from(own) + self.gather_senders(&mut whole, senders);
        let taken = self.gather_takers(&mut whole, takers);
        self.sends.learn_as::<Whole>(&mut whole);
        let left = sent - taken;
        Tally { sent, taken, left }
    }

    /// Joins the senders into one pass, and adds up their jobs.
    fn gather_senders(&self, whole: &mut Pass<Item, Traffic>, senders: Vec<Sender>) -> u64
        requires seat { IsSeatAt (sends_on self.now.sends) whole.old }
        requires some_seat { 0 < (view whole.old).seats }
        requires few { length senders.items ≤ most_seats }
        requires senders { All (IsSenderOf self.now) senders.items }
        ensures seat { IsSeatAt (sends_on self.now.sends) whole.new }
        ensures gathered { view whole.new ≡ traffic ((view whole.old).seats + length senders.items) (view whole.old).all
            ((view whole.old).sent ++ flat_map sent_items senders.items) (view whole.old).taken }
        ensures counted { result ≡ length (flat_map sent_jobs senders.items) }
        ensures bound { result ≤ most_seats * 2 ^ 32 }
    {
        let mut sent = 0;
        for sender in senders {
            sent += u64::from(sender.sent);
            self.sends.absorb::<Gather>(whole, sender.into_pass());
        }
        sent
    }

    /// Joins the takers into one pass, and adds up their jobs.
    fn gather_takers(&self, whole: &mut Pass<Item, Traffic>, takers: Vec<Taker>) -> u64
        requires seat { IsSeatAt (sends_on self.now.sends) whole.old }
        requires some_seat { 0 < (view whole.old).seats }
        requires few { length takers.items ≤ most_seats }
        requires takers { All (IsTakerOf self.now) takers.items }
        ensures seat { IsSeatAt (sends_on self.now.sends) whole.new }
        ensures gathered { view whole.new ≡ traffic ((view whole.old).seats + length takers.items) (view whole.old).all (view whole.old).sent
            ((view whole.old).taken ++ flat_map taken_items takers.items) }
        ensures counted { result ≡ length (flat_map taken_jobs takers.items) }
        ensures bound { result ≤ most_seats * 2 ^ 32 }
    {
        let mut taken = 0;
        for taker in takers {
            taken += u64::from(taker.taken);
            self.sends.absorb::<Gather>(whole, taker.into_pass());
        }
        taken
    }
}
