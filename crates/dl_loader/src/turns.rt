//! Whose turn it is.

use crate::waiter::Waiter;
use dl_gather::{Gathering, Next, Policy};
use std::alloc::{AllocError, Global};
use std::sync::atomic::{AtomicUsize, Ordering};
use std::sync::{Mutex, MutexGuard, Wait};

/// The rule by which callers that take part send together, under a lock of its own. Whoever takes both locks takes this
/// one first, and then the book's. No contract says who sleeps and who wakes.
#[derive(Drop)]
pub(crate) struct Turns {
    rule: Mutex<Gathering>,
    // How many callers send. It is set under the lock, and a caller reads it without the lock once its cell shows: those
    // that send were counted before any batch of theirs went out.
    sends: AtomicUsize,
}

impl Turns {
    /// The turns of this many callers, none of whom takes part. Fails if memory runs out.
    pub(crate) fn new(alloc: Global, policy: Policy, callers: u32) -> Result<Turns, AllocError> {
        Ok(Turns {
            rule: Mutex::new(Gathering::new(alloc, policy, callers)?),
            sends: AtomicUsize::new(0),
        })
    }

    /// Whether callers send. If not, each caller that goes on may run.
    pub(crate) fn has_senders(&self) -> bool {
        self.sends.load(Ordering::SeqCst) > 0
    }

    /// Takes the lock of the rule.
    pub(crate) fn lock(&self, rt: &impl Wait) -> MutexGuard<'_, Gathering> {
        self.rule.lock(rt)
    }

    /// Notes a change of the locked rule. If it let others go on, wakes those of them that sleep.
    pub(crate) fn note(&self, rule: &Gathering, waiters: &[Waiter], lets_go: bool) {
        self.sends.store(rule.sends(), Ordering::SeqCst);
        if lets_go {
            wake_each(rule, waiters);
        }
    }
}

/// Wakes those that sleep although they may go on.
fn wake_each(rule: &Gathering, waiters: &[Waiter]) {
    for (caller, waiter) in (0..u32::MAX).zip(waiters) {
        if !is_to_sleep(rule, caller) {
            waiter.turn.wake();
        }
    }
}

/// Whether the caller is to sleep.
pub(crate) fn is_to_sleep(rule: &Gathering, caller: u32) -> bool {
    matches!(rule.next(caller), Next::Sleep)
}
