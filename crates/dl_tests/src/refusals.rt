//! What a test asks of the library below it, `tests/refuse.c`: to refuse the n-th growth of a call. If that library
//! isn't there, nothing is refused, and the test is a plain one.

use std::alloc::{AllocError, Global};
use std::cell::Cell;
use std::io::Eprint;

/// A growth of this many bytes and n more asks the library to refuse the n-th growth after it. Nothing else has that
/// size.
const GROWTHS: usize = 5_000_011;

/// A growth of this many bytes ends that. The library refuses it too if it has refused something.
const ENDS: usize = 5_400_013;

/// No call makes this many growths.
pub const MOST_GROWTHS: usize = 10_000;

/// What the library refuses to calls: the n-th growth of each of them, or of one of them alone.
#[derive(Drop)]
pub struct Refusal {
    alloc: Global,
    // Which of its growths a call is refused, from 1 on.
    nth: usize,
    // The number of the one call that is refused something. None: each is.
    only: Option<usize>,
    // How many calls were begun.
    calls: Cell<usize>,
    has_met: Cell<bool>,
}

impl Refusal {
    /// The library refuses nothing.
    pub fn of_nothing(alloc: Global) -> Refusal {
        Refusal::by(alloc, 1, Some(usize::MAX))
    }

    /// The library refuses each call its n-th growth, from 1 on.
    pub fn of_each(alloc: Global, nth: usize) -> Refusal {
        Refusal::by(alloc, nth, None)
    }

    /// The library refuses the call of this number, from 0 on, its n-th growth, and refuses the others nothing.
    pub fn of_growths_of_call(alloc: Global, nth: usize, call: usize) -> Refusal {
        Refusal::by(alloc, nth, Some(call))
    }

    fn by(alloc: Global, nth: usize, only: Option<usize>) -> Refusal {
        Refusal {
            alloc,
            nth,
            only,
            calls: Cell::new(0),
            has_met: Cell::new(false),
        }
    }

    /// A call begins here.
    pub fn begin(&self) {
        let call = self.calls.get();
        self.calls.set(call.saturating_add(1));
        let is_meant = match self.only {
            Some(only) => only == call,
            None => true,
        };
        if is_meant {
            let _ = room(self.alloc, GROWTHS.saturating_add(self.nth));
        }
    }

    /// The call of this name has ended. Answers whether the library refused it something, and says so on standard
    /// error.
    pub fn end<R: Eprint>(&self, rt: &R, call: &str) -> bool {
        let was_refused = room(self.alloc, ENDS).is_err();
        if was_refused {
            self.has_met.set(true);
            let _ = eprintln!(rt; "refused growth {} of {call}", self.nth);
        }
        was_refused
    }

    /// The call of this name has ended, out of memory or not. Answers whether you must make it again: it was out of
    /// memory, and the library had refused it something.
    pub fn is_again<R: Eprint>(&self, rt: &R, call: &str, is_out_of_memory: bool) -> bool {
        self.end(rt, call) && is_out_of_memory
    }

    /// Whether the library has refused anything to a call.
    pub fn has_met(&self) -> bool {
        self.has_met.get()
    }

    /// The number of calls so far.
    pub fn calls(&self) -> usize {
        self.calls.get()
    }
}

/// Room for `bytes` bytes.
fn room(alloc: Global, bytes: usize) -> Result<Vec<u8>, AllocError> {
    Vec::with_capacity(alloc, bytes)
}

/// Makes a call of a name under the refusal of a stage, which has the runtime too. If the call fails by that, makes it
/// again, by another expression if you give one.
#[macro_export]
macro_rules! made {
    ($stage:expr, $name:literal, $refused:pat, $call:expr) => {
        $crate::made!($stage, $name, $refused, $call, $call)
    };
    ($stage:expr, $name:literal, $refused:pat, $call:expr, $again:expr) => {{
        $stage.refusal.begin();
        let answer = $call;
        let is_out_of_memory = matches!(answer, $refused);
        if $stage.refusal.is_again($stage.rt, $name, is_out_of_memory) {
            $again
        } else {
            answer
        }
    }};
}

/// Makes a call with no growth under the refusal of a stage. It doesn't make the call again.
#[macro_export]
macro_rules! made_once {
    ($stage:expr, $name:literal, $call:expr) => {{
        $stage.refusal.begin();
        let answer = $call;
        $stage.refusal.end($stage.rt, $name);
        answer
    }};
}
