//! The shared loader of `dl_loader`: worked rows of its calls, each on a loader of its own.

mod asks;
mod closed_history;
mod held;
mod largest;
mod player;
mod refused;
mod row;
mod rows;
pub(crate) mod stage;
mod step;
mod texts;
mod usage;
mod waits;

use crate::loader::largest::MOST;
use crate::loader::stage::Stage;
use crate::loader::step::Row;
use crate::loader::waits::{CALLERS, Crowd, Release};
use crate::{Refusal, USERS, assert_is, tables};
use dl_desk::Limits;
use dl_loader::{MOST_CALLERS, Opening, StartFault};
use dl_source::Tables;
use std::alloc::Global;
use std::hash::RandomState;
use std::io::Eprint;
use std::marker::Brand;
use std::process::Abort;
use std::random::RandomSource;
use std::sync::Wait;
use std::thread::Threads;

/// The users' tables.
pub(crate) fn users<R: Abort + RandomSource>(rt: &R, alloc: Global) -> Tables {
    tables(alloc, hashing(rt), USERS).expect(rt, "no tables")
}

/// A hash by random numbers.
pub(crate) fn hashing<R: Abort + RandomSource>(rt: &R) -> RandomState {
    RandomState::new(rt).expect(rt, "no random numbers")
}

/// Makes the calls and the closes of rows.
fn play_rows<R: Abort + Eprint + RandomSource + Wait>(rt: &R, alloc: Global, rows: &[Row]) {
    let users = users(rt, alloc);
    let nothing = Refusal::of_nothing(alloc);
    let stage = Stage::new(rt, alloc, &nothing);
    for row in rows {
        play_over(&stage, &users, row);
    }
}

/// Makes the calls and the closes of a row on a loader of its own over these tables. Before all that it prints what the
/// row is about, so if an assertion fails, the last such line names its row.
fn play_over<R: Abort + Eprint + Wait>(stage: &Stage<'_, R>, users: &Tables, row: &Row) {
    let told = stage.rt.eprintln(row.about);
    told.expect(stage.rt, "no text told");
    let opening = stage.opening(users, row);
    row::play::<Brand, _, _>(stage, users, opening, row.parts);
}

// The numbers of callers that a loader may have, and those next to them.
static COUNTS: [(u32, Option<StartFault>); 4] = [
    (0, Some(StartFault::NoCallers)),
    (1, None),
    (32, None),
    (33, Some(StartFault::TooManyCallers)),
];

#[test]
fn numbers_of_callers_out_of_range(rt: HostRuntime) {
    let users = users(&rt, rt.alloc());
    let limits = Limits::new(1, 1, 2).expect(&rt, "no limits");
    for (callers, fault) in &COUNTS {
        let refused = Opening::new(rt.alloc(), hashing(&rt), &users, limits, *callers).err();
        assert_is!(&rt, &refused, fault, "fault");
    }
}

#[test]
fn callers_on_threads_of_their_own(rt: HostRuntime) {
    let users = users(&rt, rt.alloc());
    callers_on_threads(&rt, rt.alloc(), hashing(&rt), &users);
}

/// The callers of a loader over these tables load one key, each on a thread of its own.
fn callers_on_threads<R: Abort + Eprint + Threads + Wait + Sync>(
    rt: &R,
    alloc: Global,
    hashing: RandomState,
    users: &Tables,
) {
    let limits = Limits::new(2, 8, 16).expect(rt, "no limits");
    let key = texts::user(rt, alloc, "u1");
    let opening = Opening::new(alloc, hashing, users, limits, 2).expect(rt, "no opening");
    let history = usage::load_by_each::<Brand, _, _>(rt, alloc, users, opening, &key);
    usage::assert_history(rt, alloc, &history);
}

// Callers that wait for one batch that ends or fails, by a call or by the law, for several that end one after another, at a loader that is
// stopped, or stopped right after the end of what they wait for, and once all is over.
static CROWDS: [Crowd; 9] = [
    Crowd {
        max_batch: 2,
        loads: &[("u1", "Ada")],
        release: Release::Ends,
        is_late: false,
    },
    Crowd {
        max_batch: 1,
        loads: &[
            ("u1", "Ada"),
            ("u9", "error gone"),
            ("u13", "batch db down"),
        ],
        release: Release::Ends,
        is_late: false,
    },
    Crowd {
        max_batch: 1,
        loads: &[
            ("u1", "Ada"),
            ("u9", "error gone"),
            ("u13", "batch db down"),
        ],
        release: Release::Ends,
        is_late: true,
    },
    Crowd {
        max_batch: 1,
        loads: &[("u1", "Ada")],
        release: Release::By(&[("dispatch", "done"), ("law settle 0 u1", "done")]),
        is_late: false,
    },
    Crowd {
        max_batch: 1,
        loads: &[("u1", "memory")],
        release: Release::By(&[("dispatch", "done"), ("law fail 0 u1", "done")]),
        is_late: false,
    },
    Crowd {
        max_batch: 1,
        loads: &[("u1", "memory")],
        release: Release::By(&[("dispatch", "done"), ("fail 0 u1", "done")]),
        is_late: false,
    },
    Crowd {
        max_batch: 1,
        loads: &[("u1", "Ada")],
        release: Release::By(&[("dispatch", "done"), ("settle 0 u1", "done"), ("stop", "")]),
        is_late: false,
    },
    Crowd {
        max_batch: 1,
        loads: &[("u1", "Ada"), ("u2", "")],
        release: Release::Stops,
        is_late: false,
    },
    Crowd {
        max_batch: 2,
        loads: &[("u1", "Ada"), ("u2", "")],
        release: Release::Stops,
        is_late: true,
    },
];

#[test]
fn callers_that_wait_at_once(rt: HostRuntime) {
    let users = users(&rt, rt.alloc());
    for crowd in &CROWDS {
        for _ in 0..100 {
            wait_by(&rt, rt.alloc(), hashing(&rt), &users, crowd);
        }
    }
}

/// Callers of a loader over these tables wait at once.
fn wait_by<R: Abort + Eprint + Threads + Wait + Sync>(
    rt: &R,
    alloc: Global,
    hashing: RandomState,
    users: &Tables,
    crowd: &'static Crowd,
) {
    let limits = Limits::new(crowd.max_batch, 8, 32).expect(rt, "no limits");
    let opening = Opening::new(alloc, hashing, users, limits, CALLERS).expect(rt, "no opening");
    waits::wait_at_once::<Brand, _, _>(rt, alloc, users, opening, crowd);
}

// The first of as many callers as there may be makes as many calls as there may be, on a loader of the greatest limits.
#[test]
fn the_most_calls_of_one_log(rt: HostRuntime) {
    let users = users(&rt, rt.alloc());
    let limits = Limits::new(MOST, MOST, MOST).expect(&rt, "no limits");
    let opening = Opening::new(rt.alloc(), hashing(&rt), &users, limits, MOST_CALLERS);
    let opening = opening.expect(&rt, "no opening");
    let history = largest::fill::<Brand, _, _>(&rt, rt.alloc(), opening);
    let places = history.of_caller(rt.alloc(), 0).expect(&rt, "no memory");
    assert_is!(&rt, &history.events().len(), &65_536, "events");
    assert_is!(&rt, &places.len(), &65_536, "those of the caller");
}
