//! Terms whose batches the caller ends on its own thread, or a worker on another: their answers, their rounds, and the
//! batches that these make. Rows of `tests/documents.py` test what else terms give, by the program.

use crate::batches::{Batch, assert_batches};
use crate::player::{By, Turn, play_over};
use crate::stage::{Setting, Stage};
use crate::{ADA, BOB, CountedTables, FRIENDS, U1, U2, assert_is};
use dl_source::Source;
use dl_workers::WorkerEnd;
use std::alloc::AllocGlobal;
use std::io::Eprint;
use std::process::Abort;
use std::random::RandomSource;
use std::sync::Wait;
use std::thread::Threads;

/// A term, the limits of its loader's batches and cells, and what it gives.
#[derive(Clone, Copy)]
struct Row {
    about: &'static str,
    /// Who ends its batches, one after another, each on a loader of its own.
    by: &'static [By],
    term: &'static str,
    max_cells: u32,
    /// The text of its answer.
    answer: &'static str,
    /// The number of rounds of loads that it takes.
    rounds: u32,
    /// Its batches.
    batches: &'static [Batch],
}

/// A row of a term that needs no load. The others differ from it.
const ROW: Row = Row {
    about: "a value",
    by: &[By::Itself, By::Worker],
    term: r#"{"value":7}"#,
    max_cells: 8,
    answer: "7",
    rounds: 0,
    batches: &[],
};

/// The rows of the users `u2` and `u3`.
pub(crate) const TWO_FRIENDS: &str = r#"[{"best":"u1","friends":[],"name":"Bob"},{"name":"Cy"}]"#;

static ROWS: [Row; 6] = [
    ROW,
    Row {
        about: "a load",
        term: U1,
        answer: ADA,
        rounds: 1,
        batches: &[("u1", true)],
        ..ROW
    },
    Row {
        about: "all friends",
        term: FRIENDS,
        answer: TWO_FRIENDS,
        rounds: 2,
        batches: &[("u1", true), ("u2 u3", true)],
        ..ROW
    },
    Row {
        about: "a key that breaks its batch",
        term: r#"{"all":[{"load":["user","u1"]},{"load":["user","u13"]}]}"#,
        answer: "batch of u1: db down",
        rounds: 1,
        batches: &[("u1 u13", false)],
        ..ROW
    },
    Row {
        about: "another user, while a future of the first is polled",
        by: &[By::WithFuture],
        term: U2,
        answer: BOB,
        rounds: 1,
        batches: &[("u1 u2", true)],
        ..ROW
    },
    Row {
        about: "two cells where there is one",
        term: r#"{"all":[{"load":["user","u1"]},{"load":["user","u2"]}]}"#,
        max_cells: 1,
        answer: "Call(CellsFull { limit: 1 })",
        ..ROW
    },
];

/// Each row plays this often.
const TIMES: u32 = 20;

#[test]
fn terms_and_their_batches(rt: HostRuntime) {
    let setting = Setting::new(&rt, rt.alloc());
    let stage = setting.stage(&rt);
    for row in &ROWS {
        for _ in 0..TIMES {
            try_row(&stage, &setting.users, row);
        }
    }
}

/// Plays a row with each of those who end its batches, and checks what it says.
fn try_row<
    S: Source + Sync,
    R: Abort + AllocGlobal + Eprint + RandomSource + Threads + Wait + Sync,
>(stage: &Stage<'_, R>, source: &S, row: &Row) {
    for by in row.by {
        let batches = u32::try_from(row.batches.len()).expect(stage.rt, "too many batches");
        let turn = Turn {
            term: row.term,
            by: *by,
            answer: row.answer,
            rounds: row.rounds,
            capacity: 2,
            jobs: u64::from(batches),
            end: WorkerEnd::Done { batches },
        };
        let closed = play_over(stage, source, (2, row.max_cells, 16), &[turn]);
        let history = closed.expect(stage.rt, "the loader can't be closed");
        assert_batches(stage.rt, stage.alloc, &history, row.batches, row.about);
    }
}

#[test]
fn each_batch_is_fetched_once(rt: HostRuntime) {
    let setting = Setting::new(&rt, rt.alloc());
    let stage = setting.stage(&rt);
    let users = CountedTables::new(setting.copy_of_users(&rt));
    let turn = Turn {
        term: FRIENDS,
        by: By::Itself,
        answer: TWO_FRIENDS,
        rounds: 2,
        capacity: 2,
        jobs: 3,
        end: WorkerEnd::Done { batches: 3 },
    };
    let closed = play_over(&stage, &users, (1, 8, 16), &[turn]);
    assert_is!(
        &rt,
        &closed.err(),
        &None,
        "all friends, in batches of one key",
    );
    assert_is!(&rt, &users.fetches(), &3, "three batches");
}
