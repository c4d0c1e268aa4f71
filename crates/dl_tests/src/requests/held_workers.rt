//! Workers that fetch at once, and plans that run at once: a gate holds one worker until another has ended its batch.

use crate::requests::row::{Row, try_row};
use crate::requests::rows::ROW;
use crate::stage::Setting;
use crate::{ADA, BOB, ONE, assert_is};
use dl_workers::Gate;
use std::sync::atomic::{AtomicBool, Ordering};
use std::thread::yield_now;

/// A held worker looks this often whether it may go on.
const MOST_LOOKS: u32 = 10_000_000;

/// A gate that holds the worker of batch 0 until batch 1 has ended.
#[derive(Drop)]
struct Held {
    has_ended: AtomicBool,
    gave_up: AtomicBool,
}

impl Gate for Held {
    fn before_fetch(&self, batch: u32) {
        if batch != 0 {
            return;
        }
        for _ in 0..MOST_LOOKS {
            if self.has_ended.load(Ordering::SeqCst) {
                return;
            }
            yield_now();
        }
        self.gave_up.store(true, Ordering::SeqCst);
    }

    fn after_settle(&self, batch: u32) {
        if batch == 1 {
            self.has_ended.store(true, Ordering::SeqCst);
        }
    }
}

/// Plans of two batches of one key each, for two workers.
static ROWS: [Row; 2] = [
    Row {
        about: "two workers for one plan",
        most: (1, 8, 32),
        queue: 4,
        workers: &[2],
        times: 1,
        plans: &[r#"[{"eval":{"all":[{"load":["user","u1"]},{"load":["user","u2"]}]}}]"#],
        answers: &[&[(
            0,
            r#"[{"best":"u2","friends":["u2","u3"],"name":"Ada"},{"best":"u1","friends":[],"name":"Bob"}]"#,
        )]],
        batches: None,
        ..ROW
    },
    Row {
        about: "two workers for two plans, of which none waits for the other to end",
        most: (1, 8, 32),
        queue: 4,
        workers: &[2],
        times: 1,
        plans: &[
            ONE,
            r#"[{"clear":["user","u1"]},{"eval":{"load":["user","u2"]}}]"#,
        ],
        answers: &[&[(0, ADA)], &[(1, BOB)]],
        rounds: &[1, 1],
        batches: None,
        ..ROW
    },
];

#[test]
fn batches_that_are_fetched_at_once(rt: HostRuntime) {
    let setting = Setting::new(&rt, rt.alloc());
    let stage = setting.stage(&rt);
    for row in &ROWS {
        let gate = Held {
            has_ended: AtomicBool::new(false),
            gave_up: AtomicBool::new(false),
        };
        try_row(&stage, &setting.users, &gate, row);
        assert_is!(&rt, &gate.gave_up.load(Ordering::SeqCst), &false, row.about);
    }
}
