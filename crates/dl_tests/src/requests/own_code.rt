//! Plans over code that answers a key differently each time, and one table with too few outcomes.

use crate::requests::row::{Row, try_row};
use crate::requests::rows::ROW;
use crate::stage::Setting;
use dl_desk::{FetchKey, Json, Outcome, Outcomes};
use dl_source::{BatchAnswer, Checked, Fetch};
use dl_workers::NoGate;
use serde_json::Value;
use std::alloc::{AllocError, Global};
use std::sync::atomic::{AtomicU32, Ordering};

/// Code that answers each key by how many lists it got before, and leaves out the keys of the table `shop`.
#[derive(Drop)]
struct Turns {
    lists: AtomicU32,
}

impl Fetch for Turns {
    fn fetch(&self, alloc: Global, keys: &[FetchKey]) -> Result<BatchAnswer, AllocError> {
        let turn = self.lists.fetch_add(1, Ordering::Relaxed);
        let mut outcomes = Vec::with_capacity(alloc, keys.len())?;
        for key in keys {
            if key.table() != "shop" {
                let value = Json::new(alloc, Value::from(u64::from(turn)))?;
                outcomes.push(Outcome::Value(value))?;
            }
        }
        Ok(BatchAnswer::Each(Outcomes::new(alloc, outcomes)?))
    }
}

static ROWS: [Row; 2] = [
    Row {
        about: "a key that was cleared gets another answer",
        workers: &[1],
        times: 1,
        plans: &[
            r#"[{"eval":{"load":["user","u1"]}},{"clear":["user","u1"]},{"eval":{"load":["user","u1"]}}]"#,
        ],
        answers: &[&[(0, "0"), (2, "1")]],
        rounds: &[2],
        batches: Some(&[("u1", true), ("u1", true)]),
        ..ROW
    },
    Row {
        about: "too few outcomes",
        workers: &[1],
        times: 1,
        plans: &[r#"[{"eval":{"all":[{"load":["user","u1"]},{"load":["shop","s"]}]}}]"#],
        answers: &[&[(0, "batch of u1: wrong number of outcomes")]],
        batches: Some(&[("u1 s", false)]),
        ..ROW
    },
];

#[test]
fn plans_over_code(rt: HostRuntime) {
    let setting = Setting::new(&rt, rt.alloc());
    let stage = setting.stage(&rt);
    for row in &ROWS {
        let source = Checked(Turns {
            lists: AtomicU32::new(0),
        });
        try_row(&stage, &source, &NoGate, row);
    }
}
