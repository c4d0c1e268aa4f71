//! Plans that stop by the fault of another, while they wait for a batch: the fault names the plan that has it,
//! whichever is first, and none waits for ever.

use crate::assert_is;
use crate::requests::row::{Row, try_row};
use crate::requests::rows::ROW;
use crate::stage::Setting;
use dl_haxl::RunFault;
use dl_loader::CallFault;
use dl_scope::ScopeFault;
use dl_workers::Gate;
use std::sync::atomic::{AtomicU32, Ordering};
use std::thread::sleep;
use std::time::{Clock, Duration};

/// The most cells.
const MOST_CELLS: u32 = 6;

/// A plan that needs more cells than that.
const FAULTY: &str =
    r#"[{"eval":{"each":[{"value":{"f":["a","b","c","d","e","f","g"]}},"f","user"]}}]"#;

/// A plan of six batches, one after another, which then needs more cells than that.
const LATER: &str = concat!(
    r#"[{"eval":{"load":["user","u1"]}},{"eval":{"load":["user","u2"]}},{"eval":{"load":["user","u3"]}},"#,
    r#"{"eval":{"load":["user","u4"]}},{"eval":{"load":["user","u5"]}},{"eval":{"load":["user","u6"]}},"#,
    r#"{"eval":{"load":["user","u7"]}}]"#
);

/// A gate holds a worker for this many milliseconds before it fetches.
const HOLD: u64 = 50;

/// A gate that holds each worker for a while, and counts the batches that have ended.
#[derive(Drop)]
struct Slow<'a, R: Clock> {
    rt: &'a R,
    ended: AtomicU32,
}

impl<'a, R: Clock> Gate for Slow<'a, R> {
    fn before_fetch(&self, _batch: u32) {
        sleep(self.rt, Duration::from_millis(HOLD));
    }

    fn after_settle(&self, _batch: u32) {
        self.ended.fetch_add(1, Ordering::SeqCst);
    }
}

/// Two plans, one of which waits while the other meets its fault.
static ROWS: [Row; 2] = [
    Row {
        about: "the first plan meets its fault while the second waits",
        most: (1, MOST_CELLS, 64),
        queue: 1,
        times: 1,
        plans: &[FAULTY, LATER],
        fault: Some(ScopeFault::Run {
            plan: 0,
            fault: RunFault::Call(CallFault::CellsFull { limit: MOST_CELLS }),
        }),
        ..ROW
    },
    Row {
        about: "the second plan meets its fault while the first waits",
        most: (1, MOST_CELLS, 64),
        queue: 1,
        times: 1,
        plans: &[LATER, FAULTY],
        fault: Some(ScopeFault::Run {
            plan: 1,
            fault: RunFault::Call(CallFault::CellsFull { limit: MOST_CELLS }),
        }),
        ..ROW
    },
];

#[test]
fn a_plan_that_waits_is_stopped_by_the_fault_of_another(rt: HostRuntime) {
    let setting = Setting::new(&rt, rt.alloc());
    let stage = setting.stage(&rt);
    for row in &ROWS {
        let gate = Slow {
            rt: &rt,
            ended: AtomicU32::new(0),
        };
        try_row(&stage, &setting.users, &gate, row);
        // By each of three numbers of workers fewer than all batches of the plan that waits have ended.
        let ended = gate.ended.load(Ordering::SeqCst);
        assert_is!(&rt, &(ended < 3 * MOST_CELLS), &true, row.about);
    }
}
