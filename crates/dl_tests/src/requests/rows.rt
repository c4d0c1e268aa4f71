//! Plans that one, two and three workers serve: their answers, their rounds, and the batches that these make; and many
//! plans at a small queue, with the answers that one worker gives, whatever the schedule.

use crate::evaluations::TWO_FRIENDS;
use crate::requests::row::{Answers, Row, try_row};
use crate::stage::Setting;
use crate::{ADA, BOB, CountedTables, ONE, assert_is};
use dl_haxl::RunFault;
use dl_loader::CallFault;
use dl_scope::ScopeFault;
use dl_workers::NoGate;

/// A row of a plan with a load. The others differ from it.
pub(crate) const ROW: Row = Row {
    about: "a load",
    most: (2, 64, 256),
    queue: 16,
    workers: &[1, 2, 3],
    times: 20,
    plans: &[ONE],
    fault: None,
    answers: &[&[(0, ADA)]],
    rounds: &[1],
    batches: Some(&[("u1", true)]),
    calls: None,
};

/// One plan, by one worker, with little room for calls or jobs.
static SMALL: [Row; 4] = [
    Row {
        about: "a load where there is room for three calls",
        most: (2, 8, 3),
        workers: &[1],
        times: 1,
        ..ROW
    },
    Row {
        about: "a load where there is room for its load alone",
        most: (2, 8, 1),
        workers: &[1],
        times: 1,
        fault: Some(ScopeFault::Run {
            plan: 0,
            fault: RunFault::Call(CallFault::LogFull { limit: 1 }),
        }),
        ..ROW
    },
    Row {
        about: "a load where there is no room for the end of its batch",
        most: (2, 8, 2),
        workers: &[1],
        times: 1,
        fault: Some(ScopeFault::Stopped),
        ..ROW
    },
    Row {
        about: "three jobs over a queue with room for one",
        most: (1, 8, 32),
        queue: 1,
        workers: &[1],
        times: 1,
        plans: &[
            r#"[{"eval":{"all":[{"load":["user","u1"]},{"load":["user","u2"]},{"load":["user","u3"]}]}}]"#,
        ],
        answers: &[&[(
            0,
            r#"[{"best":"u2","friends":["u2","u3"],"name":"Ada"},{"best":"u1","friends":[],"name":"Bob"},{"name":"Cy"}]"#,
        )]],
        batches: Some(&[("u1", true), ("u2", true), ("u3", true)]),
        ..ROW
    },
];

/// Plans, most of which load what others load.
const PLANS: [&str; 8] = [
    r#"[{"eval":{"pick":[{"follow":[{"load":["user","u1"]},"best","user"]},"name"]}}]"#,
    r#"[{"eval":{"each":[{"load":["user","u1"]},"friends","user"]}}]"#,
    r#"[{"eval":{"all":[]}},{"eval":{"load":["user","u2"]}}]"#,
    r#"[{"eval":{"load":["user","u7"]}}]"#,
    r#"[{"eval":{"all":[{"load":["user","u1"]},{"load":["user","u2"]},{"load":["user","u3"]}]}}]"#,
    r#"[{"eval":{"all":[{"load":["user","u1"]},{"load":["user","u13"]}]}}]"#,
    r#"[{"eval":{"load":["user","u1"]}},{"clear":["user","u1"]},{"eval":{"load":["user","u1"]}}]"#,
    r#"[{"eval":{"load":["user","u9"]}},{"clearAll":true},{"eval":{"each":[{"load":["user","u3"]},"name","user"]}}]"#,
];

const ANSWERS: [Answers; 8] = [
    &[(0, r#""Bob""#)],
    &[(0, TWO_FRIENDS)],
    &[(0, "[]"), (1, BOB)],
    &[(0, "key u7: no row")],
    &[(
        0,
        r#"[{"best":"u2","friends":["u2","u3"],"name":"Ada"},{"best":"u1","friends":[],"name":"Bob"},{"name":"Cy"}]"#,
    )],
    &[(0, "batch of u13: db down")],
    &[(0, ADA), (2, ADA)],
    &[(0, "key u9: gone"), (2, "not a list")],
];

/// These plans in batches of one key.
const MANY: Row = Row {
    about: "many plans at a queue of one place, by one worker",
    most: (1, 64, 256),
    queue: 1,
    workers: &[1],
    times: 1,
    plans: &PLANS,
    answers: &ANSWERS,
    rounds: &[2, 2, 1, 1, 1, 1, 2, 2],
    batches: None,
    ..ROW
};

/// The answers of a plan of one user.
const ANSWER: Answers = &[(0, ADA)];

static CROWDS: [Row; 4] = [
    MANY,
    Row {
        about: "many plans at a queue of one place",
        workers: &[4],
        times: 1_000,
        ..MANY
    },
    Row {
        about: "16 plans by 16 workers",
        most: (2, 8, 256),
        queue: 1_024,
        workers: &[16],
        times: 1,
        plans: &[ONE; 16],
        answers: &[ANSWER; 16],
        rounds: &[1; 16],
        batches: None,
        ..ROW
    },
    Row {
        about: "a plan of no steps, which makes no call",
        queue: 1,
        times: 1,
        plans: &["[]"],
        answers: &[&[]],
        rounds: &[0],
        batches: Some(&[]),
        calls: Some(0),
        ..ROW
    },
];

// The source is asked once for each batch of a report's history.
#[test]
fn plans_by_any_number_of_workers(rt: HostRuntime) {
    let setting = Setting::new(&rt, rt.alloc());
    let stage = setting.stage(&rt);
    for rows in [SMALL.as_slice(), CROWDS.as_slice()] {
        for row in rows {
            let users = CountedTables::new(setting.copy_of_users(&rt));
            let batches = try_row(&stage, &users, &NoGate, row);
            if row.fault.is_none() {
                assert_is!(&rt, &users.fetches(), &batches, row.about);
            }
        }
    }
}
