//! Closes of a loader, some of which fail, and what the last one leaves.

use crate::loader::play_rows;
use crate::loader::step::{Part, Row};

/// The load of the first key, and a close, which fails.
const BEGUN: Part = Part {
    steps: &[(0, "load u1", "done")],
    passes: 1,
    close: "Unsettled { batch: 0 }",
};

static ROWS: [Row; 5] = [
    Row {
        about: "a close once a batch has failed",
        limits: (2, 8, 16),
        callers: 1,
        parts: &[
            BEGUN,
            Part {
                steps: &[(0, "dispatch", "done"), (0, "fail 0 u1", "done")],
                passes: 1,
                close: concat!(
                    "0 caller 0 load user/u1: fresh 0 in batch 0\n",
                    "1 caller 0 dispatch: sent [batch 0 of [user/u1]]\n",
                    "2 caller 0 fail batch 0 by out of memory: done\n",
                    "caller 0: 0 1 2 of [0, 1, 2]\n",
                ),
            },
        ],
    },
    Row {
        about: "a close with a batch that has not ended",
        limits: (2, 8, 16),
        callers: 1,
        parts: &[
            BEGUN,
            Part {
                steps: &[
                    (0, "dispatch", "done"),
                    (0, "fail 0 u1", "done"),
                    (0, "loadMany u1", "done"),
                ],
                passes: 1,
                close: "Unsettled { batch: 1 }",
            },
        ],
    },
    Row {
        about: "a loader with the greatest limits",
        limits: (1, 65_536, 65_536),
        callers: 1,
        parts: &[BEGUN],
    },
    Row {
        about: "a loader with the least limits",
        limits: (1, 1, 1),
        callers: 1,
        parts: &[BEGUN],
    },
    Row {
        about: "a close with as many callers as there may be",
        limits: (1, 1, 2),
        callers: 32,
        parts: &[
            Part {
                steps: &[(0, "clear u1", "done"), (31, "clear u1", "done")],
                passes: 31,
                close: "PassesMissing { want: 32, got: 31 }",
            },
            Part {
                steps: &[],
                passes: 32,
                close: concat!(
                    "0 caller 0 clear user/u1: done\n",
                    "1 caller 31 clear user/u1: done\n",
                    "caller 0: 0 of [0]\n",
                    "caller 31: 1 of [1]\n",
                ),
            },
        ],
    },
];

#[test]
fn rows_of_closes(rt: HostRuntime) {
    play_rows(&rt, rt.alloc(), &ROWS);
}
