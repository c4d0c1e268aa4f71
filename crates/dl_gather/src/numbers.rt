//! How many tasks do what.

ghost use Rattle.std.specs.Prelude.{◌≡◌, ◌+◌, ◌≤◌, ◌<◌, ◌^◌, cond};
ghost use Rattle.dl_gather.specs.Tasks.{is_arrived, is_ready, is_running, is_sending, is_waiting, numbers_turned, with, without};

use crate::task::{Task, Turn};

/// How many tasks run, are ready, have arrived, send, and wait.
#[derive(Clone, Copy)]
pub(crate) struct Numbers {
    pub(crate) runs: usize,
    pub(crate) ready: usize,
    pub(crate) arrived: usize,
    pub(crate) sends: usize,
    pub(crate) waits: usize,
}

impl Numbers {
    /// Of tasks that are all outside.
    pub(crate) fn none() -> Numbers
        ensures { result ≡ record { runs = 0; ready = 0; arrived = 0; sends = 0; waits = 0 } }
    {
        Numbers {
            runs: 0,
            ready: 0,
            arrived: 0,
            sends: 0,
            waits: 0,
        }
    }

    /// The same with one task more.
    pub(crate) fn with(self, task: Task) -> Numbers
        requires runs { self.runs < 2 ^ 63 }
        requires ready { self.ready < 2 ^ 63 }
        requires arrived { self.arrived < 2 ^ 63 }
        requires sends { self.sends < 2 ^ 63 }
        requires waits { self.waits < 2 ^ 63 }
        ensures { result ≡ with self task }
    {
        let mut more = self;
        match task {
            Task::Outside => {}
            Task::Runs => more.runs += 1,
            Task::Ready => more.ready += 1,
            Task::Arrived => more.arrived += 1,
            Task::Sends => more.sends += 1,
            Task::Waits => more.waits += 1,
        }
        more
    }

    /// The same without one of the tasks.
    pub(crate) fn without(self, task: Task) -> Numbers
        requires runs { cond (is_running task) 1 0 ≤ self.runs }
        requires ready { cond (is_ready task) 1 0 ≤ self.ready }
        requires arrived { cond (is_arrived task) 1 0 ≤ self.arrived }
        requires sends { cond (is_sending task) 1 0 ≤ self.sends }
        requires waits { cond (is_waiting task) 1 0 ≤ self.waits }
        ensures { result ≡ without self task }
    {
        let mut less = self;
        match task {
            Task::Outside => {}
            Task::Runs => less.runs -= 1,
            Task::Ready => less.ready -= 1,
            Task::Arrived => less.arrived -= 1,
            Task::Sends => less.sends -= 1,
            Task::Waits => less.waits -= 1,
        }
        less
    }

    /// The same after a turn.
    pub(crate) fn turned(self, turn: Turn) -> Numbers
        requires runs { self.runs < 2 ^ 63 }
        requires ready { self.ready < 2 ^ 63 }
        requires arrived { self.arrived < 2 ^ 63 }
        requires sends { self.sends < 2 ^ 63 }
        requires waits { self.waits < 2 ^ 63 }
        ensures { result ≡ numbers_turned turn self }
    {
        let mut after = self;
        match turn {
            Turn::Run => {
                after.runs += after.ready;
                after.ready = 0;
            }
            Turn::Send => {
                after.sends += after.arrived;
                after.arrived = 0;
            }
            Turn::Wake => {
                after.ready += after.waits;
                after.waits = 0;
            }
            Turn::Leave => after = Numbers::none(),
        }
        after
    }
}
