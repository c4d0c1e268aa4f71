//! What a task does, and what it does next.

ghost use Rattle.std.specs.Prelude.{◌≡◌};
ghost use Rattle.dl_gather.specs.Tasks.{next_of, turned};

/// What a task does: a request that loads keys, with others at the same time.
#[derive(Clone, Copy, Debug, PartialEq, Eq)]
pub enum Task {
    /// It takes no part, so it holds nobody up: it has not entered, or it has left.
    Outside,
    /// It runs, and may load keys.
    Runs,
    /// It has made its loads, and sleeps until its keys are sent.
    Arrived,
    /// It dispatches what is collected. Nobody runs meanwhile, so only the first of those that send finds anything.
    Sends,
    /// It sleeps until what it loaded has ended.
    Waits,
    /// What it loaded has ended. It sleeps until nobody sends.
    Ready,
}

/// What a task does next.
#[derive(Clone, Copy, Debug, PartialEq, Eq)]
pub enum Next {
    /// It goes on.
    GoOn,
    /// It sleeps, and asks again once it is woken.
    Sleep,
    /// It dispatches what is collected, and says so by [`sent`](crate::Gathering::sent).
    Send,
}

/// When tasks that have arrived may send, once nobody runs.
#[derive(Clone, Copy, Debug, PartialEq, Eq)]
pub enum Policy {
    /// At once, so a slow batch holds up only the tasks that wait for it.
    Eager,
    /// Once all batches that went out have ended, so tasks need no more sends than one of them has rounds.
    Rounds,
}

/// What some tasks may do now.
#[derive(Clone, Copy)]
pub(crate) enum Turn {
    /// Those that are ready run.
    Run,
    /// Those that have arrived send.
    Send,
    /// Those that wait are ready.
    Wake,
    /// All are outside.
    Leave,
}

impl Task {
    /// What the task does next.
    pub(crate) fn next(self) -> Next
        ensures { result ≡ next_of self }
    {
        match self {
            Task::Outside | Task::Runs => Next::GoOn,
            Task::Sends => Next::Send,
            Task::Arrived | Task::Waits | Task::Ready => Next::Sleep,
        }
    }

    /// What the task does after the turn.
    pub(crate) fn turned(self, turn: Turn) -> Task
        ensures { result ≡ turned turn self }
    {
        match (turn, self) {
            (Turn::Run, Task::Ready) => Task::Runs,
            (Turn::Send, Task::Arrived) => Task::Sends,
            (Turn::Wake, Task::Waits) => Task::Ready,
            (Turn::Leave, _) => Task::Outside,
            (_, task) => task,
        }
    }
}
