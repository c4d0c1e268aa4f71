//! Laws of the rule, which hold whatever calls you make. Each function does nothing: its contract is the law, for your
//! proof.

ghost use Rattle.dl_gather.specs.Runs.{NothingStalls, SendsAreRounds};

/// In each state that calls can reach, if a task sleeps, somebody runs or sends, or a batch that went out has not
/// ended. While somebody sends, nobody runs.
pub fn nothing_stalls()
    ensures { NothingStalls }
{}

/// Requests that run side by side send no more often than one of them does alone: tasks that enter before the first
/// send, and arrive at most so often each, send at most so often together. By [`Rounds`](crate::Policy::Rounds) that
/// holds always, and by [`Eager`](crate::Policy::Eager) if the tasks of each send wake together.
pub fn sends_are_rounds()
    ensures { SendsAreRounds }
{}
