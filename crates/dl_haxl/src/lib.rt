//! Loads and terms as futures over the shared loader, and calls that evaluate terms (Haxl).
//!
//! A [`LoadFuture`] is the outcome of one load. A [`TermRun`] is the answer of a [`Term`]: a poll takes the term as far
//! as the tickets that you supplied allow, and then you see which keys it waits for. Poll them by hand or on an
//! executor of `futures`. No poll waits.
//!
//! [`run_inline`] and [`run_term`] evaluate a term in rounds. Each round loads the keys that the term waits for,
//! dispatches, and waits for the outcome of each load. `run_inline` fetches the dispatched jobs on your own thread, and
//! `run_term` sends them to fetch workers by a queue. [`take_steps`] takes the steps of a whole plan in this way.
#![tactic(auto)]

mod evaluator;
mod fault;
mod future;
mod handover;
mod inline;
mod outlet;
mod run;
mod stage;
mod step_answers;
mod steps;
mod ticket_outcomes;

pub use dl_terms::{Answer, EvalFault, Step, Term, laws};
pub use fault::{PollFault, RunFault};
pub use future::LoadFuture;
pub use handover::run_term;
pub use inline::run_inline;
pub use run::TermRun;
pub use step_answers::{StepAnswer, StepAnswers};
pub use steps::take_steps;
