//! When requests that run at once send the keys that they collected.
//!
//! A data loader gathers keys into few fetches. Among requests that run at once, each on a thread or as a future, that
//! takes a rule: *nobody's keys are sent while somebody runs*. Once all others have ended or wait, those that have made
//! their loads send together. A [`Gathering`] is that rule and nothing else: it holds no lock and no thread. Its caller
//! tells it what each task does, puts tasks to sleep and wakes them.
#![tactic(auto)]

mod gathering;
pub mod laws;
mod numbers;
mod task;
mod tasks;

pub use gathering::Gathering;
pub use task::{Next, Policy, Task};
