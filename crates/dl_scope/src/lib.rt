//! Serves plans at once, by one shared loader and fetch workers.
//!
//! [`serve`] starts a thread for each plan and for each worker. Each plan takes its steps in order. The shared loader
//! loads the keys that its terms wait for, and the workers fetch the batches. You get a [`Report`] of the answers and
//! the history, and the contract of `serve` says what they are evidence of, whatever the schedule was.
//!
//! The `drop` of a report is written out, since other crates own reports: so it has one proof, for each place that
//! drops one.
#![tactic(auto)]

mod fault;
pub mod laws;
mod report;
mod results;
mod scope;
mod setup;
mod threads;

pub use dl_haxl::StepAnswer;
pub use dl_loader::Policy;
pub use dl_terms::{MOST_PLANS, Plan, Step};
pub use fault::ScopeFault;
pub use report::Report;
pub use scope::{MOST_WORKERS, serve};
pub use setup::Setup;
