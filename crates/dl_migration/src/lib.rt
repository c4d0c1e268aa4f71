//! Writes plan files in a later version.
#![tactic(auto)]

mod fault;
mod migration;
mod target;

pub use fault::MigrateFault;
pub use migration::migrate;
pub use target::Target;
