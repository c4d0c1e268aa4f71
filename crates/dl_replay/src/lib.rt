//! Histories that hosts wrote to files: what a file says, and its calls made again on a loader, whose history it gives if
//! each is answered as the file has it.
#![tactic(auto)]

mod answer;
mod fault;
mod file;
mod host_call;
mod reading;
mod replaying;
mod told;

pub use fault::{HistoryFault, ReplayFault, Wrong};
pub use file::history_in;
pub use replaying::replay;
pub use told::Told;
