//! Documents of the program `plans`: what their bytes say, or why they are refused. [`read_input`] reads one.
#![tactic(auto)]

mod argument;
mod call;
mod document;
mod fault;
mod forms;
mod head;
mod input;
mod limits;
mod member;
mod number;
mod owned_value;
mod plan_files;
mod script_run;
mod scripts;
mod steps;
mod table_limits;
mod table_numbers;
mod terms;
mod top;
mod tree;

pub use dl_terms::MOST_PLANS;
pub use document::{MOST_BYTES, read_document, read_input, read_over_database};
pub use fault::PlanFault;
pub use input::{Calls, Input, PlanFile, Script};
pub use plan_files::{MOST_HEIGHT, MOST_STEPS};
pub use script_run::ScriptRun;
