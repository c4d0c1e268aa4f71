//! Pictures of what requests did, as SVG: the rounds of plans, their batches and their hits; traces of it, as JSON; and
//! the numbers of a history.
//!
//! [`history_picture`] draws what serving plans left, or a history without plans, and [`script_picture`] draws the calls of
//! a script with their answers. At the head of a picture are its numbers; [`history_numbers`] and [`plan_numbers`] give
//! you those of any history. [`history_trace`] and [`script_trace`] write the same as traces.
//!
//! The label of a loop is its name in `proofs/`.
#![tactic(auto)]

mod asked;
mod asking;
mod batches;
mod cells;
mod column;
mod cut_text;
mod drawing;
mod faults;
mod folded;
mod head;
mod history;
mod joins;
mod json_text;
mod knowledge;
mod lanes;
mod lines;
mod loads;
mod mark;
mod numbers;
mod origin;
mod origins;
mod parts;
mod phrase;
mod script;
mod seeking;
mod sheet;
mod style;
mod tally;
mod terms;
mod trace;
mod trace_event;
mod xml;

pub use asked::loads_asked;
pub use batches::{BatchNumbers, Mean};
pub use history::history_picture;
pub use json_text::{key_text, keys_text, quoted_text};
pub use loads::LoadNumbers;
pub use numbers::{HistoryNumbers, PlanNumbers, history_numbers, plan_numbers};
pub use origin::{Met, Origin, PathStep};
pub use origins::fault_origins;
pub use script::script_picture;
pub use sheet::Sheet;
pub use terms::terms_of;
pub use trace::{history_trace, script_trace};
