//! Keys, outcomes, jobs and limits: the values that every crate above passes around.
//!
//! A key is two texts, and a value is a JSON tree. A copy of a key, a value or a message shares what it copies and
//! allocates nothing (`try_copy`). Contracts see them as plain lists and trees.
#![tactic(auto)]

mod fault;
mod job;
mod joined_text;
mod json;
mod key;
mod limits;
mod list;
mod message;
mod outcome;
mod short_text;
mod table_limits;
mod text;

pub use fault::{KeyFault, LimitFault, TableLimitFault};
pub use job::Job;
pub use json::{Json, has_float};
pub use key::{FetchKey, ID_BYTES, Keys, TABLE_BYTES};
pub use limits::{LARGEST_LIMIT, Limits};
pub use list::List;
pub use message::Message;
pub use outcome::{BatchAnswer, BatchFault, Outcome, Outcomes};
pub use table_limits::{TableLimit, TableLimits};
pub use text::Text;
