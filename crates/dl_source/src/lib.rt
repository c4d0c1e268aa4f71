//! Sources, which answer the keys of a batch, and tables that you read from JSON and use as a source.
#![tactic(auto)]

mod checked;
mod fault;
mod fetch;
mod fetched;
mod listed;
mod source;
mod table_members;
mod table_number;
mod table_reader;
mod tables;
mod tree;

pub use checked::{Checked, Fetch};
pub use dl_values::BatchAnswer;
pub use fault::TableFault;
pub use fetch::fetch_job;
pub use fetched::Fetched;
pub use source::Source;
pub use table_number::TableNumber;
pub use table_reader::TEXT_BYTES;
pub use tables::{Finding, Tables};
