//! The parts of the program `plans`: its command line; what a document gives, over a reader and a writer ([`run`]); the
//! texts of scripts and reports; the files of pictures and traces; histories of hosts; migration; and the lines and statuses
//! of failures.
#![tactic(auto)]

mod answer_lines;
mod batch_lines;
mod command;
mod document;
mod explanation_lines;
mod explanations;
mod fault;
mod front;
mod history;
mod invocation;
mod joined_tables;
pub mod laws;
mod migration;
mod picture;
mod reply_lines;
mod report;
mod request;
mod script_text;
mod settings;
mod statistics;
mod status;
mod streams;
mod table_names;
mod whole_file;

pub use command::options;
pub use dl_desk::DeskCall;
pub use dl_documents::{Calls, Input, MOST_BYTES, PlanFault, PlanFile, Script, read_input};
pub use dl_migration::{MigrateFault, Target, migrate};
pub use document::run;
pub use fault::RunError;
pub use history::run_history;
pub use invocation::{asked, told};
pub use migration::run_migrate;
pub use report::report_text;
pub use request::{RequestFault, draw_request, serve_request};
pub use script_text::run_script;
pub use settings::Options;
pub use streams::write_all;

/// How many jobs the queue between plans and workers holds, if the program serves a plan file.
pub const QUEUE_PLACES: u32 = 16;
