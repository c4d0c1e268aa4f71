//! The server of the program `plans`, which answers the requests of one connection by HTTP/1.1 ([`serve_standard`]). A
//! request has a plan file, and its answer is a JSON text or a picture ([`Requests::reply_to`]).
#![tactic(auto)]

mod answer_json;
mod connection;
mod leave;
mod media;
mod page;
mod places;
mod refusals;
mod replies;
mod requests;
mod source;
mod standard;

pub use answer_json::report_json;
pub use refusals::{refusal_json, scope_fault_json};
pub use requests::Requests;
pub use source::{ListFault, listed_tables};
pub use standard::serve_standard;
