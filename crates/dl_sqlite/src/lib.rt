//! SQLite databases as a source: reads the rows of a database, once, into [`Tables`](dl_source::Tables).
//!
//! A key's table names a table of the database, and its id the row with that `id`. The outcome is the row as a JSON
//! object, by the names of its columns.
#![tactic(auto)]

mod fault;
mod file;
mod form;
mod header;
mod ids;
mod image;
mod read;
mod row;
mod rows;

pub use fault::DatabaseFault;
pub use file::read_file;
pub use image::read_image;
pub use read::{read_memory, read_tables};
