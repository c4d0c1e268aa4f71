//! Rows of cells that threads set at most once, and read without a lock.
//!
//! You set a cell by [`CellRow::show`] and read it by [`CellRow::look`], both with a [`Reader`] of that cell. The
//! reader keeps what you have learned: once it knows the cell's value, it gives you that value for ever. Two readers of
//! one cell that know its value know the same one ([`Reader::agree`]). A [`ReadyCell`] is a cell that you looked up
//! before you set it.
//!
//! A [`Flag`] is such a cell without a value: all that you can learn of it is that somebody has raised it.
#![tactic(auto)]

mod flag;
mod learned;
mod reader;
mod ready;
mod row;
mod segment;

pub use flag::{Flag, Raised};
pub use reader::Reader;
pub use ready::ReadyCell;
pub use row::CellRow;
