//! Fetch terms and their evaluator, as in Haxl: what a term answers from the outcomes that you have, and which keys it
//! waits for.
//!
//! A [`Term`] says what to load and how to go on from it. You make it into a [`Node`] by [`unexplored`] and call
//! [`explore`] once for each round of loads. That rewrites the node in place, until it is the term's [`Answer`]. The
//! crate loads nothing itself: between two rounds you load the keys of [`Asked::wanted`], and hand in their outcomes by
//! [`Asked::learn`].
#![tactic(auto)]

mod answer;
mod answer_value;
mod asked;
mod body;
mod exploration;
mod field;
mod joining;
pub mod laws;
mod member;
mod names;
mod node;
mod plan;
mod room;
mod target;
mod term;

pub use answer::{Answer, EvalFault};
pub use answer_value::AnswerValue;
pub use asked::Asked;
pub use exploration::explore;
pub use field::pick_value;
pub use names::Names;
pub use node::{Node, unexplored};
pub use plan::{MOST_PLANS, Plan, Step};
pub use room::Room;
pub use target::loaded;
pub use term::Term;
