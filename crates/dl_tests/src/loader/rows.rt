//! The rows of calls, and the tests that make them.

mod closes;
mod loads;
mod refusals;
mod schedules;
