//! The crates below the shared loader: what no contract says of them. Documents and calls of the C libraries test keys,
//! limits, tables and terms from outside, also with refused growths.

mod bodies;
mod cells;
mod desk;
mod refused;
