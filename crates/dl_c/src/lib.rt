//! The desk as a C library: the loader of one thread, for a host in C or in a language that calls C.
//!
//! Your host keeps its desk behind a [`Handle`](handle::Handle), and keeps the outcomes itself, by the numbers of their
//! cells. Each export has the clauses of the desk's own call, with a code instead of an error. `c/dl_desk.h` at the top
//! of the repository declares them for C.
#![tactic(auto)]

mod answers;
mod batches;
mod calls;
mod codes;
mod handle;
mod kept_desk;
mod lives;
mod many;
