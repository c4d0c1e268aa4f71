//! The loader that threads share as a C library, but for its lock: your host has one of its own.
//!
//! Your host keeps its loader behind a [`Handle`](handle::Handle), and makes the calls of all callers on it, one at a time.
//! It keeps the outcomes itself, by the numbers of their cells. Each export has the clauses of the loader's own call, with
//! a code instead of an error. `c/dl_serial.h` at the top of the repository declares them for C.
#![tactic(auto)]

mod answers;
mod batches;
mod calls;
mod codes;
mod ends;
mod handle;
mod kept;
mod many;
mod openings;
mod reading;
