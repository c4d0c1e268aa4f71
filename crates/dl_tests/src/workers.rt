//! The job queue and the fetch workers of `dl_workers`: worked rows of calls on one thread, exchanges of
//! jobs between many threads, and a worker that ends the jobs of a caller.

mod exchanges;
mod queue;
mod work;
