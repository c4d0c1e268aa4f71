//! Gates, which hear of a worker's steps.

/// Hears of each step of a worker, on the worker's own thread and while it has no lock. With a gate of yours you can
/// hold a worker in a test, or measure it.
pub trait Gate {
    /// Comes before the worker asks the source for the job of this batch.
    fn before_fetch(&self, batch: u32);

    /// Comes once this batch has ended, settled or failed.
    fn after_settle(&self, batch: u32);
}

/// A gate that does nothing, at no cost.
#[derive(Clone, Copy, Debug)]
pub struct NoGate;

impl Gate for NoGate {
    fn before_fetch(&self, _batch: u32) {}

    fn after_settle(&self, _batch: u32) {}
}
