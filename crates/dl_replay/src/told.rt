//! What a host says of a call.

/// What a host says of a call: who made it, and what it was answered, in numbers. For each key of a load or a prime these
/// are three: 1 if a cell begins with it and else 0; the cell; and the batch that the load joined. What there isn't is 0.
/// A dispatch answers the numbers of the batches that it sends. All other calls answer nothing.
#[derive(Debug, Drop)]
pub struct Told {
    pub caller: u32,
    pub answer: Vec<u32>,
}
