/// What a worker passes between a claim and its merge. It tells nothing, and it returns.
pub trait Gate {
    /// A worker passes with a claim: the worker's number, and how many claims it had before, both from 0.
    fn pass(&self, worker: u32, number: u64);
}

/// A gate that does nothing.
pub struct NoGate;

impl Gate for NoGate {
    fn pass(&self, _worker: u32, _number: u64) {}
}
