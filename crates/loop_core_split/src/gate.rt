//! Gates: what a test may put before the blocks and the iterations of a loop.

/// What a worker calls as it runs a loop. Each call returns, and gives the worker nothing: whatever a gate
/// does, the loop's outcome is the same.
pub trait Gate: Sync {
    /// A worker has claimed the block of this number, and looks next.
    fn begin(&self, block: u32);

    /// The iteration of this index is next.
    fn turn(&self, index: u32);
}

/// A gate that does nothing.
#[derive(Clone, Copy)]
pub struct NoGate;

impl Gate for NoGate {
    fn begin(&self, _block: u32) {}

    fn turn(&self, _index: u32) {}
}
