//! What the workers of a loop do.

/// One atomic step of a worker.
#[derive(Clone, Copy, Debug, PartialEq)]
pub enum EventKind {
    /// Takes the next block.
    Claim,
    /// Reads the least break, and begins or skips the block.
    Look,
    /// Does an iteration.
    Turn,
    /// Posts a break.
    Post,
    /// Stops.
    Stop,
}

/// A step, and the worker that makes it.
#[derive(Clone, Copy, Debug, PartialEq)]
pub struct Event {
    /// What is done.
    pub kind: EventKind,
    /// The worker's number. Workers are 0 to 15; a list of events that names another is refused.
    pub worker: u8,
}
