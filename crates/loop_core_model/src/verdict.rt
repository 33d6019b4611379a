//! What is reported of a loop call.

/// How a loop call was carried out.
#[derive(Clone, Copy, Debug, PartialEq)]
pub enum Verdict {
    /// Its iterations ran in parallel and were committed.
    Parallel,
    /// This many elements conflicted, and this is the least; the loop ran in order.
    Conflict { count: u32, least: u32 },
    /// The call was refused with -22 or -7.
    Refused,
    /// The loop ran in order from the beginning.
    InOrder,
}

/// A loop call that main made.
#[derive(Clone, Copy, Debug, PartialEq)]
pub struct LoopReport {
    /// The slot of the call.
    pub slot: u32,
    /// What it answered: a number of iterations, -7 or -22.
    pub answer: i64,
    /// How it was carried out.
    pub verdict: Verdict,
}
