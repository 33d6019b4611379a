//! The conflicts found in a loop.

use loop_core_model::Verdict;

/// The conflicts of a loop.
#[derive(Drop)]
pub struct Conflicts {
    /// The loop's verdict: `Parallel` where no element conflicts, else `Conflict` with their number and the least.
    pub verdict: Verdict,
    /// The index at which the loop breaks: the least whose iteration returns 1 on the start maps.
    pub broke: Option<u32>,
    /// The least of them, rising.
    pub least: Vec<u32>,
}
