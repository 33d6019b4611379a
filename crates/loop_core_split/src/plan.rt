//! How the loops of a program are run.

ghost use Rattle.std.specs.Prelude.{◌↔◌, IsTrue};
ghost use Rattle.loop_core_split.specs.Plans.{IsPlan};

use loop_core_model::{MAX_BLOCKS, MAX_WORKERS, Test};

/// How a run chooses the way that each of its loops goes.
#[derive(Clone, Copy, Debug)]
pub enum Policy {
    /// The way that pays, by an estimate of the loop's work: no more workers and blocks than are worth it.
    Pays,
    /// By blocks: on private copies, over all blocks and by all workers of the plan, each in a thread of its own,
    /// whatever it costs.
    Blocks,
}

/// How the loops of a program are run.
#[derive(Clone, Copy, Debug)]
pub struct Plan {
    /// The number of workers, 1 to 16.
    pub workers: u32,
    /// The number of blocks, 1 to 64, into which each loop is split evenly.
    pub blocks: u32,
    /// The test by which a loop passes.
    pub test: Test,
    /// How the way of each loop is chosen.
    pub policy: Policy,
}

impl Plan {
    /// Whether the numbers of workers and of blocks are within their limits.
    pub fn is_within_limits(&self) -> bool
        ensures { IsTrue result ↔ IsPlan self.now }
    {
        (1..=MAX_WORKERS).contains(&self.workers) && (1..=MAX_BLOCKS).contains(&self.blocks)
    }
}
