//! Splits of a loop's iterations into blocks.

ghost use Rattle.std.specs.Prelude.{◌≡◌, ◌<◌, ◌≤◌, ℕ, Bool, false, Some, None, IfOk, IfErr, OnOk};
ghost use Rattle.loop_core_model.specs.Split.{falls as falls_below, last_bound, ends_amiss, split_fault, even_bounds};
ghost use Rattle.loop_core_model.specs.Intervals.{blocks_of, start_of, end_of};

use arrayvec::ArrayVec;
use loop_core_model::MAX_BLOCKS;
pub use loop_core_model::SplitFault as SplitError;
use std::marker::Model;

/// A bound more than blocks.
const MAX_BOUNDS: usize = MAX_BLOCKS as usize + 1;

/// A split of a loop's iterations into 1 to 64 blocks, which may be empty. Contracts see its bounds: block
/// k goes from bound k up to, and not with, bound k + 1.
#[derive(Drop)]
pub struct Split {
    bounds: ArrayVec<u32, MAX_BOUNDS>,
}

impl Model for Split {
    ghost use Rattle.std.specs.Prelude.{◌≡◌, ℕ, List, None};
    ghost use Rattle.loop_core_split.specs.Splits.{IsSplit};

    ghost Value = { List ℕ };

    ghost view = { λ s. s.bounds.items };

    ghost invariant = { λ s. IsSplit s.bounds.items };
}

/// Whether a bound is below the one before.
fn falls(bounds: &[u32]) -> bool
    ensures { result ≡ falls_below 0 bounds.now }
{
    let mut before = 0;
    for bound in bounds {
        if *bound < before {
            return true;
        }
        before = *bound;
    }
    false
}

/// Whether the first bound isn't 0, or the last isn't n.
fn ends_elsewhere(bounds: &[u32], n: u32) -> bool
    ensures { result ≡ ends_amiss bounds.now n }
{
    match (bounds.first(), bounds.last()) {
        (Some(first), Some(last)) => *first != 0 || *last != n,
        _ => false,
    }
}

/// What is wrong with bounds as a split of n iterations: the least of its faults.
fn fault_of(bounds: &[u32], n: u32) -> Option<SplitError>
    ensures { result ≡ split_fault bounds.now n }
{
    if falls(bounds) {
        Some(SplitError::Falling)
    } else if bounds.len() < 2 || bounds.len() > MAX_BOUNDS {
        Some(SplitError::Number)
    } else if ends_elsewhere(bounds, n) {
        Some(SplitError::Ends)
    } else {
        None
    }
}

impl Split {
    /// An even split of n iterations: bound k is k * n / blocks, rounded down. It takes no memory.
    /// S2 (`Number`) where the blocks aren't 1 to 64; it has no other fault.
    pub fn even(n: u32, blocks: u32) -> Result<Split, SplitError>
        ensures ok { IfOk result (λ s. s ≡ even_bounds n blocks) }
        ensures split { OnOk result (split_fault (even_bounds n blocks) n ≡ None) }
        ensures err { IfErr result (λ e. split_fault (even_bounds n blocks) n ≡ Some e) }
    {
        if blocks == 0 || blocks > MAX_BLOCKS {
            return Err(SplitError::Number);
        }
        let mut bounds = ArrayVec::new();
        for k in 0..=blocks {
            bounds.push((u64::from(k) * u64::from(n) / u64::from(blocks)) as u32);
        }
        Ok(Split { bounds })
    }

    /// The split of n iterations by these bounds. It takes no memory.
    /// S1 (`Falling`) a bound below the one before, S2 (`Number`) fewer than 2 or more than 65 bounds, S3
    /// (`Ends`) the first isn't 0 or the last isn't n: the least of them.
    pub fn of(bounds: Vec<u32>, n: u32) -> Result<Split, SplitError>
        ensures ok { IfOk result (λ s. s ≡ bounds.items) }
        ensures split { OnOk result (split_fault bounds.items n ≡ None) }
        ensures err { IfErr result (λ e. split_fault bounds.items n ≡ Some e) }
    {
        if let Some(fault) = fault_of(&bounds, n) {
            return Err(fault);
        }
        let mut held = ArrayVec::new();
        let Ok(()) = held.try_extend_from_slice(&bounds) else {
            unreachable!()
        };
        Ok(Split { bounds: held })
    }

    /// The number of its blocks, 1 to 64.
    pub fn blocks(&self) -> u32
        ensures blocks { result ≡ blocks_of self.now }
        ensures some { 1 ≤ result }
        ensures most { result ≤ 64 }
    {
        (self.bounds.len() - 1) as u32
    }

    /// The first index of a block, 0 to the number of iterations. The block is one of its blocks.
    pub fn start(&self, block: u32) -> u32
        requires { block < blocks_of self.now }
        ensures start { result ≡ start_of self.now block }
        ensures order { result ≤ end_of self.now block }
    {
        self.bounds[block as usize]
    }

    /// The index after the last one of a block: the first one where the block is empty. The block is one
    /// of its blocks.
    pub fn end(&self, block: u32) -> u32
        requires { block < blocks_of self.now }
        ensures end { result ≡ end_of self.now block }
        ensures within { result ≤ last_bound 0 self.now }
    {
        self.bounds[block as usize + 1]
    }

    /// The number of iterations that it splits.
    pub fn iterations(&self) -> u32
        ensures last { result ≡ last_bound 0 self.now }
        ensures split { split_fault self.now result ≡ None }
    {
        self.bounds[self.bounds.len() - 1]
    }
}
