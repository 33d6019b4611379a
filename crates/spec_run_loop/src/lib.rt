//! A loop call by its plan: one function chooses its strategy.
//!
//! A loop that adds up does nothing to the maps but reduce elements by one operator: each worker adds up a share of it
//! apart from the maps (`ReductionLoop`), round by round where it may break. Other loops of little work are run in order
//! first, and watched, where it isn't known that they never conflict (`is_independent`). All others are run by blocks on
//! private copies, by workers over one board; what they ran is gathered, and committed, or the loop is run in order.
//!
//! ```text
//! let of = ReductionLoop::of(program, call)?;                  // each access is `lock add64 [..], ..`
//! let mut sums = of.try_new_sums(alloc, 2)?;
//! let round = Round { from: 0, to: 1000, shares: 2 };
//! of.run_share(&mut sums[0], &round, 0);                 // iterations 0 to 499, by one thread
//! of.run_share(&mut sums[1], &round, 1);                 // 500 to 999, by another
//! of.add_up(&sums, maps)                                 // as these 1000 iterations in order
//! ```
#![tactic(auto)]

mod adding;
mod by_blocks;
mod cost_model;
mod decision;
mod dispatch;
mod error;
mod function_end;
mod identity;
mod job;
mod partial_reduction;
mod prediction;
mod range_sums;
mod reducing;
mod reduction_loop;
mod round;
mod strategy;
mod summable;
mod summing;
mod watching;

ghost use Rattle.spec_run_loop.specs.SumLaw.{SumsReduceAlone};

pub use decision::LoopAnswer;
pub use dispatch::{LoopRun, run_by_plan, run_loop};
pub use error::RunError;
pub use job::LoopJob;
pub use loop_core_block::SpeculativeLoop;
pub use loop_core_gather::LoopOutcome;
pub use loop_core_split::{BlocksReason, Strategy};
pub use partial_reduction::PartialReduction;
pub use prediction::predict_strategy;
pub use reduction_loop::ReductionLoop;
pub use round::Round;
pub use spec_run_workers::{Workspace, work};

/// The law of sums: whatever runs through operations that add up by an operator makes reduces by it alone, on
/// whatever words. Nothing runs here: the contract is the law.
pub fn law_of_sum_operations()
    ensures { SumsReduceAlone }
{}
