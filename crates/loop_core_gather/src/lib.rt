//! Blocks of a speculative loop, gathered: which of them count, their verdict on the loop, and its outcome.
#![tactic(auto)]

mod decision;
mod gathered;
mod gathering;
mod kept;
mod merged;
mod order;
mod outcome;
mod pages;
mod sharing;
mod storing;
mod touched;
mod workspace;

pub use decision::{Decision, LoopOutcome, LoopResult};
pub use gathered::Gathered;
pub use gathering::{GatherError, gather};
pub use loop_core_model::GatherFault;
pub use outcome::commit_or_rerun;
pub use storing::{LeftPage, store_pages};
