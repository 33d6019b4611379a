//! Blocks of a speculative loop: the iterations of an interval, one after another, each on the loop's start words, and
//! what is kept of them.
#![tactic(auto)]

mod block;
mod block_run;
mod runner;
mod speculative_loop;
mod workspace;

pub use block::Block;
pub use block_run::run_block;
pub use runner::most_instructions;
pub use speculative_loop::SpeculativeLoop;
pub use workspace::BlockWorkspace;
