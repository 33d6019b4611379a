//! Runs accepted programs over array maps, and returns what came of their loops. Of the crates below all that a caller
//! needs is offered here.
//!
//! ```text
//! let program = verify(alloc, unit)?;                     // a loop of 8 iterations that adds its index
//! let mut maps = Maps::of(alloc, &[vec![in alloc; 5]?])?;
//! let plan = Plan { workers: 4, blocks: 16, test: Test::Flow, policy: Policy::Pays };
//! let report = run(&rt, alloc, &program, &mut maps, 0, &plan, &NoGate)?;
//! // report.ret is 8, its loop answered 8 in parallel, and maps.get(0, 0) is 5 + 0 + 1 + .. + 7
//! // with run_observed(.., &mut Stats::new(alloc, &rt)) also which way the loop went, and how long it took
//! ```
#![tactic(auto)]

mod by_plan;
mod freed_memory;
mod in_order;
mod observing;
mod program_in_order;
mod speculating;
mod stats;

pub use loop_core_model::{LoopReport, Test, Verdict};
pub use loop_core_split::{Gate, NoGate, Plan, Policy};
pub use observing::{Observer, Unobserved};
pub use program_in_order::run_in_order;
pub use spec_run_loop::{
    BlocksReason, LoopAnswer, LoopOutcome, LoopRun, RunError, SpeculativeLoop, Strategy, run_loop,
    work,
};
pub use spec_run_main::Report;
pub use speculating::{run, run_observed};
pub use stats::{LoopStats, Stats};
