//! How the loops of a program are run: a plan, with the numbers of workers and blocks and the test; the strategy that a
//! loop takes; the split of its iterations into blocks; what the least break says of a block; and a gate that workers
//! pass.
#![tactic(auto)]

mod gate;
mod least_break;
mod plan;
mod split;
mod strategy;

pub use gate::{Gate, NoGate};
pub use least_break::{is_late, lesser};
pub use plan::{Plan, Policy};
pub use split::{Split, SplitError};
pub use strategy::{BlocksReason, Strategy};
