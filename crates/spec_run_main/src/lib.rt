//! Runs main of an accepted program over array maps to its end. A runner runs and records its loop calls.
//!
//! ```text
//! let ret = run_main(&program, &mut maps, 0, &mut runner)?;  // its loop calls went to the runner, in order
//! ```
//!
//! In place, each loop runs in order and nothing is allocated:
//!
//! ```text
//! let mut lines = vec![in alloc; blank; program.count(0) as usize]?;
//! let ran = run_in_place(&program, &mut maps, 0, &mut lines);
//! // ran.ret is what it returned, and lines[..ran.calls] are its loop calls
//! ```
#![tactic(auto)]

mod driver;
mod in_place;
mod report;
mod runner;

pub use driver::run_main;
pub use in_place::{RanInPlace, run_in_place};
pub use report::Report;
pub use runner::LoopRunner;
