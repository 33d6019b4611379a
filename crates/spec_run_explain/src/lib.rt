//! Runs accepted programs in order, and reports for each loop what becomes of it if it runs in parallel, which way
//! `run` takes it, and why it conflicts or is refused.
//!
//! ```text
//! let explained = explain_loops(alloc, &program, &mut maps, 0, Test::Flow, 64, false)?;
//! // explained.report is the report of the program, and explained.loops[0].causes[0].witness.writer.index an iteration
//! // that writes the least element that conflicts
//! ```
#![tactic(auto)]

mod call;
mod conflicts;
mod driver;
mod finding;
mod listing;
mod showing;
mod surveying;

pub use driver::explain_loops;
pub use loop_core_witness::{Cause, Explained, LoopExplained};
