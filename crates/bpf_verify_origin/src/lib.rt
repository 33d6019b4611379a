//! What the verifier knows of a program: its first fault, the abstract state before each instruction up
//! to that fault, the state on each edge, and where the value of a register comes from. Laws state that all
//! this holds on each run of the machine up to that fault. They are for proofs alone.
//!
//! ```text
//! let inspection = inspect(alloc, unit)?;
//! let fault = inspection.fault();                   // Some(Fault { rule: Rule::AccessBounds, slot: 33 })
//! let state = inspection.state(33);                 // what is known before slot 33
//! let out = inspection.flow(33);                     // its edges: to slot 34, and none aside
//! let inflow = inspection.inflow(33);               // Inflow::One(32): all edges into it come from there
//! let source = inspection.source(33, reg(1));       // Source::Written(32): the instruction there wrote r1
//! ```
#![tactic(auto)]

mod fault;
mod finding;
mod inflow;
mod inflows;
mod inspecting;
mod inspection;
mod laws;
mod outflow;
mod source;
mod writing;

pub use fault::Fault;
pub use inflow::Inflow;
pub use inspecting::{copied, inspect};
pub use inspection::Inspection;
pub use laws::{law_of_run_steps, law_of_sources, law_of_states};
pub use outflow::state_to;
pub use source::Source;
