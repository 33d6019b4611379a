//! Follows single iterations of a loop call, one operation after another, and finds the slots at which they access
//! an element and return. It is slow: a tool for explanations.
//!
//! ```text
//! let mut maps = start.try_copy(alloc)?;
//! let trace = trace_iteration(alloc, &program, &call, &mut maps, 3, 1)?;    // iteration 3, at element 1
//! // trace.slots.write is the slot of its first write of the element, where it writes it
//! ```
#![tactic(auto)]

mod following;
mod journal;
mod slots;
mod touch;

pub use following::{Trace, trace_iteration};
pub use slots::{FirstReduce, Slots};
