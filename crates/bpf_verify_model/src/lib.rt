//! The verifier's definitions: the abstract state of registers and frames before a slot, with the bytes
//! of a frame that are written; the rules that an instruction breaks by the abstract state; what flows
//! from it to later slots; which programs are accepted; and how many instructions a function takes at
//! most. They stand in `specs/`, and here the types that they speak of; the verifier's code is in the
//! crates above.
#![tactic(auto)]

mod abstract_value;
mod helper;
mod laws;
mod memory_access;
mod outflow;
mod registers;
mod rule;
mod state;
mod written;

pub use abstract_value::AbstractValue;
pub use helper::Helper;
pub use laws::{law_of_counts, worked_rules};
pub use memory_access::{AccessKind, MemoryAccess};
pub use outflow::{BranchStates, Edge, Outflow};
pub use registers::{Registers, reg};
pub use rule::Rule;
pub use state::State;
pub use written::WrittenBytes;
