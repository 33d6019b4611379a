//! What operators make of the abstract values of registers, and the join of two abstract states; and what
//! rules and flow both ask of an instruction: its helper, the bytes of its access, the slots that it
//! names.
#![tactic(auto)]

mod helpers;
mod joining;
mod sizes;
mod targets;
mod values;

pub use helpers::helper_of;
pub use joining::join_states;
pub use sizes::{atomic_bytes, bytes_of};
pub use targets::{code_target, named_by, slot_beyond};
pub use values::{compares, is_number, is_unwritten, on_number, operand_value, result_of};
