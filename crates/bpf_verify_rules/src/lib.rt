//! The rules that an instruction breaks, by the abstract state of registers and frames before it. What each
//! rule says is in `bpf_verify_model`; the rules on the slot of an instruction (V3 to V6) need its
//! function, and are in `bpf_verify`.
#![tactic(auto)]

mod access;
mod insn_rules;
mod places;
mod state_rules;

pub use insn_rules::{callback_fault, goes_on, insn_fault, is_code_load, jump_distance};
pub use state_rules::{exit_fault, or_else, state_fault};
