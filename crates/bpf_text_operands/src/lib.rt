//! What one line of assembler text says: its mnemonic, its operands, and the instruction.
#![tactic(auto)]

mod building;
mod kind;
mod labels;
pub mod laws;
mod numbers;
mod operands;
mod statement;
mod stem;
mod tables;

pub use labels::{Label, Labels};
pub use statement::{line_slots, read_insn};
