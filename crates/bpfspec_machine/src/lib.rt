//! Machines: a program that is loaded once, with its maps, and runs many times.
//!
//! ```text
//! let mut machine = load_text(alloc, b"maps 1\nmov64 r0, r1\nexit\n")?;
//! let answer = machine.run(7);            // 7
//! let word = machine.get(0, 0);           // Some(0)
//! ```
#![tactic(auto)]

mod load_error;
mod loading;
mod machine;

pub use bpf_insn::CodecFault;
pub use bpf_text_lex::TextFault;
pub use bpf_verify_model::Rule;
pub use load_error::LoadError;
pub use loading::{load_hex, load_insns, load_text};
pub use loop_core_model::{LoopReport, Verdict};
pub use machine::Machine;
