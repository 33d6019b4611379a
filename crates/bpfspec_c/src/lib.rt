//! The library for C: handles that own machines. `include/bpfspec.h` declares its calls, and docs/C_LIBRARY.md says
//! what each is for. A handle is moved, and no two calls have it at once.
#![tactic(auto)]

mod calls;
mod held;
mod loaded;
mod loop_line;
mod loose;
mod options;
mod printing;
mod refusal;
mod statuses;

pub use calls::{
    bpfspec_count, bpfspec_free, bpfspec_get, bpfspec_load, bpfspec_load_hex, bpfspec_load_insns,
    bpfspec_report, bpfspec_run, bpfspec_run_each, bpfspec_set, bpfspec_set_words, bpfspec_size,
    bpfspec_version, bpfspec_words,
};
pub use loaded::Loaded;
pub use loop_line::LoopLine;
pub use options::Options;
pub use printing::{bpfspec_facts, bpfspec_verify, bpfspec_verify_hex};
pub use refusal::Refusal;
