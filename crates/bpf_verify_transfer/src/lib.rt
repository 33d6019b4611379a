//! What flows from an instruction to later slots: the abstract state after it, and on each edge out of it.
#![tactic(auto)]

mod comparisons;
mod entries;
mod insn_effects;
mod outflows;

pub use entries::main_entry;
pub use insn_effects::state_after;
pub use outflows::flow;
