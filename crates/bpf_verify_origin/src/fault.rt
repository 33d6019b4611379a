//! The first fault of a program.

use bpf_verify_model::Rule;

/// The first fault of a program: the least slot at which a rule is broken, and there the least number.
#[derive(Clone, Copy, Debug, PartialEq)]
pub struct Fault {
    /// The rule that is broken.
    pub rule: Rule,
    /// The slot, counted from 0.
    pub slot: u32,
}
