//! What a program did.

use loop_core_model::LoopReport;

/// What a program did.
#[derive(Drop)]
pub struct Report {
    /// The program's return value.
    pub ret: u64,
    /// Its loop calls, in order.
    pub loops: Vec<LoopReport>,
}
