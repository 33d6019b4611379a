//! The edges out of a slot.

use crate::state::State;

/// An edge to a slot, and the abstract state on it.
#[derive(Clone, Copy)]
pub struct Edge {
    pub target: u32,
    pub state: State,
}

/// The edges out of a slot: ahead to the next slot, and aside to a jump's target or a callback's start.
#[derive(Clone, Copy)]
pub struct Outflow {
    pub ahead: Option<Edge>,
    pub aside: Option<Edge>,
}

/// The abstract states on both edges of a comparison, if they are followed: where it holds, and where it
/// doesn't.
#[derive(Clone, Copy)]
pub struct BranchStates {
    pub holds: Option<State>,
    pub fails: Option<State>,
}
