//! The edges out of an instruction.

ghost use Rattle.std.specs.Prelude.{◌≡◌, ◌≤◌, ◌+◌};
ghost use Rattle.bpf_insn_types.specs.{Slots.{slots_of}, Program.{moved}};
ghost use Rattle.bpf_verify_model.specs.Flow.{known_behind, flow};
ghost use Rattle.bpf_verify_model.specs.Flow.{edge_to, branch_outflow, jump_outflow, ahead_outflow, calls_back};

use crate::comparisons::branch_states;
use crate::entries::callback_entry;
use crate::insn_effects::state_after;
use bpf_insn_types::{Insn, slots};
use bpf_verify_model::{AbstractValue, BranchStates, Edge, Helper, Outflow, State, reg};
use bpf_verify_values::{helper_of, slot_beyond};

/// An edge to a slot, if it is followed.
fn edge_to(target: Option<u32>, state: Option<State>) -> Option<Edge>
    ensures { result ≡ edge_to target state }
{
    let (Some(target), Some(state)) = (target, state) else {
        return None;
    };
    Some(Edge { target, state })
}

/// The edges out of a comparison.
fn branch_outflow(slot: u32, offset: i16, ways: BranchStates) -> Outflow
    requires { slot ≤ 4096 }
    ensures { result ≡ branch_outflow slot offset ways }
{
    Outflow {
        ahead: edge_to(Some(slot + 1), ways.fails),
        aside: edge_to(slot_beyond(slot, offset as i32), ways.holds),
    }
}

/// A jump's one edge.
fn jump_outflow(slot: u32, distance: i32, state: &State) -> Outflow
    requires { slot ≤ 4096 }
    ensures { result ≡ jump_outflow slot distance state.now }
{
    Outflow {
        ahead: None,
        aside: edge_to(slot_beyond(slot, distance), Some(*state)),
    }
}

/// The edge to a loop's callback.
fn calls_back(state: &State, helper: Option<Helper>) -> Option<Edge>
    ensures { result ≡ calls_back state.now helper }
{
    match helper {
        Some(Helper::Loop) => match state.register(reg(2)) {
            AbstractValue::Code(target) => Some(Edge {
                target,
                state: callback_entry(state),
            }),
            _ => None,
        },
        _ => None,
    }
}

/// The edge ahead, past an instruction's slots.
fn ahead(sizes: &[u32], slot: u32, state: &State, insn: Insn) -> Option<Edge>
    requires { slot ≤ 4096 }
    ensures { result ≡ edge_to (Some (slot + slots_of insn)) (Some (known_behind sizes.now slot state.now insn)) }
{
    let mut after = *state;
    state_after(sizes, slot, &mut after, insn);
    Some(Edge {
        target: slot + slots(&insn),
        state: after,
    })
}

/// The edges out of an instruction at a slot, with the abstract state on each.
#[tactic(auto, unfolding(bpf_verify_model::specs::Flow::flow))]
pub fn flow(sizes: &[u32], slot: u32, state: &State, insn: Insn) -> Outflow
    requires { slot ≤ 4096 }
    ensures { result ≡ flow sizes.now slot state.now insn }
{
    match insn {
        Insn::Ja { offset } => jump_outflow(slot, offset as i32, state),
        Insn::Ja32 { imm } => jump_outflow(slot, imm, state),
        Insn::Jump {
            width,
            compare,
            dst,
            operand,
            offset,
        } => branch_outflow(
            slot,
            offset,
            branch_states(state, width, compare, dst, operand),
        ),
        Insn::Exit => Outflow {
            ahead: None,
            aside: None,
        },
        Insn::Call { callee, imm } => Outflow {
            ahead: ahead(sizes, slot, state, Insn::Call { callee, imm }),
            aside: calls_back(state, helper_of(callee, imm)),
        },
        other => Outflow {
            ahead: ahead(sizes, slot, state, other),
            aside: None,
        },
    }
}
