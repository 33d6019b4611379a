//! What flows from a slot.

ghost use Rattle.std.specs.Prelude.{◌≡◌, ◌≤◌, slice_index_or, None};
ghost use Rattle.bpf_verify_model.specs.Inflow.{no_edges, received, received_all};
ghost use Rattle.bpf_verify_origin.specs.Edges.{flow_of};

use bpf_insn_types::Insn;
use bpf_verify_model::{Edge, Outflow, State};
use bpf_verify_transfer::flow;
use bpf_verify_values::join_states;

/// The abstract state before a slot, of those before all slots.
pub(crate) fn state_in(states: &[Option<State>], slot: u32) -> Option<State>
    ensures { result ≡ slice_index_or states.now slot None }
{
    states.get(slot as usize).copied().unwrap_or(None)
}

/// No edges.
pub(crate) fn no_outflow() -> Outflow
    ensures { result ≡ no_edges }
{
    Outflow {
        ahead: None,
        aside: None,
    }
}

/// The edges out of a slot, if an instruction starts there and is reached.
pub(crate) fn outflow(
    sizes: &[u32],
    slot: u32,
    insn: Option<Insn>,
    before: &Option<State>,
) -> Outflow
    requires { slot ≤ 4096 }
    ensures { result ≡ flow_of sizes.now slot insn before.now }
{
    let Some(insn) = insn else {
        return no_outflow();
    };
    match before {
        None => no_outflow(),
        Some(state) => flow(sizes, slot, state, insn),
    }
}

/// What is known before a slot, with one edge more, where it leads there.
fn received(slot: u32, before: Option<State>, edge: &Option<Edge>) -> Option<State>
    ensures { result ≡ received slot before edge.now }
{
    let Some(edge) = edge else {
        return before;
    };
    if edge.target != slot {
        return before;
    }
    let Some(mut known) = before else {
        return Some(edge.state);
    };
    join_states(&mut known, &edge.state);
    Some(known)
}

/// The abstract state on those edges that lead to a slot: the join of both, where both do; None where none does.
pub fn state_to(slot: u32, out: &Outflow) -> Option<State>
    ensures { result ≡ received_all slot None out.now }
{
    received(slot, received(slot, None, &out.ahead), &out.aside)
}
