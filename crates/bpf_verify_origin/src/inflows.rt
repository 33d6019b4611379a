//! Where the edges into each slot come from: a table, made in one pass.

ghost use Rattle.std.specs.Prelude.{◌≡◌, ℕ, ◌<◌, ◌≤◌, true, length, replicate, slice_index_or, IfOk};
ghost use Rattle.bpf_insn_types.specs.Program.{slot_count};
ghost use Rattle.bpf_verify.specs.States.{AreStatesBefore};
ghost use Rattle.bpf_verify_origin.specs.declared.inflow.Inflow.TheVariants.{Nowhere};
ghost use Rattle.bpf_verify_origin.specs.Edges.{edge_leads, with_edge, passed_slots};
ghost use Rattle.bpf_verify_origin.specs.Inspected.{AreInflows, AreInsns};

use crate::finding::insn_in;
use crate::inflow::Inflow;
use crate::outflow::{outflow, state_in};
use bpf_insn_types::{Insn, Unit};
use bpf_verify_model::{Edge, State};
use std::alloc::{AllocError, Global};

/// Where the edges into a slot come from, of those into all slots.
pub(crate) fn inflow_in(table: &[Inflow], slot: u32) -> Inflow
    ensures { result ≡ slice_index_or table.now slot Nowhere }
{
    table.get(slot as usize).copied().unwrap_or(Inflow::Nowhere)
}

/// No edge leads to any slot.
fn no_inflows(alloc: Global, count: u32) -> Result<Vec<Inflow>, AllocError>
    ensures { IfOk result (λ table. table.items ≡ replicate count Nowhere) }
{
    Ok(vec![in alloc; Inflow::Nowhere; count as usize]?)
}

/// One more edge from a slot leads there.
fn add_edge(inflow: &mut Inflow, from: u32)
    ensures { inflow.new ≡ with_edge true from inflow.old }
{
    match *inflow {
        Inflow::Nowhere => *inflow = Inflow::One(from),
        Inflow::One(other) => if other != from {
            *inflow = Inflow::Several;
        },
        Inflow::Several => {}
    }
}

/// One more edge from a slot, if it is followed.
fn mark(table: &mut Vec<Inflow>, from: u32, edge: &Option<Edge>)
    ensures size { length table.new.items ≡ length table.old.items }
    ensures marked { (slot : ℕ) → slot < length table.old.items
        → slice_index_or table.new.items slot Nowhere
        ≡ with_edge (edge_leads slot edge.now) from (slice_index_or table.old.items slot Nowhere) }
{
    let Some(edge) = edge else {
        return;
    };
    let target = edge.target as usize;
    if target < table.len() {
        add_edge(&mut table[target], from);
    }
}

/// Where the edges into each slot of a unit come from, of those out of the slots before the first fault: by the
/// instructions at all slots, and the abstract states before them.
pub(crate) fn inflows(
    alloc: Global,
    unit: &Unit,
    by_slot: &[Option<Insn>],
    states: &[Option<State>],
    count: u32,
    passed: u32,
) -> Result<Vec<Inflow>, AllocError>
    requires slots { slot_count unit.now.insns ≡ count }
    requires few { count ≤ 4096 }
    requires passed { passed_slots unit.now ≡ passed }
    requires insns { AreInsns unit.now.insns by_slot.now }
    requires states { AreStatesBefore unit.now passed states.now }
    ensures { IfOk result (λ table. AreInflows unit.now table.items) }
{
    let mut table = no_inflows(alloc, count)?;
    for slot in 0..passed {
        let before = state_in(states, slot);
        let out = outflow(&unit.sizes, slot, insn_in(by_slot, slot), &before);
        mark(&mut table, slot, &out.ahead);
        mark(&mut table, slot, &out.aside);
    }
    Ok(table)
}
