//! The abstract state before each slot, as far as a pass has come.

ghost use Rattle.std.specs.Prelude.{◌≡◌, ℕ, ◌+◌, ◌<◌, ◌++◌, ◌∷◌, [], length, slice_index_or, Some, None, IfOk, IfErr};
ghost use Rattle.std.specs.Prelude.{OnOk};
ghost use Rattle.bpf_insn_types.specs.Slots.{slots_of};
ghost use Rattle.bpf_verify_model.specs.Flow.{known_behind, ahead_outflow, flow};
ghost use Rattle.bpf_verify_model.specs.Inflow.{joined_with, received, received_all};
ghost use Rattle.bpf_verify.specs.Passing.{out_of, IsEntryTable};

use crate::error::VerifyError;
use bpf_insn_types::{Insn, slots};
use bpf_verify_model::{Edge, Outflow, State};
use bpf_verify_transfer::{flow, main_entry, state_after};
use bpf_verify_values::join_states;
use std::alloc::Global;

/// By a slice of one: the borrow checker has no plan yet for a push of a struct within an enum.
fn add_state(table: &mut Vec<Option<State>>, state: Option<State>) -> Result<(), VerifyError>
    ensures ok { OnOk result (table.new.items ≡ table.old.items ++ state ∷ []) }
    ensures err { IfErr result (λ e. e ≡ VerifyError.Memory) }
{
    Ok(table.extend_from_slice(&[state])?)
}

/// The abstract state before each slot where nothing flowed yet.
pub(crate) fn first_table(alloc: Global, count: u32) -> Result<Vec<Option<State>>, VerifyError>
    requires { 0 < count }
    ensures ok { IfOk result (λ table. IsEntryTable count table.items) }
    ensures err { IfErr result (λ e. e ≡ VerifyError.Memory) }
{
    let mut table = Vec::new(alloc);
    add_state(&mut table, Some(main_entry()))?;
    for slot in 1..count {
        add_state(&mut table, None)?;
    }
    Ok(table)
}

/// The abstract state before a slot.
pub(crate) fn known(table: &Vec<Option<State>>, slot: u32) -> Option<State>
    requires { slot < length table.now.items }
    ensures { result ≡ slice_index_or table.now.items slot None }
{
    let states = table.as_slice();
    states[slot as usize]
}

/// One more edge comes in.
fn join_before(before: &mut Option<State>, state: &State)
    ensures { before.new ≡ joined_with before.old state.now }
{
    match before {
        None => *before = Some(*state),
        Some(known) => join_states(known, state),
    }
}

/// One more edge leads to a slot.
fn receive_at(table: &mut Vec<Option<State>>, target: u32, state: &State)
    ensures size { length table.new.items ≡ length table.old.items }
    ensures received { (slot : ℕ) → slot < length table.old.items
        → slice_index_or table.new.items slot None ≡ received slot (slice_index_or table.old.items slot None)
        (Some (record { target = target; state = state.now })) }
{
    let at = target as usize;
    if at < table.len() {
        join_before(&mut table[at], state);
    }
}

/// One more edge comes in, if it is followed.
fn join_edge(table: &mut Vec<Option<State>>, edge: &Option<Edge>)
    ensures size { length table.new.items ≡ length table.old.items }
    ensures received { (slot : ℕ) → slot < length table.old.items
        → slice_index_or table.new.items slot None ≡ received slot (slice_index_or table.old.items slot None) edge.now }
{
    match edge {
        None => {}
        Some(edge) => receive_at(table, edge.target, &edge.state),
    }
}

/// Both edges out come in.
fn receive_both(table: &mut Vec<Option<State>>, out: &Outflow)
    ensures size { length table.new.items ≡ length table.old.items }
    ensures received { (slot : ℕ) → slot < length table.old.items
        → slice_index_or table.new.items slot None ≡ received_all slot (slice_index_or table.old.items slot None)
        out.now }
{
    join_edge(table, &out.ahead);
    join_edge(table, &out.aside);
}

/// Hands on the abstract state after an instruction that doesn't jump: it is changed in place.
fn hand_ahead(
    table: &mut Vec<Option<State>>,
    sizes: &[u32],
    slot: u32,
    state: &mut State,
    insn: Insn,
)
    requires { slot < 4096 }
    ensures size { length table.new.items ≡ length table.old.items }
    ensures received { (t : ℕ) → t < length table.old.items
        → slice_index_or table.new.items t None
        ≡ received_all t (slice_index_or table.old.items t None) (ahead_outflow (slot + slots_of insn)
        (known_behind sizes.now slot state.old insn)) }
{
    state_after(sizes, slot, state, insn);
    receive_at(table, slot + slots(&insn), state);
}

/// Hands on the abstract state before an instruction that breaks no rule, to the slots that it leads to.
#[tactic(auto, unfolding(bpf_verify_model::specs::Flow::flow))]
fn propagate(
    table: &mut Vec<Option<State>>,
    sizes: &[u32],
    slot: u32,
    state: &mut State,
    insn: Insn,
)
    requires { slot < 4096 }
    ensures size { length table.new.items ≡ length table.old.items }
    ensures received { (t : ℕ) → t < length table.old.items
        → slice_index_or table.new.items t None ≡ received_all t (slice_index_or table.old.items t None)
        (flow sizes.now slot state.old insn) }
{
    match insn {
        Insn::Ja { offset } => receive_both(table, &flow(sizes, slot, state, Insn::Ja { offset })),
        Insn::Ja32 { imm } => receive_both(table, &flow(sizes, slot, state, Insn::Ja32 { imm })),
        Insn::Jump {
            width,
            compare,
            dst,
            operand,
            offset,
        } => {
            let jump = Insn::Jump {
                width,
                compare,
                dst,
                operand,
                offset,
            };
            receive_both(table, &flow(sizes, slot, state, jump));
        }
        Insn::Call { callee, imm } => {
            let call = Insn::Call { callee, imm };
            receive_both(table, &flow(sizes, slot, state, call));
        }
        Insn::Exit => {}
        other => hand_ahead(table, sizes, slot, state, other),
    }
}

/// The same, if the instruction is reached.
pub(crate) fn propagate_reached(
    table: &mut Vec<Option<State>>,
    sizes: &[u32],
    slot: u32,
    before: &mut Option<State>,
    insn: Insn,
)
    requires { slot < 4096 }
    ensures size { length table.new.items ≡ length table.old.items }
    ensures received { (t : ℕ) → t < length table.old.items
        → slice_index_or table.new.items t None ≡ received_all t (slice_index_or table.old.items t None)
        (out_of sizes.now slot insn before.old) }
{
    match before {
        None => {}
        Some(state) => propagate(table, sizes, slot, state, insn),
    }
}
