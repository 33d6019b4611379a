//! The pass over a program's instructions: the abstract state before each, its operation, and the first
//! fault.

ghost use Rattle.std.specs.Prelude.{◌≡◌, ℕ, ◌+◌, ◌<◌, ◌≤◌, ◌++◌, ◌∷◌, [], length, nat_eq, slice_set, IfOk, IfErr, OnOk};
ghost use Rattle.std.specs.List.{list_any};
ghost use Rattle.bpf_insn_types.specs.{Limits.{AreSizes}, Program.{slot_count, insn_at, function_of, leads_to}};
ghost use Rattle.bpf_verify_model.specs.Rules.{leads_later, jumps_astray, falls_off, starts, names_none, targets_in};
ghost use Rattle.bpf_verify_model.specs.Rules.{with_target, slot_fault, reached, state_fault, exit_fault, fault_of};
ghost use Rattle.bpf_verify_model.specs.Accepted.{fault_within};
ghost use Rattle.bpf_step_ir.specs.Translation.{op_at, AreOps};
ghost use Rattle.bpf_verify.specs.Layout.{IsLayout, function_starting_at};
ghost use Rattle.bpf_verify.specs.Passing.{program_of, InsnStartsAt, Passed, IsFault};

use crate::error::VerifyError;
use crate::layout::Layout;
use crate::operations::{no_ops, put_op};
use crate::table::{first_table, known, propagate_reached};
use bpf_insn_types::{Insn, slots};
use bpf_step_ir::IrOp;
use bpf_verify_model::{Rule, State};
use bpf_verify_rules::{
    callback_fault, exit_fault, goes_on, insn_fault, is_code_load, jump_distance, or_else,
    state_fault,
};
use bpf_verify_values::{named_by, slot_beyond};
use std::alloc::Global;

/// A program with its layout.
#[derive(Clone, Copy)]
pub struct Code<'a> {
    pub sizes: &'a [u32],
    pub insns: &'a [Insn],
    pub layout: &'a Layout,
}

/// The function of the instruction at a slot, if one starts there.
fn place(code: &Code, slot: u32) -> Option<u32>
    requires { IsLayout code.now.insns.now code.now.layout.now }
    ensures { result ≡ function_starting_at code.now.insns.now slot }
{
    match code.layout.places.get(slot as usize) {
        None => None,
        Some(place) => *place,
    }
}

/// The function of an instruction.
fn function_at(code: &Code, slot: u32) -> u32
    requires { InsnStartsAt code.now.insns.now code.now.layout.now slot }
    ensures { result ≡ function_of code.now.insns.now slot }
{
    match place(code, slot) {
        None => unreachable!(),
        Some(function) => function,
    }
}

/// Whether an instruction of the same function starts at another slot.
fn leads_to(code: &Code, slot: u32, target: u32) -> bool
    requires { InsnStartsAt code.now.insns.now code.now.layout.now slot }
    ensures { result ≡ leads_to code.now.insns.now slot target }
{
    match place(code, target) {
        None => false,
        Some(function) => function_at(code, slot) == function,
    }
}

/// A later slot, where an instruction of the same function starts.
fn leads_later(code: &Code, slot: u32, target: Option<u32>) -> bool
    requires { InsnStartsAt code.now.insns.now code.now.layout.now slot }
    ensures { result ≡ leads_later code.now.insns.now slot target }
{
    match target {
        None => false,
        Some(target) => slot < target && leads_to(code, slot, target),
    }
}

/// V3: a jump's target isn't a later slot where an instruction of the same function starts.
fn jumps_astray(code: &Code, slot: u32, insn: Insn) -> bool
    requires { InsnStartsAt code.now.insns.now code.now.layout.now slot }
    ensures { result ≡ jumps_astray code.now.insns.now slot insn }
{
    match jump_distance(insn) {
        None => false,
        Some(distance) => !leads_later(code, slot, slot_beyond(slot, distance)),
    }
}

/// V4: it goes on, but no instruction of the same function follows.
fn falls_off(code: &Code, slot: u32, insn: &Insn) -> bool
    requires { InsnStartsAt code.now.insns.now code.now.layout.now slot }
    ensures { result ≡ falls_off code.now.insns.now slot insn.now }
{
    goes_on(*insn) && !leads_to(code, slot, slot + slots(insn))
}

/// Whether an instruction starts at a slot.
fn starts(code: &Code, slot: Option<u32>) -> bool
    requires { IsLayout code.now.insns.now code.now.layout.now }
    ensures { result ≡ starts code.now.insns.now slot }
{
    match slot {
        None => false,
        Some(slot) => place(code, slot).is_some(),
    }
}

/// V5: a code address's target isn't the first slot of an instruction past the load.
fn names_none(code: &Code, slot: u32, insn: &Insn) -> bool
    requires { InsnStartsAt code.now.insns.now code.now.layout.now slot }
    ensures { result ≡ names_none code.now.insns.now slot insn.now }
{
    is_code_load(*insn) && !starts(code, named_by(slot, *insn))
}

/// The least of V3 to V6; n targets are named up to this slot.
#[tactic(auto, unfolding(bpf_verify_model::specs::Rules::slot_fault))]
fn slot_fault(code: &Code, slot: u32, insn: &Insn, targets: usize) -> Option<Rule>
    requires stands { InsnStartsAt code.now.insns.now code.now.layout.now slot }
    requires targets { targets ≡ length (targets_in code.now.insns.now (slot + 1)) }
    ensures { result ≡ slot_fault code.now.insns.now slot insn.now }
{
    let astray = jumps_astray(code, slot, *insn);
    let off = falls_off(code, slot, insn);
    let none = names_none(code, slot, insn);
    if astray {
        Some(Rule::JumpTarget)
    } else if off {
        Some(Rule::FallThrough)
    } else if none {
        Some(Rule::CodeTarget)
    } else if targets > 15 {
        Some(Rule::TooManyCallbacks)
    } else {
        None
    }
}

fn reached_fault(sizes: &[u32], before: &Option<State>, insn: &Insn) -> Option<Rule>
    ensures { result ≡ reached (λ state. state_fault sizes.now state insn.now) before.now }
{
    match before {
        None => None,
        Some(state) => state_fault(sizes, state, insn),
    }
}

fn reached_exit_fault(function: u32, before: &Option<State>, insn: &Insn) -> Option<Rule>
    ensures { result ≡ reached (λ state. exit_fault function state insn.now) before.now }
{
    match before {
        None => None,
        Some(state) => exit_fault(function, state, *insn),
    }
}

/// The least rule that an instruction breaks at a slot; n targets are named up to this slot.
#[tactic(auto, unfolding(bpf_verify_model::specs::Rules::fault_of))]
fn fault_of(
    code: &Code,
    slot: u32,
    insn: &Insn,
    targets: usize,
    before: &Option<State>,
) -> Option<Rule>
    requires stands { InsnStartsAt code.now.insns.now code.now.layout.now slot }
    requires targets { targets ≡ length (targets_in code.now.insns.now (slot + 1)) }
    ensures { result ≡ fault_of (program_of code.now) slot insn.now before.now }
{
    let sizes = code.sizes;
    let function = function_at(code, slot);
    let slot_rule = slot_fault(code, slot, insn, targets);
    let insn_rule = insn_fault(sizes, insn);
    let state_rule = reached_fault(sizes, before, insn);
    let callback_rule = callback_fault(function, *insn);
    let exit_rule = reached_exit_fault(function, before, insn);
    or_else(
        slot_rule,
        or_else(
            insn_rule,
            or_else(state_rule, or_else(callback_rule, exit_rule)),
        ),
    )
}

fn is_among(targets: &[u32], target: u32) -> bool
    ensures { result ≡ list_any (nat_eq target) targets.now }
{
    targets.iter().any(|known| target == *known)
}

/// A target, if it is a new one.
fn add_target(targets: &mut Vec<u32>, target: Option<u32>) -> Result<(), VerifyError>
    ensures ok { OnOk result (targets.new.items ≡ with_target targets.old.items target) }
    ensures err { IfErr result (λ e. e ≡ VerifyError.Memory) }
{
    let Some(target) = target else {
        return Ok(());
    };
    if is_among(targets, target) {
        return Ok(());
    }
    Ok(targets.push(target)?)
}

/// Passes over one instruction.
fn visit(
    code: &Code,
    slot: u32,
    insn: &Insn,
    targets: &mut Vec<u32>,
    table: &mut Vec<Option<State>>,
    ops: &mut Vec<IrOp>,
) -> Result<(), VerifyError>
    requires sizes { AreSizes code.now.sizes.now }
    requires stands { InsnStartsAt code.now.insns.now code.now.layout.now slot }
    requires here { insn_at code.now.insns.now slot ≡ Some insn.now }
    requires within { slot < length table.old.items }
    requires room { slot < length ops.old.items }
    requires passed { Passed (program_of code.now) slot targets.old.items table.old.items }
    ensures size { OnOk result (length table.new.items ≡ length table.old.items) }
    ensures ok { OnOk result (Passed (program_of code.now) (slot + 1) targets.new.items table.new.items) }
    ensures ops { OnOk result (ops.new.items ≡ slice_set ops.old.items slot (op_at (program_of code.now) slot)) }
    ensures err { IfErr result (IsFault (fault_within (program_of code.now) (slot + 1))) }
{
    add_target(targets, named_by(slot, *insn))?;
    let mut before = known(table, slot);
    if let Some(rule) = fault_of(code, slot, insn, targets.len(), &before) {
        return Err(VerifyError::Refused { rule, slot });
    }
    put_op(ops, code.sizes, slot, &before, insn);
    propagate_reached(table, code.sizes, slot, &mut before, *insn);
    Ok(())
}

/// Passes over all instructions, up to the first fault, and gives the operations of all.
pub(crate) fn pass(alloc: Global, code: &Code, count: u32) -> Result<Vec<IrOp>, VerifyError>
    requires sizes { AreSizes code.now.sizes.now }
    requires layout { IsLayout code.now.insns.now code.now.layout.now }
    requires slots { slot_count code.now.insns.now ≡ count }
    requires some { 0 < count }
    requires few { count ≤ 4096 }
    ensures ok { IfOk result (λ _. fault_within (program_of code.now) count ≡ None) }
    ensures ops { IfOk result (λ ops. AreOps (program_of code.now) ops.items) }
    ensures err { IfErr result (IsFault (fault_within (program_of code.now) count)) }
{
    let mut table = first_table(alloc, count)?;
    let mut ops = no_ops(alloc, count)?;
    let mut targets = Vec::new(alloc);
    let mut slot = 0;
    let insns = code.insns;
    for insn in insns {
        match visit(code, slot, insn, &mut targets, &mut table, &mut ops) {
            Err(error) => return Err(error),
            Ok(()) => {}
        }
        slot += slots(insn);
    }
    Ok(ops)
}
