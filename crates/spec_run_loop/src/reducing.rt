//! By which operator operations add up.

ghost use Rattle.std.specs.Prelude.{◌≡◌, ◌↔◌, ◌<◌, ◌≤◌, length, slice_index_or, IsTrue, IfSome, IfNone};
ghost use Rattle.bpf_insn_types.specs.declared.insn.SimpleOp.{SimpleOp};
ghost use Rattle.bpf_step_model.specs.Step.{map_operator};
ghost use Rattle.bpf_step_ir.specs.PlainRun.{op_of};
ghost use Rattle.spec_run_loop.specs.SumOps.{AddUp, IsSumOp};

use crate::summable::{keeps_to, stays_within};
use array_maps::Op;
use bpf_step_ir::IrOp;

/// The operator by which the operations of the slots from one up to, and not with, another add up: each of them
/// accesses no element of the maps, or reduces a whole one by this operator without loading the old value, and leads
/// to these slots alone. It is `Add` if none of them accesses an element. `None` if they don't add up.
pub fn sum_operator(ops: &[IrOp], from: u32, past: u32) -> Option<Op>
    requires slots { length ops.now ≤ 4096 }
    requires within { past ≤ length ops.now }
    ensures sums { IfSome result (λ op. AddUp op ops.now from past) }
    ensures none { IfNone result ((op : SimpleOp) → ¬ (AddUp (map_operator op) ops.now from past)) }
{
    if add_up(Op::Add, ops, from, past) {
        return Some(Op::Add);
    }
    if add_up(Op::Or, ops, from, past) {
        return Some(Op::Or);
    }
    if add_up(Op::And, ops, from, past) {
        return Some(Op::And);
    }
    if add_up(Op::Xor, ops, from, past) {
        return Some(Op::Xor);
    }
    None
}

/// Whether the operations of these slots add up by this operator.
fn add_up(op: Op, ops: &[IrOp], from: u32, past: u32) -> bool
    requires slots { length ops.now ≤ 4096 }
    requires within { past ≤ length ops.now }
    ensures { IsTrue result ↔ AddUp op ops.now from past }
{
    for slot in from..past {
        if !is_sum(op, &ops[slot as usize], slot, from, past) {
            return false;
        }
    }
    true
}

/// Whether the operation at a slot keeps to reduces of whole elements by this operator, and leads to these slots alone.
fn is_sum(op: Op, at: &IrOp, slot: u32, from: u32, past: u32) -> bool
    requires low { slot < 4096 }
    ensures { IsTrue result ↔ IsSumOp op from past slot at.now }
{
    keeps_to(op, at) && stays_within(at, slot, from, past)
}
