//! Which operations the iterations of a sum may do.

ghost use Rattle.std.specs.Prelude.{◌≡◌, ◌<◌};
ghost use Rattle.spec_run_loop.specs.SumOps.{keeps_to, stays_within};

use array_maps::Op;
use bpf_insn_types::{AtomicOp, Width};
use bpf_step_ir::{IrOp, whole_operator};

/// Whether an operation accesses no element of the maps, or reduces a whole one by this operator without loading the
/// old value.
pub(crate) fn keeps_to(op: Op, at: &IrOp) -> bool
    ensures { result ≡ keeps_to op at.now }
{
    match *at {
        IrOp::ChangeElement {
            width: Width::W64,
            op: AtomicOp::Simple(simple),
            ..
        } => op == whole_operator(simple),
        IrOp::LoadElement { .. } | IrOp::StoreElement { .. } | IrOp::ChangeElement { .. } => false,
        _ => true,
    }
}

/// Whether an operation, which is at one of the slots from one up to, and not with, another, leads to these alone.
pub(crate) fn stays_within(at: &IrOp, slot: u32, from: u32, past: u32) -> bool
    requires low { slot < 4096 }
    ensures { result ≡ stays_within from past slot at.now }
{
    match *at {
        IrOp::Stop | IrOp::Exit | IrOp::CallLoop { .. } => true,
        IrOp::SetWide { .. } => slot + 2 < past,
        IrOp::Jump { target } => from <= target && target < past,
        IrOp::JumpIf { target, .. } => from <= target && target < past && slot + 1 < past,
        _ => slot + 1 < past,
    }
}
