//! Which registers an instruction writes.

ghost use Rattle.std.specs.Prelude.{◌≡◌, ◌+◌, ◌==◌, ◌&&◌, not};
ghost use Rattle.bpf_verify_origin.specs.Sources.{writes_register, is_call, source_through};

use crate::source::Source;
use bpf_insn_types::{AtomicOp, Insn, Reg};

/// Whether an instruction writes a register: a call writes R0 to R5.
fn writes(insn: &Insn, reg: Reg) -> bool
    ensures { result ≡ writes_register insn.now reg }
{
    match *insn {
        Insn::Alu { dst, .. }
        | Insn::Neg { dst, .. }
        | Insn::Movsx { dst, .. }
        | Insn::Endian { dst, .. }
        | Insn::Load { dst, .. }
        | Insn::LoadSx { dst, .. }
        | Insn::LoadImm { dst, .. } => dst.number() == reg.number(),
        Insn::Atomic { op, src, .. } => match op {
            AtomicOp::Fetch(_) | AtomicOp::Xchg => src.number() == reg.number(),
            AtomicOp::Cmpxchg => reg.number() == 0,
            AtomicOp::Simple(_) => false,
        },
        Insn::Call { .. } => reg.number() <= 5,
        _ => false,
    }
}

/// Whether an instruction at a slot is a call that doesn't go on at another slot.
fn enters(insn: &Insn, from: u32, slot: u32) -> bool
    ensures { result ≡ (is_call insn.now && not (slot == from + 1)) }
{
    match *insn {
        Insn::Call { .. } => u64::from(slot) != u64::from(from) + 1,
        _ => false,
    }
}

/// The source that an instruction at a slot is to a register before another slot, to which all edges come from
/// there; or none, where the instruction leaves the register as it is.
pub(crate) fn source_at(insn: &Insn, from: u32, slot: u32, reg: Reg) -> Option<Source>
    ensures { result ≡ source_through insn.now from slot reg }
{
    if enters(insn, from, slot) {
        Some(Source::Entered(from))
    } else if writes(insn, reg) {
        Some(Source::Written(from))
    } else {
        None
    }
}
