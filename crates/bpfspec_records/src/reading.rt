//! Which registers an instruction reads.

ghost use Rattle.std.specs.Prelude.{◌≡◌, ◌==◌};
ghost use Rattle.bpfspec_records.specs.Operands.{is_operand, reads_register};

use bpf_insn_types::{AluOp, AtomicOp, Callee, Insn, Operand, Reg};
use bpf_verify_model::Helper;
use bpf_verify_values::helper_of;

/// Whether two registers are one.
fn same(a: Reg, b: Reg) -> bool
    ensures { result ≡ (a == b) }
{
    a.number() == b.number()
}

/// Whether an operand is this register.
fn is_operand(operand: Operand, reg: Reg) -> bool
    ensures { result ≡ is_operand operand reg }
{
    match operand {
        Operand::Imm(_) => false,
        Operand::Reg(src) => same(src, reg),
    }
}

/// Whether an instruction reads a register: a move reads its second operand alone, a lookup two arguments, and a loop
/// four.
pub(crate) fn reads(insn: &Insn, reg: Reg) -> bool
    ensures { result ≡ reads_register insn.now reg }
{
    match *insn {
        Insn::Alu {
            op: AluOp::Mov,
            operand,
            ..
        } => is_operand(operand, reg),
        Insn::Alu { dst, operand, .. } | Insn::Jump { dst, operand, .. } => {
            same(dst, reg) || is_operand(operand, reg)
        }
        Insn::Neg { dst, .. } | Insn::Endian { dst, .. } | Insn::StoreImm { dst, .. } => {
            same(dst, reg)
        }
        Insn::Movsx { src, .. } | Insn::Load { src, .. } | Insn::LoadSx { src, .. } => {
            same(src, reg)
        }
        Insn::Atomic {
            op: AtomicOp::Cmpxchg,
            dst,
            src,
            ..
        } => same(dst, reg) || same(src, reg) || reg.number() == 0,
        Insn::Store { dst, src, .. } | Insn::Atomic { dst, src, .. } => {
            same(dst, reg) || same(src, reg)
        }
        Insn::Call { callee, imm } => {
            let most = match helper_of(callee, imm) {
                Some(Helper::Lookup) => 2,
                Some(Helper::Loop) => 4,
                None => 0,
            };
            1 <= reg.number() && reg.number() <= most
        }
        Insn::Exit => reg.number() == 0,
        Insn::Ja { .. } | Insn::Ja32 { .. } | Insn::LoadImm { .. } => false,
    }
}
