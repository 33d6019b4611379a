//! The numbers in instructions are of their types. Nothing is computed here: what the types say is
//! made a clause, so that contracts over plain numbers know it.

ghost use Rattle.std.specs.Prelude.{◌≤◌};
ghost use Rattle.bpf_insn_types.specs.Values.{OperandFits, InsnFits, AreInsns};

use bpf_insn_types::{Insn, Operand, Reg};

/// A register is one of eleven.
fn register_fits(reg: Reg)
    ensures { reg ≤ 10 }
{
    let _number = reg.number();
}

/// An operand is a register or an immediate of 32 bits.
fn operand_fits(operand: Operand)
    ensures { OperandFits operand }
{
    match operand {
        Operand::Imm(_) => {}
        Operand::Reg(reg) => register_fits(reg),
    }
}

/// Each number of an instruction is one of its type.
fn insn_fits(insn: Insn)
    ensures { InsnFits insn }
{
    match insn {
        Insn::Alu { dst, operand, .. } | Insn::Jump { dst, operand, .. } => {
            register_fits(dst);
            operand_fits(operand);
        }
        Insn::Movsx { dst, src, .. }
        | Insn::Load { dst, src, .. }
        | Insn::LoadSx { dst, src, .. }
        | Insn::Store { dst, src, .. }
        | Insn::Atomic { dst, src, .. } => {
            register_fits(dst);
            register_fits(src);
        }
        Insn::Neg { dst, .. }
        | Insn::Endian { dst, .. }
        | Insn::StoreImm { dst, .. }
        | Insn::LoadImm { dst, .. } => register_fits(dst),
        Insn::Ja { .. } | Insn::Ja32 { .. } | Insn::Call { .. } | Insn::Exit => {}
    }
}

/// Each number of each instruction is one of its type.
pub fn insns_fit(insns: &[Insn])
    ensures { AreInsns insns.now }
{
    for insn in insns {
        insn_fits(*insn);
    }
}
