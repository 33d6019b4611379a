//! An instruction as a mnemonic and operands.

ghost use Rattle.std.specs.Prelude.{◌≡◌};
ghost use Rattle.bpf_text_lex.specs.Statement.{mnemonic_of, printed_operand, two_slot_operands, operands_of, wide};

use crate::mnemonic::Mnemonic;
use crate::value::{Operands, Value};
use bpf_insn_types::{ImmKind, Insn, Operand, Reg};

/// The second operand of arithmetic or of a compare.
fn value_of(operand: Operand) -> Value
    ensures { result ≡ printed_operand operand }
{
    match operand {
        Operand::Imm(imm) => Value::Imm(imm),
        Operand::Reg(src) => Value::Reg(src),
    }
}

/// The number of 64 bits whose halves these are.
fn wide(imm: i32, next_imm: i32) -> u64
    ensures { result ≡ wide imm next_imm }
{
    u64::from(imm.cast_unsigned()) + (u64::from(next_imm.cast_unsigned()) << 32)
}

/// The operands of a two-slot load.
fn two_slot_operands(kind: ImmKind, dst: Reg, imm: i32, next_imm: i32) -> Operands
    ensures { result ≡ two_slot_operands kind dst imm next_imm }
{
    let dst = Value::Reg(dst);
    match kind {
        ImmKind::Number => Operands::Two(dst, Value::Wide(wide(imm, next_imm))),
        ImmKind::MapFd | ImmKind::Variable | ImmKind::Map => Operands::Two(dst, Value::Imm(imm)),
        ImmKind::Code => Operands::Two(dst, Value::FarDistance(imm)),
        ImmKind::MapFdValue | ImmKind::MapValue => {
            Operands::Three(dst, Value::Imm(imm), Value::Imm(next_imm))
        }
    }
}

/// The mnemonic of an instruction.
pub fn mnemonic_of(insn: &Insn) -> Mnemonic
    ensures { result ≡ mnemonic_of insn.now }
{
    match *insn {
        Insn::Alu { width, op, .. } => Mnemonic::Alu(width, op),
        Insn::Neg { width, .. } => Mnemonic::Neg(width),
        Insn::Movsx { width, bits, .. } => Mnemonic::Movsx(width, bits),
        Insn::Endian { order, bits, .. } => Mnemonic::Endian(order, bits),
        Insn::Ja { .. } => Mnemonic::Ja,
        Insn::Ja32 { .. } => Mnemonic::Ja32,
        Insn::Jump { width, compare, .. } => Mnemonic::Jump(width, compare),
        Insn::Call { callee, .. } => Mnemonic::Call(callee),
        Insn::Exit => Mnemonic::Exit,
        Insn::Load { size, .. } => Mnemonic::Load(size),
        Insn::LoadSx { size, .. } => Mnemonic::LoadSx(size),
        Insn::StoreImm { size, .. } => Mnemonic::StoreImm(size),
        Insn::Store { size, .. } => Mnemonic::Store(size),
        Insn::Atomic { width, op, .. } => Mnemonic::Atomic(width, op),
        Insn::LoadImm { kind, .. } => Mnemonic::LoadImm(kind),
    }
}

/// The operands of an instruction.
pub fn operands_of(insn: &Insn) -> Operands
    ensures { result ≡ operands_of insn.now }
{
    match *insn {
        Insn::Alu { dst, operand, .. } => Operands::Two(Value::Reg(dst), value_of(operand)),
        Insn::Neg { dst, .. } | Insn::Endian { dst, .. } => Operands::One(Value::Reg(dst)),
        Insn::Movsx { dst, src, .. } => Operands::Two(Value::Reg(dst), Value::Reg(src)),
        Insn::Ja { offset } => Operands::One(Value::Distance(offset)),
        Insn::Ja32 { imm } => Operands::One(Value::FarDistance(imm)),
        Insn::Jump {
            dst,
            operand,
            offset,
            ..
        } => Operands::Three(Value::Reg(dst), value_of(operand), Value::Distance(offset)),
        Insn::Call { imm, .. } => Operands::One(Value::Imm(imm)),
        Insn::Exit => Operands::Zero,
        Insn::Load {
            dst,
            src,
            offset,
            ..
        }
        | Insn::LoadSx {
            dst,
            src,
            offset,
            ..
        } => Operands::Two(Value::Reg(dst), Value::Address(src, offset)),
        Insn::StoreImm {
            dst,
            offset,
            imm,
            ..
        } => Operands::Two(Value::Address(dst, offset), Value::Imm(imm)),
        Insn::Store {
            dst,
            src,
            offset,
            ..
        }
        | Insn::Atomic {
            dst,
            src,
            offset,
            ..
        } => Operands::Two(Value::Address(dst, offset), Value::Reg(src)),
        Insn::LoadImm {
            kind,
            dst,
            imm,
            next_imm,
        } => two_slot_operands(kind, dst, imm, next_imm),
    }
}
