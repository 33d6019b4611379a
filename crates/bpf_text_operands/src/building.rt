//! An instruction from its mnemonic and its operands.

ghost use Rattle.std.specs.Prelude.{◌≡◌, Some};
ghost use Rattle.bpf_text_operands.specs.Statements.{two_slots_of, insn_of_mnemonic};

use bpf_insn_types::{ImmKind, Insn, Operand, Reg};
use bpf_text_lex::{Mnemonic, Operands, Value};

/// A two-slot load of a number.
fn two_slot_number(dst: Reg, number: u64) -> Insn
    ensures { Some result ≡ two_slots_of ImmKind.Number (Operands.Two (Value.Reg dst) (Value.Wide number)) }
{
    let low = (number % (1 << 32)) as u32;
    let high = (number / (1 << 32)) as u32;
    Insn::LoadImm {
        kind: ImmKind::Number,
        dst,
        imm: low.cast_signed(),
        next_imm: high.cast_signed(),
    }
}

/// A two-slot load of this kind and two operands.
#[rattlefmt::skip]
fn two_slots_of(kind: ImmKind, first: &Value, second: &Value) -> Option<Insn>
    ensures { result ≡ two_slots_of kind (Operands.Two first.now second.now) }
{
    match (kind, first, second) {
        (ImmKind::Number, Value::Reg(dst), Value::Wide(number)) => Some(two_slot_number(*dst, *number)),
        (ImmKind::Code, Value::Reg(dst), Value::FarDistance(imm)) | (_, Value::Reg(dst), Value::Imm(imm)) =>
            Some(Insn::LoadImm { kind, dst: *dst, imm: *imm, next_imm: 0 }),
        _ => None,
    }
}

/// The instruction of a mnemonic and one operand.
#[rattlefmt::skip]
fn with_one(mnemonic: Mnemonic, value: &Value) -> Option<Insn>
    ensures { result ≡ insn_of_mnemonic mnemonic (Operands.One value.now) }
{
    match (mnemonic, value) {
        (Mnemonic::Neg(width), Value::Reg(dst)) => Some(Insn::Neg { width, dst: *dst }),
        (Mnemonic::Endian(order, bits), Value::Reg(dst)) => Some(Insn::Endian { order, bits, dst: *dst }),
        (Mnemonic::Ja, Value::Distance(offset)) => Some(Insn::Ja { offset: *offset }),
        (Mnemonic::Ja32, Value::FarDistance(imm)) => Some(Insn::Ja32 { imm: *imm }),
        (Mnemonic::Call(callee), Value::Imm(imm)) => Some(Insn::Call { callee, imm: *imm }),
        _ => None,
    }
}

/// The instruction of a mnemonic and two operands.
#[rattlefmt::skip]
fn with_two(mnemonic: Mnemonic, first: &Value, second: &Value) -> Option<Insn>
    ensures { result ≡ insn_of_mnemonic mnemonic (Operands.Two first.now second.now) }
{
    match (mnemonic, first, second) {
        (Mnemonic::Alu(width, op), Value::Reg(dst), Value::Imm(imm)) =>
            Some(Insn::Alu { width, op, dst: *dst, operand: Operand::Imm(*imm) }),
        (Mnemonic::Alu(width, op), Value::Reg(dst), Value::Reg(src)) =>
            Some(Insn::Alu { width, op, dst: *dst, operand: Operand::Reg(*src) }),
        (Mnemonic::Movsx(width, bits), Value::Reg(dst), Value::Reg(src)) =>
            Some(Insn::Movsx { width, bits, dst: *dst, src: *src }),
        (Mnemonic::Load(size), Value::Reg(dst), Value::Address(src, offset)) =>
            Some(Insn::Load { size, dst: *dst, src: *src, offset: *offset }),
        (Mnemonic::LoadSx(size), Value::Reg(dst), Value::Address(src, offset)) =>
            Some(Insn::LoadSx { size, dst: *dst, src: *src, offset: *offset }),
        (Mnemonic::StoreImm(size), Value::Address(dst, offset), Value::Imm(imm)) =>
            Some(Insn::StoreImm { size, dst: *dst, offset: *offset, imm: *imm }),
        (Mnemonic::Store(size), Value::Address(dst, offset), Value::Reg(src)) =>
            Some(Insn::Store { size, dst: *dst, src: *src, offset: *offset }),
        (Mnemonic::Atomic(width, op), Value::Address(dst, offset), Value::Reg(src)) =>
            Some(Insn::Atomic { width, op, dst: *dst, src: *src, offset: *offset }),
        (Mnemonic::LoadImm(kind), _, _) => two_slots_of(kind, first, second),
        _ => None,
    }
}

/// The instruction of a mnemonic and three operands.
#[rattlefmt::skip]
fn with_three(mnemonic: Mnemonic, first: &Value, second: &Value, third: &Value) -> Option<Insn>
    ensures { result ≡ insn_of_mnemonic mnemonic (Operands.Three first.now second.now third.now) }
{
    match (mnemonic, first, second, third) {
        (Mnemonic::Jump(width, compare), Value::Reg(dst), Value::Imm(imm), Value::Distance(offset)) =>
            Some(Insn::Jump { width, compare, dst: *dst, operand: Operand::Imm(*imm), offset: *offset }),
        (Mnemonic::Jump(width, compare), Value::Reg(dst), Value::Reg(src), Value::Distance(offset)) =>
            Some(Insn::Jump { width, compare, dst: *dst, operand: Operand::Reg(*src), offset: *offset }),
        (Mnemonic::LoadImm(kind), Value::Reg(dst), Value::Imm(imm), Value::Imm(next_imm)) =>
            Some(Insn::LoadImm { kind, dst: *dst, imm: *imm, next_imm: *next_imm }),
        _ => None,
    }
}

/// The instruction of a mnemonic and operands of its kinds.
pub(crate) fn insn_of_mnemonic(mnemonic: Mnemonic, operands: &Operands) -> Option<Insn>
    ensures { result ≡ insn_of_mnemonic mnemonic operands.now }
{
    match (mnemonic, operands) {
        (Mnemonic::Exit, Operands::Zero) => Some(Insn::Exit),
        (_, Operands::Zero) => None,
        (_, Operands::One(value)) => with_one(mnemonic, value),
        (_, Operands::Two(first, second)) => with_two(mnemonic, first, second),
        (_, Operands::Three(first, second, third)) => with_three(mnemonic, first, second, third),
    }
}
